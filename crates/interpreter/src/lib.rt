// The interpreter of the book program (document 01, "The book program"): a line in, its reply out, over a lent store; and a
// session over an input that comes in pieces.
#![tactic(auto)]

use byte_list::ByteList;
use console::LINE_LIMIT;

pub mod lent;
mod reply;
mod say;
mod session;

pub use reply::answer;
pub use session::Session;

// The store is for so many tags, and these are its words.
pub const BOOK_TAGS: usize = 2000;

pub const BOOK_WORDS: usize = words::HEADER_WORDS + words::TAG_WORDS * BOOK_TAGS;

// One byte more than a line may have is held, so that no line is taken for a shorter one.
pub const LINE_BUFFER: usize = LINE_LIMIT + 1;

// Room for the longest listing: a line of at most 22 bytes for each tag, and a last line.
pub const OUT_SIZE: usize = 22 * BOOK_TAGS + 64;

// A line in hand.
pub type Line = ByteList<LINE_BUFFER>;

// What is printed for one line.
pub type Reply = ByteList<OUT_SIZE>;
