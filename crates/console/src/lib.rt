// Lines of the book program: a line of bytes to a command (document 01, "The book program").
#![tactic(auto)]

mod lines;

pub use lines::parse;
use store_types::TagId;

// A line over this many bytes is none; its line feed does not count.
pub const LINE_LIMIT: usize = 2100;

// What a line asks for. The kinds of a load are handed over beside it.
#[derive(Clone, Copy)]
pub enum Command {
    Load {
        s: u32,
        r: u32,
        book: u32,
        kinds: usize,
    },
    Insert {
        kind: u8,
        place: TagId,
    },
    Mark(TagId),
    List,
}
