// What content of a sheet holds beside elements (document 02, CR 1): character data, references, CDATA sections and comments; kinds
// into a lent list.
#![tactic(auto)]

pub mod kinds;
pub mod pieces;

// Where a reader stands in the text, how many kinds it has given, and whether it stands in a text: IN_TEXT or NOT_IN_TEXT, a word
// and no bool, because a struct with padding is slow to copy.
#[derive(Clone, Copy, Debug)]
pub struct Cursor {
    pub at: usize,
    pub count: usize,
    pub in_text: usize,
}

pub const IN_TEXT: usize = 1;

pub const NOT_IN_TEXT: usize = 0;

// A construct that is neither an element nor an end tag: where it ends.
#[derive(Clone, Copy, Debug)]
pub enum Piece {
    Text(usize),
    Comment(usize),
}
