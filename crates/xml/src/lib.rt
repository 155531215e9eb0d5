// Sheets as XML (document 02, CR 1): what the reader replies. The grammar, the reader's definition and what is promised of both
// stand in specs/.
#![tactic(auto)]

// What a byte may be in a sheet: nothing, a space, the first byte of a name or a later one, or any other byte of texts and values.
#[derive(Clone, Copy, Debug, PartialEq, Eq)]
pub enum Class {
    Forbidden,
    Space,
    NameStart,
    NameOnly,
    Other,
}

// Elements stand inside one another to this depth, those at the top at 1.
pub const MOST_DEPTH: usize = 64;
