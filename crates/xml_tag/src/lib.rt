// Start tags and empty-element tags: their attributes, whose names differ, and whole tags (document 02, CR 1). Each contract is an
// equation with the scanner of xml/specs/Scan.antt, of the text from a place on.
#![tactic(auto)]

mod gather;
mod tags;

pub use tags::tag;

// What a pass over a whole tag's attributes gathers: where the tag ends, whether it is an empty-element tag, where the last attribute
// ends, how many there are, and whether the filter has one place for two of their names.
#[derive(Clone, Copy, Debug)]
struct Gathered {
    end: usize,
    lone: bool,
    last: usize,
    count: usize,
    shared: bool,
}

// Where a tag ends, and whether it is an empty-element tag.
#[derive(Clone, Copy, Debug)]
struct TagEnd {
    end: usize,
    lone: bool,
}

// Where a tag's name ends, where the tag does, and whether it is an empty-element tag.
#[derive(Clone, Copy, Debug)]
pub struct TagRead {
    pub name: usize,
    pub end: usize,
    pub lone: bool,
}
