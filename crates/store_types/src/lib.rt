// The two kinds of number, held pairs, refusals, and what the calls reply.
#![tactic(auto)]

pub mod file;
mod refusal;

ghost use Rattle.std.specs.Prelude.{◌≡◌, eqb};
ghost use Rattle.store_types.specs.Limits.{no_tag};

pub use refusal::Refusal;

// Document 01's tag number: it never changes. Only a tag number finds a record in the store.
#[derive(Clone, Copy, Debug, PartialEq, Eq)]
pub struct TagId(pub u32);

// Document 01's label: it may change with any insertion. It is compared, and finds nothing.
#[derive(Clone, Copy, Debug, PartialEq, Eq)]
pub struct Label(pub u32);

impl TagId {
    // Document 01: 4,294,967,295 stands for no tag, and as a place for the front of the book.
    pub const NONE: TagId = TagId(4294967295);

    pub fn is_none(self) -> bool
        ensures { result ≡ eqb self.0 no_tag }
    {
        self == TagId::NONE
    }
}

// Document 01's kinds: a begin tag, an end tag, a text.
pub const BEGIN: u8 = 1;

pub const END: u8 = 2;

pub const TEXT: u8 = 3;

// Document 01: at most so many tags, marked ones counted.
pub const MOST_TAGS: u32 = 200000;

// Document 01: labels are below this, and the width of a root is at most this.
pub const LABEL_LIMIT: u64 = 4294967296;

// Document 01's held pair: a section's book number, begin tag (or text) and two labels.
#[derive(Clone, Copy, Debug, PartialEq, Eq)]
pub struct HeldPair {
    pub book: u32,
    pub tag: TagId,
    pub start: Label,
    pub end: Label,
}

// Document 02, CR 6: what a party may do on a section, which is named by its begin tag's number. The rights are added up. A record
// is the caller's, and may hold any words.
#[repr(C)]
#[derive(Clone, Copy, Debug, PartialEq, Eq)]
pub struct Grant {
    pub party: u32,
    pub section: u32,
    pub rights: u32,
}

// Parties are numbered from 1 to this.
pub const MOST_PARTY: u32 = 65535;

pub const READ: u32 = 1;

pub const WRITE: u32 = 2;

pub const INSERT: u32 = 4;

pub const ALL_RIGHTS: u32 = READ + WRITE + INSERT;

// What a party asks for: the pair that it shows, a tag, one right, and a kind, which only the right to insert looks at.
#[derive(Clone, Copy, Debug, PartialEq, Eq)]
pub struct Act {
    pub pair: HeldPair,
    pub tag: TagId,
    pub right: u32,
    pub kind: u8,
}

// What the calls reply where they do not refuse. A load: how many tags the book has, and its height.
#[derive(Clone, Copy, Debug, PartialEq, Eq)]
pub struct Loaded {
    pub tags: u32,
    pub height: u32,
}

// An insertion: the first new tag, how many old ones have new labels, and the height of the split, 0 where there is none.
#[derive(Clone, Copy, Debug, PartialEq, Eq)]
pub struct Inserted {
    pub first: TagId,
    pub moved: u32,
    pub split: u32,
}

// The held-pair question.
#[derive(Clone, Copy, Debug, PartialEq, Eq)]
pub enum Answer {
    Yes,
    No,
    Stale,
}

// A party's call: it never hears a no.
#[derive(Clone, Copy, Debug, PartialEq, Eq)]
pub enum PartyAnswer {
    Yes,
    Stale,
    Inserted(Inserted),
}
