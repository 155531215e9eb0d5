// The store's words (document 01, "The book in words"): header words at their places, and records behind the header. Every
// record is read and written through one pair of field functions and one pair for its label; only a tag number finds a
// record.
#![tactic(auto)]

pub mod places;

ghost use Rattle.std.specs.Prelude.{◌≡◌, ℕ, ◌≤◌, ◌<◌, length, set};
ghost use Rattle.store_types.specs.Layout.{header_words, words_for, at_height, at_count, at_first, at_stamp, word_at, at_next, at_prior, at_mate, at_up, at_kind, at_depth, tag_words, field, label_at, with_field, with_label, Room};
ghost use Rattle.words.specs.Offsets.{offset_of, RecordAt};

use store_types::{Label, TagId};

// The header's words, and those of a record.
pub const HEADER_WORDS: usize = 8;

pub const TAG_WORDS: usize = 7;

// Where the words of the header stand.
pub const AT_VERSION: usize = 0;

pub const AT_S: usize = 1;

pub const AT_R: usize = 2;

pub const AT_HEIGHT: usize = 3;

pub const AT_COUNT: usize = 4;

pub const AT_FIRST: usize = 5;

pub const AT_BOOK: usize = 6;

pub const AT_STAMP: usize = 7;

// What the first word of every store is.
pub const VERSION: u32 = 1;

// Where the fields of a record stand, behind its label.
pub const AT_NEXT: usize = 1;

pub const AT_PRIOR: usize = 2;

pub const AT_MATE: usize = 3;

pub const AT_UP: usize = 4;

pub const AT_KIND: usize = 5;

pub const AT_DEPTH: usize = 6;

// Kinds as words, and what a mark adds to one: the kind word of an unmarked tag is below it.
pub const KIND_BEGIN: u32 = store_types::BEGIN as u32;

pub const KIND_END: u32 = store_types::END as u32;

pub const KIND_TEXT: u32 = store_types::TEXT as u32;

pub const MARK: u32 = 16;

// How many words a store of n tags has.
pub fn words_for(n: usize) -> usize
    requires { n < 4294967296 }
    ensures { result ≡ words_for header_words n }
{
    HEADER_WORDS + TAG_WORDS * n
}

// Word k of the header.
fn header_word(words: &[u32], k: usize) -> u32
    requires { (header_words ≤ length words.now) × (k < header_words) }
    ensures { result ≡ word_at words.now k }
{
    words[k]
}

fn put_header_word(words: &mut [u32], k: usize, v: u32)
    requires { (header_words ≤ length words.old) × (k < header_words) }
    ensures { words.new ≡ set words.old k v }
{
    words[k] = v;
}

// H.
pub fn height_of(words: &[u32]) -> u32
    requires { header_words ≤ length words.now }
    ensures { result ≡ word_at words.now at_height }
{
    header_word(words, AT_HEIGHT)
}

// n: tags issued.
pub fn count_of(words: &[u32]) -> u32
    requires { header_words ≤ length words.now }
    ensures { result ≡ word_at words.now at_count }
{
    header_word(words, AT_COUNT)
}

// The first tag, or no tag.
pub fn first_of(words: &[u32]) -> TagId
    requires { header_words ≤ length words.now }
    ensures { result.0 ≡ word_at words.now at_first }
{
    TagId(header_word(words, AT_FIRST))
}

// How many changes were accepted since load.
pub fn stamp_of(words: &[u32]) -> u32
    requires { header_words ≤ length words.now }
    ensures { result ≡ word_at words.now at_stamp }
{
    header_word(words, AT_STAMP)
}

pub fn set_height(words: &mut [u32], v: u32)
    requires { header_words ≤ length words.old }
    ensures { words.new ≡ set words.old at_height v }
{
    put_header_word(words, AT_HEIGHT, v);
}

pub fn set_count(words: &mut [u32], v: u32)
    requires { header_words ≤ length words.old }
    ensures { words.new ≡ set words.old at_count v }
{
    put_header_word(words, AT_COUNT, v);
}

pub fn set_first(words: &mut [u32], v: TagId)
    requires { header_words ≤ length words.old }
    ensures { words.new ≡ set words.old at_first v.0 }
{
    put_header_word(words, AT_FIRST, v.0);
}

pub fn set_stamp(words: &mut [u32], v: u32)
    requires { header_words ≤ length words.old }
    ensures { words.new ≡ set words.old at_stamp v }
{
    put_header_word(words, AT_STAMP, v);
}

// Field k of a tag's record.
pub fn get(words: &[u32], tag: TagId, k: usize) -> u32
    requires { Room words.now tag.0 × (k < tag_words) }
    ensures { result ≡ field words.now tag.0 k }
{
    let x = tag.0 as usize;
    words[HEADER_WORDS + TAG_WORDS * x + k]
}

fn put(words: &mut [u32], tag: TagId, k: usize, v: u32)
    requires { Room words.old tag.0 × (k < tag_words) }
    ensures { words.new ≡ with_field words.old tag.0 k v }
{
    let x = tag.0 as usize;
    words[HEADER_WORDS + TAG_WORDS * x + k] = v;
}

pub fn label_of(words: &[u32], tag: TagId) -> Label
    requires { Room words.now tag.0 }
    ensures { result.0 ≡ label_at words.now tag.0 }
{
    let x = tag.0 as usize;
    Label(words[HEADER_WORDS + TAG_WORDS * x])
}

pub fn set_label(words: &mut [u32], tag: TagId, v: Label)
    requires { Room words.old tag.0 }
    ensures { words.new ≡ with_label words.old tag.0 v.0 }
{
    let x = tag.0 as usize;
    words[HEADER_WORDS + TAG_WORDS * x] = v.0;
}

pub fn next_of(words: &[u32], tag: TagId) -> TagId
    requires { Room words.now tag.0 }
    ensures { result.0 ≡ field words.now tag.0 at_next }
{
    TagId(get(words, tag, AT_NEXT))
}

pub fn prior_of(words: &[u32], tag: TagId) -> TagId
    requires { Room words.now tag.0 }
    ensures { result.0 ≡ field words.now tag.0 at_prior }
{
    TagId(get(words, tag, AT_PRIOR))
}

pub fn mate_of(words: &[u32], tag: TagId) -> TagId
    requires { Room words.now tag.0 }
    ensures { result.0 ≡ field words.now tag.0 at_mate }
{
    TagId(get(words, tag, AT_MATE))
}

pub fn up_of(words: &[u32], tag: TagId) -> TagId
    requires { Room words.now tag.0 }
    ensures { result.0 ≡ field words.now tag.0 at_up }
{
    TagId(get(words, tag, AT_UP))
}

pub fn kind_of(words: &[u32], tag: TagId) -> u32
    requires { Room words.now tag.0 }
    ensures { result ≡ field words.now tag.0 at_kind }
{
    get(words, tag, AT_KIND)
}

pub fn depth_of(words: &[u32], tag: TagId) -> u32
    requires { Room words.now tag.0 }
    ensures { result ≡ field words.now tag.0 at_depth }
{
    get(words, tag, AT_DEPTH)
}

pub fn set_next(words: &mut [u32], tag: TagId, v: TagId)
    requires { Room words.old tag.0 }
    ensures { words.new ≡ with_field words.old tag.0 at_next v.0 }
{
    put(words, tag, AT_NEXT, v.0);
}

pub fn set_prior(words: &mut [u32], tag: TagId, v: TagId)
    requires { Room words.old tag.0 }
    ensures { words.new ≡ with_field words.old tag.0 at_prior v.0 }
{
    put(words, tag, AT_PRIOR, v.0);
}

pub fn set_mate(words: &mut [u32], tag: TagId, v: TagId)
    requires { Room words.old tag.0 }
    ensures { words.new ≡ with_field words.old tag.0 at_mate v.0 }
{
    put(words, tag, AT_MATE, v.0);
}

pub fn set_up(words: &mut [u32], tag: TagId, v: TagId)
    requires { Room words.old tag.0 }
    ensures { words.new ≡ with_field words.old tag.0 at_up v.0 }
{
    put(words, tag, AT_UP, v.0);
}

pub fn set_kind(words: &mut [u32], tag: TagId, v: u32)
    requires { Room words.old tag.0 }
    ensures { words.new ≡ with_field words.old tag.0 at_kind v }
{
    put(words, tag, AT_KIND, v);
}

pub fn set_depth(words: &mut [u32], tag: TagId, v: u32)
    requires { Room words.old tag.0 }
    ensures { words.new ≡ with_field words.old tag.0 at_depth v }
{
    put(words, tag, AT_DEPTH, v);
}

// Where a tag's record stands, as a walk carries it: worked out where the tag's number is read, so that no product stands
// between one record and the next.
#[derive(Clone, Copy)]
pub struct Offset(pub usize);

impl Offset {
    pub fn of(tag: TagId) -> Offset
        ensures { result.0 ≡ offset_of tag.0 }
    {
        let x = tag.0 as usize;
        Offset(TAG_WORDS * x)
    }
}

// Field k of the record that stands there, whichever tag's it is.
pub fn get_at(words: &[u32], at: Offset, k: usize) -> u32
    requires { RecordAt words.now at.0 × (k < tag_words) }
    ensures { (x : ℕ) → at.0 ≡ offset_of x → result ≡ field words.now x k }
{
    let p = at.0;
    words[p + k + HEADER_WORDS]
}

// And its label.
pub fn label_there(words: &[u32], at: Offset) -> Label
    requires { RecordAt words.now at.0 }
    ensures { (x : ℕ) → at.0 ≡ offset_of x → result.0 ≡ label_at words.now x }
{
    let p = at.0;
    Label(words[HEADER_WORDS + p])
}
