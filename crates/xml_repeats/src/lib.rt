// Whether the names of a tag's attributes differ (document 02, CR 1), whatever the names are and however many there are: in batches
// of as many as an index has places, with all names after a batch searched in it.
#![tactic(auto)]

ghost use Rattle.std.specs.Prelude.{◌≡◌, List, ℕ, ◌≤◌, ◌<◌, length};
ghost use Rattle.name_index.specs.Order.{differ};
ghost use Rattle.name_index.specs.Index.{Index, Holds};
ghost use Rattle.xml_laws.proofs.Names.{all_new};
ghost use Rattle.xml_attributes.specs.Chain.{Chain};
ghost use Rattle.xml_repeats.specs.Batches.{Chained, Met, Filled};

use name_index::{NameIndex, PLACES};
use xml_attributes::{NextInTag, next_in_tag};

// How many attributes were noted, and where the last of them ends.
#[derive(Clone, Copy, Debug)]
pub struct Batch {
    pub count: usize,
    pub end: usize,
}

// Notes attributes from a place on, up to another or as many as there are places for.
fn fill(text: &[u8], from: usize, to: usize, index: &mut NameIndex) -> Batch
    requires { to ≤ length text.now }
    ensures batch { (row : List (List ℕ)) → Chain text.now to from row → Filled text.now to row index.new.starts result }
    ensures on { Chained text.now from to → from < to → from < result.end }
{
    let mut at = from;
    for count in 0..PLACES {
        if to <= at {
            return Batch { count, end: at };
        }
        let Some(
            NextInTag::Attribute {
                begins,
                name: _,
                end,
            },
        ) = next_in_tag(text, at)
        else {
            return Batch { count, end: at };
        };
        index.note(count, begins);
        at = end;
    }
    Batch {
        count: PLACES,
        end: at,
    }
}

// Whether no attribute from a place up to another has a name that the index holds.
fn none_held(text: &[u8], from: usize, to: usize, index: &NameIndex, count: usize) -> bool
    requires { (to ≤ length text.now) × Index text.now index.now.hashes index.now.starts count }
    ensures { (early late : List (List ℕ)) → Holds text.now index.now.starts count early → Chain text.now to from late → result ≡ all_new late early }
{
    let mut at = from;
    while at < to {
        let Some(NextInTag::Attribute { begins, name, end }) = next_in_tag(text, at) else {
            return false;
        };
        if index.has(text, count, &text[begins..name]) {
            return false;
        }
        at = end;
    }
    true
}

// Whether the names of the attributes from a place up to another differ: batch after batch, with all later names searched in it.
fn differ_in_batches(text: &[u8], from: usize, to: usize, index: &mut NameIndex) -> bool
    requires { Chained text.now from to }
    ensures { (row : List (List ℕ)) → Chain text.now to from row → result ≡ differ row }
{
    let mut at = from;
    while at < to {
        let batch = fill(text, at, to, index);
        if !index.arrange(text, batch.count) {
            return false;
        }
        if !none_held(text, batch.end, to, index, batch.count) {
            return false;
        }
        at = batch.end;
    }
    true
}

// The same, where the starts of the names are noted already if the index has room for them.
pub fn names_differ(
    text: &[u8],
    from: usize,
    to: usize,
    count: usize,
    index: &mut NameIndex,
) -> bool
    requires { Met text.now from to count index.old.starts }
    ensures { (row : List (List ℕ)) → Chain text.now to from row → result ≡ differ row }
{
    if count <= PLACES {
        return index.arrange(text, count);
    }
    differ_in_batches(text, from, to, index)
}
