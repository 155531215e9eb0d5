// One pass over a tag's attributes. A filter of some places, one of which each name marks, tells for nearly every tag that their
// names differ; where they begin is noted for the others. A tag that is known to be whole is only passed by.
ghost use Rattle.std.specs.Prelude.{◌≡◌, [], ◌≤◌, length, drop};
ghost use Rattle.std.proofs.Math.Option.{none};
ghost use Rattle.xml.specs.Scan.{tail_at};
ghost use Rattle.xml_tag.specs.Filter.{filter_place};
ghost use Rattle.xml_tag.specs.Gather.{Gathers};
ghost use Rattle.xml_tag.specs.Post.{end_found};

use crate::{Gathered, TagEnd};
use name_index::NameIndex;
use xml_attributes::{NextInTag, next_in_tag};

const FILTER_PLACES: usize = 64;

// A name's place in the filter.
fn filter_place(name: &[u8]) -> usize
    requires { 1 ≤ length name.now }
    ensures { result ≡ filter_place name.now }
{
    let n = name.len();
    let first = usize::from(name[0]);
    let last = usize::from(name[n - 1]);
    (first + (3 * last + 8 * (n % 8))) % FILTER_PLACES
}

// Attributes after a tag's name, spaces, and > or />: the names may repeat.
pub fn gather(text: &[u8], from: usize, index: &mut NameIndex) -> Option<Gathered>
    requires { from ≤ length text.now }
    ensures { Gathers text.now from index.new.starts result }
{
    let mut filter = [false; FILTER_PLACES];
    let mut shared = false;
    let mut count: usize = 0;
    let mut at = from;
    while at < text.len() {
        match next_in_tag(text, at)? {
            NextInTag::Closer { end, lone } => {
                return Some(Gathered {
                    end,
                    lone,
                    last: at,
                    count,
                    shared,
                });
            }
            NextInTag::Attribute { begins, name, end } => {
                let place = filter_place(&text[begins..name]);
                shared |= filter[place];
                filter[place] = true;
                count = index.note(count, begins);
                at = end;
            }
        }
    }
    None
}

// Where a tag ends that is known to be whole, from after its name on.
pub fn pass_by(text: &[u8], from: usize) -> Option<TagEnd>
    requires { (from ≤ length text.now) × (tail_at [] 0 (drop from text.now) ≡ none → ⊥) }
    ensures { result ≡ end_found from (tail_at [] 0 (drop from text.now)) }
{
    let mut at = from;
    while at < text.len() {
        match next_in_tag(text, at)? {
            NextInTag::Closer { end, lone } => {
                return Some(TagEnd { end, lone });
            }
            NextInTag::Attribute {
                begins: _,
                name: _,
                end,
            } => {
                at = end;
            }
        }
    }
    None
}
