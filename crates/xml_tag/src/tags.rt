// Tags after their names, and whole tags. A reader that has read a text once may go over it again and not look at names.
ghost use Rattle.std.specs.Prelude.{◌≡◌, false, [], ◌≤◌, ◌<◌, length, drop};
ghost use Rattle.std.proofs.Math.Option.{none};
ghost use Rattle.xml.specs.Scan.{tail_at, tag_at};
ghost use Rattle.xml_tag.specs.Post.{end_found, tag_found};

use crate::gather::{gather, pass_by};
use crate::{TagEnd, TagRead};
use name_index::NameIndex;
use xml_repeats::names_differ;
use xml_scan::runs::name_end;
use xml_scan::strings::stands;

// After a tag's name: attributes with different names, spaces, and > or />. Names are looked at where the tag may be broken.
fn tail(text: &[u8], from: usize, looks: bool, index: &mut NameIndex) -> Option<TagEnd>
    requires from_in_bounds { from ≤ length text.now }
    requires looks { looks ≡ false → tail_at [] 0 (drop from text.now) ≡ none → ⊥ }
    ensures { result ≡ end_found from (tail_at [] 0 (drop from text.now)) }
{
    if !looks {
        return pass_by(text, from);
    }
    let tag = gather(text, from, index)?;
    if tag.shared && !names_differ(text, from, tag.last, tag.count, index) {
        return None;
    }
    Some(TagEnd {
        end: tag.end,
        lone: tag.lone,
    })
}

// The start tag or empty-element tag at a place, where < stands.
pub fn tag(text: &[u8], at: usize, looks: bool, index: &mut NameIndex) -> Option<TagRead>
    requires at_in_bounds { at < length text.now }
    requires looks { looks ≡ false → tag_at (drop at text.now) ≡ none → ⊥ }
    ensures { result ≡ tag_found at (tag_at (drop at text.now)) }
{
    let name = name_end(text, at + 1);
    if name == at + 1 {
        return None;
    }
    // Most tags have no attribute.
    if stands(text, name, b">") {
        return Some(TagRead {
            name,
            end: name + 1,
            lone: false,
        });
    }
    if stands(text, name, b"/>") {
        return Some(TagRead {
            name,
            end: name + 2,
            lone: true,
        });
    }
    let TagEnd { end, lone } = tail(text, name, looks, index)?;
    Some(TagRead { name, end, lone })
}
