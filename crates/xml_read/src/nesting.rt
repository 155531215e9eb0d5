// The reader of an item and the reader of content call each other; the depth left falls, and content uses bytes up.
ghost use Rattle.std.specs.Prelude.{◌≡◌, true, suc, ◌≤◌, drop};
ghost use Rattle.xml.specs.Grammar.{most_depth};
ghost use Rattle.xml_pieces.specs.Outcome.{InText, ReadsOn, Ended};
ghost use Rattle.xml_pieces.specs.Pieces.{goes_on};
ghost use Rattle.xml_read.specs.Sure.{Sure};

use name_index::NameIndex;
use store_types::Refusal;
use xml_ends::{closed, ending, goes_on, opened, opens_element};
use xml_pieces::Cursor;
use xml_pieces::pieces::piece;
use xml_tag::tag;

// An item of content: an element with all that it holds, or a construct that is none.
#[cycle(content_item)]
fn item(
    text: &[u8],
    here: Cursor,
    kinds: &mut [u8],
    depth: usize,
    index: &mut NameIndex,
) -> Result<Cursor, Refusal>
    requires in_text { InText text.now here × (goes_on (drop here.at text.now) ≡ true) × (depth ≤ most_depth) }
    requires sure { Sure text.now depth here kinds.old }
    ensures { ReadsOn text.now depth here (suc here.at) kinds.old kinds.new result }
{
    let at = here.at;
    if !opens_element(text, at) {
        return piece(text, here, kinds);
    }
    // Names are looked at in the pass that writes no kinds: one that writes comes after it has accepted the text.
    let looks = kinds.len() == 0;
    let Some(found) = tag(text, at, looks, index) else {
        return Err(Refusal::NotASheet);
    };
    if depth == 0 {
        return Err(Refusal::TooDeep);
    }
    let from = opened(here, found.end, kinds);
    if found.lone {
        return Ok(closed(from, found.end, kinds));
    }
    let c = content(text, from, kinds, depth - 1, index)?;
    ending(text, c, kinds, &text[at + 1..found.name])
}

// Constructs and elements, up to the text's end or an end tag.
#[cycle(content_item)]
pub fn content(
    text: &[u8],
    from: Cursor,
    kinds: &mut [u8],
    depth: usize,
    index: &mut NameIndex,
) -> Result<Cursor, Refusal>
    requires in_text { InText text.now from × (depth ≤ most_depth) }
    requires sure { Sure text.now depth from kinds.old }
    ensures reads { ReadsOn text.now depth from from.at kinds.old kinds.new result }
    ensures ended { Ended text.now result }
{
    let mut here = from;
    while goes_on(text, here.at) {
        here = item(text, here, kinds, depth, index)?;
    }
    Ok(here)
}
