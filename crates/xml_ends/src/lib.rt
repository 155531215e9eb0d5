// Where content of a sheet goes on and where an element opens; the kinds of its tags, and its end tag (document 02, CR 1).
#![tactic(auto)]

ghost use Rattle.std.specs.Prelude.{◌≡◌, false, [], ◌∷◌, ◌+◌, ◌^◌, ◌≤◌, ◌<◌, length, drop, set};
ghost use Rattle.xml.specs.Reader.{end_step};
ghost use Rattle.xml_pieces.specs.Outcome.{cursor_at, InText, Closes};
ghost use Rattle.xml_pieces.specs.Pieces.{goes_on, opens_element, closing_found};

use store_types::{BEGIN, END, Refusal};
use xml_pieces::kinds::put_kind;
use xml_pieces::{Cursor, NOT_IN_TEXT};
use xml_scan::runs::blank_end;
use xml_scan::strings::stands;

// How many bytes open an end tag.
const END_OPENER: usize = 2;

// Whether < begins what stands at a place, with no ! and no ? after it.
pub fn opens_element(text: &[u8], at: usize) -> bool
    requires { at ≤ length text.now }
    ensures { result ≡ opens_element (drop at text.now) }
{
    if !stands(text, at, b"<") {
        return false;
    }
    if stands(text, at, b"<!") {
        return false;
    }
    !stands(text, at, b"<?")
}

// Whether content goes on at a place: neither the text's end nor an end tag.
pub fn goes_on(text: &[u8], at: usize) -> bool
    requires { at ≤ length text.now }
    ensures { result ≡ goes_on (drop at text.now) }
{
    if text.len() == at {
        return false;
    }
    !stands(text, at, b"</")
}

// Where the end tag at a place ends, which must have a given name.
fn end_tag(text: &[u8], at: usize, name: &[u8]) -> Option<usize>
    requires { at ≤ length text.now }
    ensures { result ≡ closing_found at (end_step (name.now ∷ []) (drop at text.now)) }
{
    if !stands(text, at, b"</") {
        return None;
    }
    let from = at + END_OPENER;
    if !stands(text, from, name) {
        return None;
    }
    let e = blank_end(text, from + name.len());
    if stands(text, e, b">") {
        return Some(e + 1);
    }
    None
}

// A begin tag's kind; content goes on after the tag.
pub fn opened(here: Cursor, end: usize, kinds: &mut [u8]) -> Cursor
    requires { here.count + 1 < 2 ^ 64 }
    ensures cursor { result ≡ cursor_at end (here.count + 1) 0 }
    ensures list { kinds.new ≡ set kinds.old here.count 1 }
{
    let n = put_kind(kinds, here.count, BEGIN);
    Cursor {
        at: end,
        count: n,
        in_text: NOT_IN_TEXT,
    }
}

// An end's kind: an end tag's, or the second of an empty-element tag's.
pub fn closed(here: Cursor, end: usize, kinds: &mut [u8]) -> Cursor
    requires { here.count + 1 < 2 ^ 64 }
    ensures cursor { result ≡ cursor_at end (here.count + 1) 0 }
    ensures list { kinds.new ≡ set kinds.old here.count 2 }
{
    let n = put_kind(kinds, here.count, END);
    Cursor {
        at: end,
        count: n,
        in_text: NOT_IN_TEXT,
    }
}

// After the content of an element: its end tag, which has its name.
pub fn ending(text: &[u8], here: Cursor, kinds: &mut [u8], name: &[u8]) -> Result<Cursor, Refusal>
    requires { InText text.now here × (goes_on (drop here.at text.now) ≡ false) }
    ensures { Closes text.now name.now here kinds.old kinds.new result }
{
    let Some(e) = end_tag(text, here.at, name) else {
        return Err(Refusal::NotASheet);
    };
    Ok(closed(here, e, kinds))
}
