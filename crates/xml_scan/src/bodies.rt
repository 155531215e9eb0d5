// What runs up to a closer: the bodies of comments and CDATA sections, values of attributes, character data.
ghost use Rattle.std.specs.Prelude.{◌≡◌, ◌≤◌, ◌<◌, length, drop};
ghost use Rattle.xml.specs.Scan.{body_length, value_length, data_length};
ghost use Rattle.xml_scan.specs.Post.{found, is_plain};
ghost use Rattle.xml_scan.specs.Data.{data_test};

use crate::runs::words_end;
use crate::strings::{reference, stands};
use xml::Class;
use xml_classes::{class_of, is_char};

// Where the first closer stands, with no forbidden byte before it.
pub fn body_end(text: &[u8], from: usize, closer: &[u8]) -> Option<usize>
    requires { from ≤ length text.now }
    ensures { result ≡ found from (body_length closer.now (drop from text.now)) }
{
    for i in from..text.len() {
        if stands(text, i, closer) {
            return Some(i);
        }
        if !is_char(text[i]) {
            return None;
        }
    }
    None
}

// Whether a byte may stand in a value by itself, if it is not its quote and not &.
fn is_plain(c: u8) -> bool
    ensures { result ≡ is_plain c }
{
    if c == b'<' {
        return false;
    }
    is_char(c)
}

// Where the closing quote of a value stands.
pub fn value_end(text: &[u8], from: usize, quote: u8) -> Option<usize>
    requires { from ≤ length text.now }
    ensures { result ≡ found from (value_length quote 0 (drop from text.now)) }
{
    let mut i = from;
    while i < text.len() {
        let c = text[i];
        if c == quote {
            return Some(i);
        }
        if c == b'&' {
            i += reference(text, i)?;
        } else {
            if !is_plain(c) {
                return None;
            }
            i += 1;
        }
    }
    None
}

// Whether character data goes on after a byte, ends before it, or is broken there.
#[derive(Clone, Copy, Debug, PartialEq, Eq)]
enum Datum {
    GoesOn,
    Ends,
    Broken,
}

// Only bytes of the last class can end data or begin ]]>.
fn data_test(text: &[u8], at: usize) -> Datum
    requires { at < length text.now }
    ensures { result ≡ data_test (drop at text.now) }
{
    let c = text[at];
    match class_of(c) {
        Class::Forbidden => return Datum::Broken,
        Class::Other => {}
        _ => return Datum::GoesOn,
    }
    if c == b'<' {
        return Datum::Ends;
    }
    if c == b'&' {
        return Datum::Ends;
    }
    if c != b']' {
        return Datum::GoesOn;
    }
    if stands(text, at, b"]]>") {
        return Datum::Broken;
    }
    Datum::GoesOn
}

// Where character data ends: at < or &, or at the text's end.
pub fn data_end(text: &[u8], from: usize) -> Option<usize>
    requires { from ≤ length text.now }
    ensures { result ≡ found from (data_length (drop from text.now)) }
{
    let mut i = words_end(text, from);
    while i < text.len() {
        match data_test(text, i) {
            Datum::Ends => return Some(i),
            Datum::Broken => return None,
            Datum::GoesOn => i = words_end(text, i + 1),
        }
    }
    Some(i)
}
