// Attributes, and what stands next in a tag (document 02, CR 1). Each contract is an equation with the scanners of
// xml/specs/Scan.antt, of the text from a place on.
#![tactic(auto)]

ghost use Rattle.std.specs.Prelude.{◌≡◌, ◌≤◌, length, drop};
ghost use Rattle.xml.specs.Grammar.{is_quote};
ghost use Rattle.xml.specs.Scan.{attribute_at};
ghost use Rattle.xml_attributes.specs.Next.{attribute_found, next_in_tag};

use xml_scan::bodies::value_end;
use xml_scan::runs::{blank_end, name_end};
use xml_scan::strings::stands;

// Where an attribute's name ends, and the attribute.
#[derive(Clone, Copy, Debug)]
struct AttributeRead {
    name: usize,
    end: usize,
}

// What stands next in a tag: its end, and whether it is an empty-element tag; or an attribute, by where it begins, where its name ends
// and where it does.
#[derive(Clone, Copy, Debug)]
pub enum NextInTag {
    Closer {
        end: usize,
        lone: bool,
    },
    Attribute {
        begins: usize,
        name: usize,
        end: usize,
    },
}

fn is_quote(c: u8) -> bool
    ensures { result ≡ is_quote c }
{
    c == b'"' || c == b'\''
}

// The attribute whose name begins at a place.
fn read_attribute(text: &[u8], at: usize) -> Option<AttributeRead>
    requires { at ≤ length text.now }
    ensures { result ≡ attribute_found at (attribute_at (drop at text.now)) }
{
    let name = name_end(text, at);
    if name == at {
        return None;
    }
    let equals = blank_end(text, name);
    if !stands(text, equals, b"=") {
        return None;
    }
    let opens = blank_end(text, equals + 1);
    if text.len() <= opens {
        return None;
    }
    let quote = text[opens];
    if !is_quote(quote) {
        return None;
    }
    let closes = value_end(text, opens + 1, quote)?;
    Some(AttributeRead {
        name,
        end: closes + 1,
    })
}

// What stands next in a tag, from a place after its name on, if the tag is right there.
pub fn next_in_tag(text: &[u8], at: usize) -> Option<NextInTag>
    requires { at ≤ length text.now }
    ensures { result ≡ next_in_tag at (drop at text.now) }
{
    let begins = blank_end(text, at);
    if stands(text, begins, b">") {
        return Some(NextInTag::Closer {
            end: begins + 1,
            lone: false,
        });
    }
    if stands(text, begins, b"/>") {
        return Some(NextInTag::Closer {
            end: begins + 2,
            lone: true,
        });
    }
    if begins == at {
        return None;
    }
    let AttributeRead { name, end } = read_attribute(text, begins)?;
    Some(NextInTag::Attribute { begins, name, end })
}
