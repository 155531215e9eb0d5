// The five classes of a byte (document 02, CR 1), by a table of 256 entries, which is tested whole against the standard's rules for
// ASCII.
#![tactic(auto)]

ghost use Rattle.std.specs.Prelude.{◌≡◌};
ghost use Rattle.xml.specs.Bytes.{class_of, is_char, is_space, is_name_start, is_name_char};
ghost use Rattle.xml_classes.specs.Classes.{is_usual};

use xml::Class::{self, Forbidden as F, NameOnly as P, NameStart as N, Other as O, Space as S};

static CLASSES: [Class; 256] = [
    F, // from 0
    F, F, F, F, F, F, F, F, S, // tab
    S, // line feed
    F, F, S, // carriage return
    F, F, F, F, F, F, F, F, F, F, F, F, F, F, F, F, F, F, S, // space
    O, // from !
    O, O, O, O, O, O, O, O, O, O, O, P, // -
    P, // .
    O, P, // from 0 to 9
    P, P, P, P, P, P, P, P, P, N, // :
    O, // from ;
    O, O, O, O, O, N, // from A to Z
    N, N, N, N, N, N, N, N, N, N, N, N, N, N, N, N, N, N, N, N, N, N, N, N, N, O, // from [
    O, O, O, N, // _
    O, N, // from a to z
    N, N, N, N, N, N, N, N, N, N, N, N, N, N, N, N, N, N, N, N, N, N, N, N, N, O, // from {
    O, O, O, O, // delete
    F, // from 128
    F, F, F, F, F, F, F, F, F, F, F, F, F, F, F, F, F, F, F, F, F, F, F, F, F, F, F, F, F, F, F, F,
    F, F, F, F, F, F, F, F, F, F, F, F, F, F, F, F, F, F, F, F, F, F, F, F, F, F, F, F, F, F, F, F,
    F, F, F, F, F, F, F, F, F, F, F, F, F, F, F, F, F, F, F, F, F, F, F, F, F, F, F, F, F, F, F, F,
    F, F, F, F, F, F, F, F, F, F, F, F, F, F, F, F, F, F, F, F, F, F, F, F, F, F, F, F, F, F, F,
];

pub fn class_of(b: u8) -> Class
    ensures { result ≡ class_of b }
{
    CLASSES[b as usize]
}

pub fn is_char(b: u8) -> bool
    ensures { result ≡ is_char b }
{
    class_of(b) != Class::Forbidden
}

pub fn is_space(b: u8) -> bool
    ensures { result ≡ is_space b }
{
    class_of(b) == Class::Space
}

pub fn is_name_start(b: u8) -> bool
    ensures { result ≡ is_name_start b }
{
    class_of(b) == Class::NameStart
}

pub fn is_name_char(b: u8) -> bool
    ensures { result ≡ is_name_char b }
{
    matches!(class_of(b), Class::NameStart | Class::NameOnly)
}

// A space or a byte of names: one of neither the last class nor the first, which the compiler makes one test of.
pub fn is_usual(b: u8) -> bool
    ensures { result ≡ is_usual b }
{
    let class = class_of(b);
    class != Class::Other && class != Class::Forbidden
}
