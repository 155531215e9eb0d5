// Lines: the fields of one, and the command that they say.
ghost use Rattle.std.specs.Prelude.{◌≡◌, [], ◌∷◌, ◌≤◌, length};
ghost use Rattle.console.specs.Line.{parsed, fields, command_of, number_or_front, load_word};
ghost use Rattle.console.specs.Post.{Gives};

use crate::{Command, LINE_LIMIT};
use console_fields::letters::letters;
use console_fields::{read_number, split_field};
use store_types::{BEGIN, TEXT, TagId};

// A number, or `front`, which is no tag; none for any other field.
#[tactic(auto, using(crate::proofs::Words::place_cases))]
fn read_place(field: &[u8]) -> Option<u32>
    ensures { result ≡ number_or_front field.now }
{
    if field == b"front".as_slice() {
        let none = TagId::NONE;
        return Some(none.0);
    }
    read_number(field)
}

// The command of a line of one field.
#[tactic(auto, using(crate::proofs::Words::one_cases))]
fn one_field(word: &[u8]) -> Option<Command>
    ensures { result ≡ (command_of (word.now ∷ [])).command }
{
    if word == b"list".as_slice() {
        return Some(Command::List);
    }
    None
}

// The command of a line of two fields.
#[tactic(auto, using(crate::proofs::Words::two_cases))]
fn two_fields(word: &[u8], field: &[u8]) -> Option<Command>
    ensures { result ≡ (command_of (word.now ∷ field.now ∷ [])).command }
{
    let place = TagId(read_place(field)?);
    if word == b"element".as_slice() {
        return Some(Command::Insert { kind: BEGIN, place });
    }
    if word == b"text".as_slice() {
        return Some(Command::Insert { kind: TEXT, place });
    }
    if word == b"mark".as_slice() {
        return Some(Command::Mark(place));
    }
    None
}

// What stands after `load` and its space: three numbers, and letters that may be absent, their space too. Letters hold no
// space, so that a further field is refused as no letter is.
fn load(rest: &[u8], kinds: &mut [u8]) -> Option<Command>
    requires { length rest.now ≤ length kinds.old }
    ensures { Gives (command_of (load_word ∷ fields rest.now)) result kinds.new }
{
    let (s, rest) = split_field(rest);
    let (r, rest) = split_field(rest?);
    let (book, rest) = split_field(rest?);
    let s = read_number(s)?;
    let r = read_number(r)?;
    let book = read_number(book)?;
    let field = rest.unwrap_or(&[]);
    if !letters(field, kinds) {
        return None;
    }
    Some(Command::Load {
        s,
        r,
        book,
        kinds: field.len(),
    })
}

// The command of a line without its line feed; none where it asks for nothing. A load's kinds go to the front of `kinds`.
pub fn parse(line: &[u8], kinds: &mut [u8; LINE_LIMIT]) -> Option<Command>
    ensures { Gives (parsed line.now) result kinds.new }
{
    if LINE_LIMIT < line.len() {
        return None;
    }
    let (word, rest) = split_field(line);
    let Some(rest) = rest else {
        return one_field(word);
    };
    if word == b"load".as_slice() {
        return load(rest, kinds);
    }
    let (field, more) = split_field(rest);
    match more {
        None => two_fields(word, field),
        Some(_) => None,
    }
}
