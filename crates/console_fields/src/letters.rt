// Kinds of a load: a field of the letters B, E, T.
ghost use Rattle.std.specs.Prelude.{◌≡◌, cond, ◌≤◌, length, Some, None};
ghost use Rattle.console_fields.specs.Field.{is_letter, letter_kind};
ghost use Rattle.console_fields.specs.Post.{Lettered};

use store_types::{BEGIN, END, TEXT};

// A letter's kind, and none for any other byte.
#[tactic(auto, unfolding(crate::specs::Field::is_letter, crate::specs::Field::letter_kind))]
fn kind_of(c: u8) -> Option<u8>
    ensures { result ≡ cond (is_letter c) (Some (letter_kind c)) None }
{
    match c {
        b'B' => Some(BEGIN),
        b'E' => Some(END),
        b'T' => Some(TEXT),
        _ => None,
    }
}

// Whether a field is of letters only; where it is, their kinds go to the front of `kinds`.
#[tactic(auto, using(crate::proofs::LetterKinds::letter_steps))]
pub fn letters(field: &[u8], kinds: &mut [u8]) -> bool
    requires { length field.now ≤ length kinds.old }
    ensures { Lettered field.now kinds.new result }
{
    for (i, c) in field.iter().enumerate() {
        let Some(kind) = kind_of(*c) else {
            return false;
        };
        kinds[i] = kind;
    }
    true
}
