// Lines put together from pieces of input of any length (document 01, "The book program"). What a line has beyond the room for
// it is let go: where there is more room than a line may have bytes, such a line stays too long, and is not taken for a shorter
// one.
#![tactic(auto)]

ghost use Rattle.std.specs.Prelude.{◌≡◌, ◌≤◌, length, take};
ghost use Rattle.line_reader.specs.Gather.{stretch};
ghost use Rattle.line_reader.specs.Reads.{in_hand};

use byte_list::ByteList;

pub mod lent;

// How many bytes of a piece stand before a line feed, or before its end.
fn stretch(piece: &[u8]) -> usize
    ensures taken { result ≡ length (stretch piece.now) }
    ensures front { take result piece.now ≡ stretch piece.now }
    ensures fits { result ≤ length piece.now }
{
    let end = piece.iter().position(|c| *c == b'\n');
    end.unwrap_or(piece.len())
}

// The bytes of a piece up to a line feed, or to its end, go after those in hand. How many they are.
pub fn gather<const N: usize>(piece: &[u8], line: &mut ByteList<N>) -> usize
    ensures taken { result ≡ length (stretch piece.now) }
    ensures gathered { line.new ≡ in_hand N line.old piece.now }
{
    let taken = stretch(piece);
    line.keep(&piece[..taken]);
    taken
}
