// A line in hand at the front of lent bytes, for a caller that has bytes of its own.
ghost use Rattle.std.specs.Prelude.{◌≡◌, min, length, take, drop};
ghost use Rattle.line_reader.specs.Gather.{Gathers};

// The place where a stretch without a line feed ends, and how many bytes of the line are then in hand.
#[derive(Clone, Copy)]
pub struct Gathered {
    pub at: usize,
    pub held: usize,
}

// The number, or the length of the bytes where that is less.
pub fn within(held: usize, line: &[u8]) -> usize
    ensures { result ≡ min held (length line.now) }
{
    held.min(line.len())
}

// What a piece has from a place on: nothing after its end.
fn rest(piece: &[u8], from: usize) -> &[u8]
    ensures { result.now ≡ drop from piece.now }
{
    &piece[within(from, piece)..]
}

// The bytes of a piece from a place on, up to a line feed or to its end, go after those in hand, as many as there is room for.
// Where that stretch ends, and how many bytes are then in hand.
pub fn gather(piece: &[u8], from: usize, line: &mut [u8], held: usize) -> Gathered
    ensures { Gathers (take held line.old) (drop from piece.now) from line.new result.at result.held }
{
    let left = rest(piece, from);
    let taken = crate::stretch(left);
    let begun = within(held, line);
    let kept = taken.min(line.len() - begun);
    let end = begun + kept;
    line[begun..end].copy_from_slice(&left[..kept]);
    Gathered {
        at: from + taken,
        held: end,
    }
}
