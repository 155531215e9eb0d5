// Kinds, written to the lent list where it has room.
ghost use Rattle.std.specs.Prelude.{◌≡◌, cond, ◌+◌, ◌<◌, ◌^◌, set};

use store_types::TEXT;

// One kind; how many there are with it.
pub fn put_kind(kinds: &mut [u8], count: usize, kind: u8) -> usize
    requires { count + 1 < 2 ^ 64 }
    ensures count { result ≡ count + 1 }
    ensures list { kinds.new ≡ set kinds.old count kind }
{
    if count < kinds.len() {
        kinds[count] = kind;
    }
    count + 1
}

// The kind of a text where one begins.
pub fn put_text(kinds: &mut [u8], count: usize, in_text: bool) -> usize
    requires { count + 1 < 2 ^ 64 }
    ensures count { result ≡ cond in_text count (count + 1) }
    ensures list { kinds.new ≡ cond in_text kinds.old (set kinds.old count 3) }
{
    if in_text {
        return count;
    }
    put_kind(kinds, count, TEXT)
}
