// Numbers in bytes, low byte first (document 02, CR 3: "all little-endian"), at a place among others. The compiler makes one load or
// store of the bytes.
#![tactic(auto)]

ghost use Rattle.std.specs.Prelude.{◌≡◌, ◌+◌, ◌*◌, ◌≤◌, length, drop};
ghost use mathlib.Core.List.{flat_map};
ghost use Rattle.std.proofs.lemmas.List.Edits.{sets};
ghost use Rattle.little_endian.specs.Numbers.{low_first, number_in};

const WORD_BYTES: usize = 4;

// The number that two bytes are from a place on.
pub fn u16_at(bytes: &[u8], at: usize) -> u16
    requires { at + 2 ≤ length bytes.now }
    ensures { result ≡ number_in 2 (drop at bytes.now) }
{
    u16::from_le_bytes([bytes[at], bytes[at + 1]])
}

// And four.
pub fn u32_at(bytes: &[u8], at: usize) -> u32
    requires { at + 4 ≤ length bytes.now }
    ensures { result ≡ number_in 4 (drop at bytes.now) }
{
    u32::from_le_bytes([bytes[at], bytes[at + 1], bytes[at + 2], bytes[at + 3]])
}

// A number as two bytes from a place on.
pub fn put_u16(bytes: &mut [u8], at: usize, v: u16)
    requires { at + 2 ≤ length bytes.old }
    ensures { bytes.new ≡ sets bytes.old at (low_first 2 v) }
{
    bytes[at..at + 2].copy_from_slice(&v.to_le_bytes());
}

// And as four.
pub fn put_u32(bytes: &mut [u8], at: usize, v: u32)
    requires { at + 4 ≤ length bytes.old }
    ensures { bytes.new ≡ sets bytes.old at (low_first 4 v) }
{
    bytes[at..at + 4].copy_from_slice(&v.to_le_bytes());
}

// Words one after the other, each as four bytes.
pub fn put_words(bytes: &mut [u8], at: usize, words: &[u32])
    requires { at + 4 * length words.now ≤ length bytes.old }
    ensures { bytes.new ≡ sets bytes.old at (flat_map (low_first 4) words.now) }
{
    for (i, word) in words.iter().enumerate() {
        put_u32(bytes, at + WORD_BYTES * i, *word);
    }
}
