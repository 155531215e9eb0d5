// A set of tag numbers, one bit each: 25,000 bytes for 200,000 numbers.
#![tactic(auto)]

ghost use Rattle.std.specs.Prelude.{◌≡◌, List, ◌∷◌, ℕ, ◌<◌};
ghost use Rattle.store_types.specs.Limits.{most_tags};
ghost use Rattle.tree.specs.Row.{member};
ghost use Rattle.number_set.specs.Bits.{Holds};

// Words for 200,000 numbers, and bits in a word.
pub const SET_WORDS: usize = 6250;

const WORD_BITS: u32 = 32;

pub fn contains(bits: &[u32; SET_WORDS], x: u32) -> bool
    requires { x < most_tags }
    ensures { (xs : List ℕ) → Holds bits.now xs → result ≡ member x xs }
{
    (bits[(x / WORD_BITS) as usize] >> (x % WORD_BITS)) % 2 != 0
}

pub fn add(bits: &mut [u32; SET_WORDS], x: u32)
    requires { x < most_tags }
    ensures { (xs : List ℕ) → Holds bits.old xs → Holds bits.new (x ∷ xs) }
{
    let i = (x / WORD_BITS) as usize;
    bits[i] = bits[i] | (1 << (x % WORD_BITS));
}
