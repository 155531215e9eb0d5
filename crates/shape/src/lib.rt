// The shape of a store, s, r and H: the tables by height that they give, and the limits of the header and of the root
// (document 01, "The book in words", "The tree").
#![tactic(auto)]

ghost use Rattle.std.specs.Prelude.{◌≡◌, ◌+◌, ◌*◌, ◌-◌, ◌^◌, ◌≤◌, ◌<◌};
ghost use Rattle.powers.specs.Tables.{TableFits, entry_limit, table as power_table};
ghost use Rattle.shape.specs.Tables.{widths_of};
ghost use Rattle.shape.specs.Sums.{cut as label_part};
ghost use Rattle.shape.specs.Packed.{Packed};
ghost use Rattle.calls.specs.Store.{power_fits};
ghost use Rattle.shape.specs.Needs.{RootFits, WidthsFit, SearchFits, LeastRoom, TablesFit, frame_passes, root_passes, degree_fits};

pub use powers::TABLE_LENGTH;

// Four tables by height: the width of a node, its least leaves, its limit, and the number of a place's ancestor.
#[derive(Clone, Copy)]
pub struct Tables {
    pub widths: [u64; TABLE_LENGTH],
    pub lows: [u64; TABLE_LENGTH],
    pub highs: [u64; TABLE_LENGTH],
    pub numbers: [u64; TABLE_LENGTH],
}

impl Tables {
    // Of no header and no place: what others are written over.
    pub const EMPTY: Tables = Tables {
        widths: [0; TABLE_LENGTH],
        lows: [0; TABLE_LENGTH],
        highs: [0; TABLE_LENGTH],
        numbers: [0; TABLE_LENGTH],
    };
}

// No sound store is higher: its tags would be more than 200,000.
pub const MOST_LEVELS: u32 = 17;

// Document 01: s and r are each from 2 to 16.
const LEAST_DEGREE: u32 = 2;

const MOST_DEGREE: u32 = 16;

// Powers by height, from v on: entries 0 to top.
pub fn table(v: u64, b: u64, top: usize) -> [u64; TABLE_LENGTH]
    requires { TableFits v b top }
    ensures { result ≡ power_table v b top }
{
    let mut t = [0u64; TABLE_LENGTH];
    powers::fill(&mut t, None, v, b, top);
    t
}

// The widths that a header gives: the powers of b, one less than f, from a table where s and r have one.
pub fn widths(words: &[u32]) -> [u64; TABLE_LENGTH]
    requires { WidthsFit words.now }
    ensures { result ≡ widths_of words.now }
{
    let s = words[words::AT_S];
    let r = words[words::AT_R];
    let top = words[words::AT_HEIGHT] as usize;
    let b = (s as u64) * (r as u64) - 1;
    let mut t = [0u64; TABLE_LENGTH];
    powers::fill(&mut t, powers::degree(s, r), 1, b, top);
    t
}

// A number by what a label holds of it: all, in a sound store.
pub fn cut(number: u64) -> u64
    ensures { result ≡ label_part number }
{
    number % store_types::LABEL_LIMIT
}

// A label or the number of a node with a width added.
pub fn sum(label: u64, width: u64) -> u64
    requires { (label ≤ entry_limit) × (width ≤ entry_limit) }
    ensures { result ≡ label_part (label + width) }
{
    cut(label + width)
}

// How far so many nodes of a width reach.
pub fn times(count: u64, width: u64) -> u64
    requires { count * width < 2 ^ 64 }
    ensures { result ≡ label_part (count * width) }
{
    cut(count * width)
}

// Whether labels of a tree of height h fit: b^h is at most 2^32.
pub fn height_fits(s: u32, r: u32, h: u32) -> bool
    requires { (4 ≤ s * r) × (s * r ≤ 256) }
    ensures { result ≡ power_fits s r h }
{
    if let Some(known) = powers::heights(s, r) {
        return (h as usize) < known;
    }
    let b = (s as u64) * (r as u64) - 1;
    let mut p: u64 = 1;
    for _ in 0..h {
        p *= b;
        if store_types::LABEL_LIMIT < p {
            return false;
        }
    }
    true
}

// The least height from h on whose root has room for n tags: `limit` is that of height h, and each height has r times the one below.
pub fn height_for(n: u64, limit: u64, r: u64, h: u32) -> u32
    requires { SearchFits n limit r h }
    ensures { LeastRoom n limit r h result }
{
    let mut top = h;
    let mut most = limit;
    while most <= n {
        most = most * r;
        top += 1;
    }
    top
}

// The three tables of s and r up to a height, and no numbers.
pub fn tables_for(s: u32, r: u32, top: usize) -> Tables
    requires { TablesFit s r top }
    ensures { Packed result (power_table 1 (s * r - 1) top) (power_table 1 r top) (power_table s r top) }
{
    let b = (s as u64) * (r as u64) - 1;
    let mut widths = [0u64; TABLE_LENGTH];
    powers::fill(&mut widths, powers::degree(s, r), 1, b, top);
    let lows = table(1, r as u64, top);
    let highs = table(s as u64, r as u64, top);
    Tables {
        widths,
        lows,
        highs,
        numbers: [0; TABLE_LENGTH],
    }
}

// Whether a degree, s or r, is in its range.
pub fn degree_fits(d: u32) -> bool
    ensures { result ≡ degree_fits d }
{
    LEAST_DEGREE <= d && d <= MOST_DEGREE
}

// The header by itself: enough words, every number in its range, labels fit.
pub fn frame_passes(words: &[u32]) -> bool
    ensures { result ≡ frame_passes words.now }
{
    if words.len() < words::HEADER_WORDS {
        return false;
    }
    if words[words::AT_VERSION] != words::VERSION {
        return false;
    }
    let s = words[words::AT_S];
    if !degree_fits(s) {
        return false;
    }
    let r = words[words::AT_R];
    if !degree_fits(r) {
        return false;
    }
    let h = words[words::AT_HEIGHT];
    if h < 1 {
        return false;
    }
    if MOST_LEVELS < h {
        return false;
    }
    let n = words[words::AT_COUNT];
    if store_types::MOST_TAGS < n {
        return false;
    }
    if words.len() < words::words_for(n as usize) {
        return false;
    }
    height_fits(s, r, h)
}

// The root's limits.
pub fn root_passes(
    n: u32,
    h: usize,
    lows: &[u64; TABLE_LENGTH],
    highs: &[u64; TABLE_LENGTH],
) -> bool
    requires { RootFits h lows.now }
    ensures { result ≡ root_passes n h lows.now highs.now }
{
    let count = n as u64;
    if highs[h] <= count {
        return false;
    }
    h == 1 || 2 * lows[h - 1] <= count
}
