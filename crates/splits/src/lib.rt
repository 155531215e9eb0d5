// The splits of an insertion: the highest ancestor of a place that comes to its limit, the tag left of a node, and how many tags go
// in with splits; by these a row of trees is cut up around the cursor's.
#![tactic(auto)]

ghost use Rattle.std.specs.Prelude.{◌≡◌, cond, not, ◌||◌, ◌+◌, ◌≤◌, leb, ltb};
ghost use Rattle.powers.specs.Tables.{table_under};
ghost use Rattle.store_types.specs.Layout.{label_at, Records};
ghost use Rattle.shape.specs.Packed.{highs_in, s_in, r_in};
ghost use Rattle.tree.specs.Grown.{in_splits as splits_of};
ghost use Rattle.edit_model.specs.Relabel.{issued};
ghost use Rattle.edit_model.specs.Split.{highest_full, left_border};
ghost use Rattle.splits.specs.Needs.{BorderIs, SplitsFit, PathFit, PartsAre};

use shape::{TABLE_LENGTH, Tables};
use store_types::TagId;

// Whether x is a tag of n with a label of at least low.
fn at_least(words: &[u32], n: u32, x: TagId, low: u64) -> bool
    requires { Records words.now n }
    ensures { result ≡ not (leb n x.0 || ltb (label_at words.now x.0) low) }
{
    x.0 < n && low <= (words::label_of(words, x).0 as u64)
}

// The tag left of a node, and how many of the node's tags stand up to a place.
#[derive(Clone, Copy)]
pub struct Border {
    pub tag: TagId,
    pub steps: u32,
}

// Left of the leaves whose labels are at least low, from x on along prior.
pub fn left_border(words: &[u32], low: u64, x: TagId) -> Border
    requires { Records words.now (issued words.now) }
    ensures { BorderIs result (left_border (issued words.now) (issued words.now) words.now low x.0) }
{
    let n = words::count_of(words);
    let mut tag = x;
    for steps in 0..n {
        if !at_least(words, n, tag, low) {
            return Border { tag, steps };
        }
        tag = words::prior_of(words, tag);
    }
    Border { tag, steps: n }
}

// Whether a node of a size comes to its limit with k leaves more.
fn is_full(limit: u64, size: u32, k: u32) -> bool
    ensures { result ≡ leb limit (size + k) }
{
    limit <= size as u64 + k as u64
}

// Of two heights the higher one, where its node is full.
fn higher(lower: usize, here: usize, full: bool) -> usize
    ensures { result ≡ cond full here lower }
{
    if full { here } else { lower }
}

// The height of the highest ancestor below the root that comes to its limit with k leaves more, by the sizes of the
// ancestors; 0 if none does.
pub fn highest_full(k: u32, under: usize, tables: &Tables, sizes: &[u32; TABLE_LENGTH]) -> usize
    requires { under ≤ table_under }
    ensures { result ≡ highest_full (highs_in tables.now) sizes.now k under 1 0 }
{
    let mut found: usize = 0;
    for h in 1..=under {
        found = higher(found, h, is_full(tables.highs[h], sizes[h], k));
    }
    found
}

// Of so many tags behind a cursor in complete trees of height j, those that go in with splits at that height. A split takes as many
// as a node's limit is above its least leaves.
pub fn in_splits(rest: u64, j: usize, tables: &Tables) -> u64
    requires { SplitsFit j tables.now }
    ensures { result ≡ splits_of (s_in tables.now) (r_in tables.now) j rest }
{
    let each = tables.highs[j] - tables.lows[j];
    rest / each * each
}

// A row of trees by the cursor's: how many trees stand left of it and over how many leaves, its own leaves, those behind it, and the
// cursor in it, one height lower.
#[derive(Clone, Copy)]
pub struct PathParts {
    pub trees: u64,
    pub before: u64,
    pub own: u64,
    pub after: u64,
    pub at: u64,
    pub rest: u64,
}

pub fn path_parts(j: usize, count: u64, at: u64, rest: u64, tables: &Tables) -> PathParts
    requires { (1 ≤ j) × PathFit j count at rest tables.now }
    ensures { PartsAre (s_in tables.now) (r_in tables.now) j count at rest result }
{
    let each = tables.lows[j];
    let trees = (at - 1) / each;
    let before = trees * each;
    let own = each + rest;
    let split = in_splits(rest, j - 1, tables);
    PathParts {
        trees,
        before,
        own,
        after: count - before - own,
        at: at - before + split,
        rest: rest - split,
    }
}
