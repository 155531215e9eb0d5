// The nodes of a load, place by place: where the next of each height begins, and the label of a place, a gap further for each node
// that begins there.
#![tactic(auto)]

ghost use Rattle.std.specs.Prelude.{◌≡◌, ◌<◌, ◌≤◌};
ghost use Rattle.store_types.specs.Limits.{most_tags, label_limit};
ghost use Rattle.powers.specs.Tables.{entry_limit, table_length, table_top};
ghost use Rattle.load_model.specs.Begins.{next_begin, begun, FirstBegins};
ghost use Rattle.load_nodes.specs.Gaps.{EntriesFit, WidthsRise, GapsOf};

use shape::TABLE_LENGTH;

// Behind a node over `each` leaves at place i of n, where the next of its height begins: n where the last takes all that remain.
fn next_begin(i: u64, n: u64, each: u64) -> u64
    requires { (i ≤ most_tags) × (each ≤ entry_limit) }
    ensures { result ≡ next_begin i n each }
{
    if i + 2 * each <= n { i + each } else { n }
}

// The same behind the first node of each of so many heights.
pub fn first_begins(n: u64, under: usize, lows: &[u64; TABLE_LENGTH]) -> [u64; TABLE_LENGTH]
    requires { (under ≤ table_top) × EntriesFit lows.now }
    ensures { FirstBegins n under lows.now result }
{
    let mut begins = [n; TABLE_LENGTH];
    for j in 0..under {
        begins[j] = next_begin(0, n, lows[j]);
    }
    begins
}

// The gaps before the nodes of each of so many heights: how much further a node begins than one more leaf of the node before it
// would.
pub fn gaps(r: u64, under: usize, widths: &[u64; TABLE_LENGTH]) -> [u64; TABLE_LENGTH]
    requires { WidthsRise r under widths.now }
    ensures { GapsOf r under widths.now result }
{
    let mut gaps = [0u64; TABLE_LENGTH];
    for h in 0..under {
        gaps[h] = widths[h + 1] - r * widths[h];
    }
    gaps
}

// The label of place i, a gap further for each node that begins there; behind them the next ones.
pub fn begin_nodes(
    i: u64,
    n: u64,
    label: u64,
    gaps: &[u64; TABLE_LENGTH],
    lows: &[u64; TABLE_LENGTH],
    begins: &mut [u64; TABLE_LENGTH],
) -> u64
    requires { (i ≤ most_tags) × (label < label_limit) × EntriesFit gaps.now × EntriesFit lows.now }
    ensures label { result ≡ (begun table_length 0 gaps.now lows.now n i label begins.old).label }
    ensures begins { begins.new ≡ (begun table_length 0 gaps.now lows.now n i label begins.old).begins }
{
    let mut at = label;
    for j in 0..TABLE_LENGTH {
        if begins[j] != i {
            return at;
        }
        at = shape::sum(at, gaps[j]);
        begins[j] = next_begin(i, n, lows[j]);
    }
    at
}
