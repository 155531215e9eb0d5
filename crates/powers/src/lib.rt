// Tables by height. Powers of b = s·r − 1 stand in tables, for the pairs of s and r that most books use (document 02, CR 2). A table has all
// that are at most LABEL_LIMIT, so its length says how many heights fit.
#![tactic(auto)]

ghost use Rattle.std.specs.Prelude.{◌≡◌, cond, ℕ, ◌*◌, ◌≤◌, ltb, length, get_or, replicate, IfSome};
ghost use Rattle.calls.specs.Store.{power_fits};
ghost use Rattle.powers.specs.Tables.{TableFits, OfDegree, Known, shared_degree, entry_limit, table_length, powers as powers_of, table as power_table};

// Every table by height has so many entries.
pub const TABLE_LENGTH: usize = 24;

// For (2, 2).
static OF_3: [u32; 21] = [
    1, 3, 9, 27, 81, 243, 729, 2187, 6561, 19683, 59049, 177147, 531441, 1594323, 4782969,
    14348907, 43046721, 129140163, 387420489, 1162261467, 3486784401,
];

// For (4, 4).
static OF_15: [u32; 9] = [
    1, 15, 225, 3375, 50625, 759375, 11390625, 170859375, 2562890625,
];

// For (16, 16).
static OF_255: [u32; 5] = [1, 255, 65025, 16581375, 4228250625];

// The degree that s and r both are, none where they differ. It picks the table, and not the base, since (2, 8) has the base of
// (4, 4) and no table.
pub fn degree(s: u32, r: u32) -> Option<u32>
    ensures { result ≡ shared_degree s r }
{
    if s == r {
        return Some(s);
    }
    None
}

// The powers that stand in a degree's table, and no power where it has none.
fn known(degree: Option<u32>) -> &'static [u32]
    ensures { Known degree result.now }
{
    match degree {
        Some(2) => &OF_3,
        Some(4) => &OF_15,
        Some(16) => &OF_255,
        _ => &[],
    }
}

// How many heights fit, with a pair that has a table; none with any other, of which this is to be worked out.
pub fn heights(s: u32, r: u32) -> Option<usize>
    ensures { IfSome result (λ n. (h : ℕ) → ltb h n ≡ power_fits s r h) }
{
    let powers = known(degree(s, r));
    if powers.is_empty() {
        return None;
    }
    Some(powers.len())
}

// The power of a height: the lent one or, where these have ended, b times the power below.
fn power(powers: &[u32], h: usize, below: u64, b: u64) -> u64
    requires { below * b ≤ entry_limit }
    ensures { result ≡ cond (ltb h (length powers.now)) (get_or powers.now h 0) (below * b) }
{
    if h < powers.len() {
        return powers[h] as u64;
    }
    below * b
}

// Writes powers by height, from v on: entries 0 to top, the lent ones as far as these go.
fn fill_from(t: &mut [u64; TABLE_LENGTH], v: u64, b: u64, powers: &[u32], top: usize)
    requires { TableFits v b top × (powers.now ≡ powers_of v b (length powers.now)) × (t.old ≡ replicate table_length 0) }
    ensures { t.new ≡ power_table v b top }
{
    t[0] = v;
    for h in 0..top {
        let p = power(powers, h + 1, t[h], b);
        t[h + 1] = p;
    }
}

// Writes powers by height, from v on: entries 0 to top. With a degree they are those of a pair's base, and come from its table
// where there is one; with none they are worked out. The table is lent and not returned, because each return of an array copies it.
pub fn fill(t: &mut [u64; TABLE_LENGTH], degree: Option<u32>, v: u64, b: u64, top: usize)
    requires { TableFits v b top × OfDegree degree v b × (t.old ≡ replicate table_length 0) }
    ensures { t.new ≡ power_table v b top }
{
    fill_from(t, v, b, known(degree), top);
}
