// Labels in one pass: for each height where the open node ends, at which place it began, and the size of the watched node.
#![tactic(auto)]

pub mod ancestors;

ghost use Rattle.std.specs.Prelude.{◌≡◌, true, cond, ◌+◌, ◌-◌, ◌≤◌, ◌<◌, eqb, get_or};
ghost use Rattle.walk_model.specs.Watch.{settle_sizes, close_sizes};
ghost use Rattle.powers.specs.Tables.{entry_limit, table_length};
ghost use Rattle.shape.specs.Packed.{widths_in, lows_in, highs_in, numbers_in};
ghost use Rattle.shape.specs.Sums.{cut};
ghost use Rattle.walk_levels.specs.Needs.{LevelsFit, TablesFit, levels_of, first_levels, closes_from, settle_from, close_from, expected_label};

use shape::{TABLE_LENGTH, Tables};
use store_types::Label;

// Where a node of a height ends that begins at a number.
fn end_at(begin: u64, h: usize, tables: &Tables) -> u64
    requires { (h < table_length) × (begin ≤ entry_limit) × (get_or (widths_in tables.now) h 0 ≤ entry_limit) }
    ensures { result ≡ cut (begin + get_or (widths_in tables.now) h 0) }
{
    shape::sum(begin, tables.widths[h])
}

// Where the watched node of a height ends.
fn watched_end(tables: &Tables, h: usize) -> u64
    requires { (h < table_length) × TablesFit h tables.now }
    ensures { result ≡ cut (get_or (numbers_in tables.now) h 0 + get_or (widths_in tables.now) h 0) }
{
    end_at(tables.numbers[h], h, tables)
}

// Whether a node of height h whose first leaf is at place first is within its limits where the next leaf is at place.
fn closes(first: u32, place: u32, h: usize, tables: &Tables) -> bool
    requires { LevelsFit h (widths_in tables.now) (lows_in tables.now) (highs_in tables.now) }
    ensures { result ≡ closes_from (lows_in tables.now) (highs_in tables.now) h first place }
{
    let f = first as u64;
    let i = place as u64;
    f + tables.lows[h] <= i && i < f + tables.highs[h]
}

// The size that stands behind a node which closes before place: its own where it ends as the watched one does, so that
// the loops store it in any case and have no test that is hard to foresee.
fn watched(end: u64, watch: u64, first: u32, place: u32, size: u32) -> u32
    requires { first ≤ place }
    ensures { result ≡ cond (eqb end watch) (place - first) size }
{
    if end == watch { place - first } else { size }
}

// The open nodes by height: for each height where the open node ends, and at which place it began.
#[derive(Drop)]
pub struct Levels {
    pub ends: [u64; TABLE_LENGTH],
    pub firsts: [u32; TABLE_LENGTH],
}

impl Levels {
    // Before the first leaf: every node begins at the number 0, and has no leaf yet.
    pub fn new(widths: &[u64; TABLE_LENGTH]) -> Levels
        ensures { result ≡ first_levels widths.now }
    {
        Levels {
            ends: *widths,
            firsts: [0; TABLE_LENGTH],
        }
    }

    // Closes the open nodes that end at or before a label, and opens new ones; false where one is outside its limits.
    pub fn settle(
        &mut self,
        label: Label,
        place: u32,
        under: usize,
        tables: &Tables,
        sizes: &mut [u32; TABLE_LENGTH],
    ) -> bool
        requires { TablesFit under tables.now }
        ensures ok { result ≡ (settle_from tables.now under label.0 place self.old).ok }
        ensures left { levels_of self.new ≡ (settle_from tables.now under label.0 place self.old).levels }
        ensures sizes { result ≡ true → sizes.new ≡ settle_sizes (widths_in tables.now) (numbers_in tables.now) under 1 label.0 place (levels_of self.old) sizes.old }
    {
        let l = label.0 as u64;
        let mut exact = false;
        for h in 1..under + 1 {
            let end = self.ends[h];
            if l < end {
                return exact;
            }
            if !closes(self.firsts[h], place, h, tables) {
                return false;
            }
            sizes[h] = watched(end, watched_end(tables, h), self.firsts[h], place, sizes[h]);
            exact = end == l;
            self.ends[h] = end_at(l, h, tables);
            self.firsts[h] = place;
        }
        exact && l < self.ends[under + 1]
    }

    // At the end: every open node below the root is within its limits.
    pub fn all_close(
        &self,
        place: u32,
        under: usize,
        tables: &Tables,
        sizes: &mut [u32; TABLE_LENGTH],
    ) -> bool
        requires { TablesFit under tables.now }
        ensures ok { result ≡ close_from (lows_in tables.now) (highs_in tables.now) under place self.now }
        ensures sizes { result ≡ true → sizes.new ≡ close_sizes (widths_in tables.now) (numbers_in tables.now) under 1 place (levels_of self.now) sizes.old }
    {
        for h in 1..under + 1 {
            if !closes(self.firsts[h], place, h, tables) {
                return false;
            }
            let watch = watched_end(tables, h);
            sizes[h] = watched(self.ends[h], watch, self.firsts[h], place, sizes[h]);
        }
        true
    }
}

// The label to come behind a label, in the open node of height 1: a number that no label is where that node ends there, so that
// one test finds the next child.
pub fn expected(label: Label, end: u64) -> u64
    ensures { result ≡ expected_label (cut (label.0 + 1)) end }
{
    let next = shape::sum(label.0 as u64, 1);
    if next == end {
        store_types::LABEL_LIMIT
    } else {
        next
    }
}
