// Labels written anew (document 01, "The tree"): trees numbered from their top.
#![tactic(auto)]

ghost use Rattle.std.specs.Prelude.{◌≡◌, ◌≤◌};
ghost use Rattle.shape.specs.Packed.{widths_in, r_in};
ghost use Rattle.relabel.specs.Needs.{RowThere, RowNumbered};
ghost use Rattle.splits.specs.Needs.{PathFit};
ghost use Rattle.renumber.specs.Needs.{TreesFit, PartSize, NumbersFit, trees_numbered, path_numbered};

use relabel::{Numbered, number_leaves};
use shape::Tables;
use splits::path_parts;
use store_types::TagId;

// How many tags the next of some parts takes: the last one takes all that remain.
fn part_size(parts: u64, each: u64, left: u64) -> u64
    requires { 1 ≤ each }
    ensures { PartSize parts each left result }
{
    if parts == 1 { left } else { each }
}

// The trees of height j over a row, each numbered from its top: one height lower at each call, down to the leaves.
pub fn number(
    words: &mut [u32],
    j: usize,
    a: u64,
    x: TagId,
    count: u64,
    tables: &Tables,
) -> Numbered
    requires { RowThere words.old x.0 count × TreesFit j a count tables.now }
    ensures { RowNumbered words.old words.new (trees_numbered words.old (widths_in tables.now) (r_in tables.now) j a x.0 count) x.0 count result.next.0 result.moved }
{
    if j == 0 {
        return number_leaves(words, a, x, count, tables.widths[0]);
    }
    let below = j - 1;
    let width = tables.widths[j];
    let each = tables.lows[j];
    let parts = count / each;
    let mut at = a;
    let mut tag = x;
    let mut left = count;
    let mut moved: u32 = 0;
    for done in 0..parts {
        let size = part_size(parts - done, each, left);
        let q = number(words, below, at, tag, size, tables);
        moved += q.moved;
        tag = q.next;
        at = shape::sum(at, width);
        left -= size;
    }
    Numbered { next: tag, moved }
}

// Where the tag put in last stands, from 1 on, among the leaves of complete trees, and how many tags stand behind it that are not
// of these: its tree has them besides.
#[derive(Clone, Copy)]
pub struct Cursor {
    pub at: u64,
    pub rest: u64,
}

// The trees of height j over a row, complete but for the cursor's: that one is numbered the same way one height lower, down to the
// leaves, and those on its two sides from their tops.
pub fn number_path(
    words: &mut [u32],
    j: usize,
    a: u64,
    x: TagId,
    count: u64,
    cursor: Cursor,
    tables: &Tables,
) -> Numbered
    requires { RowThere words.old x.0 count × PathFit j count cursor.at cursor.rest tables.now × NumbersFit j a tables.now }
    ensures { RowNumbered words.old words.new (path_numbered words.old tables.now j cursor.at cursor.rest a x.0 count) x.0 count result.next.0 result.moved }
{
    if j == 0 {
        return number_leaves(words, a, x, count, tables.widths[0]);
    }
    let width = tables.widths[j];
    let parts = path_parts(j, count, cursor.at, cursor.rest, tables);
    let at = shape::sum(a, shape::times(parts.trees, width));
    let left = number(words, j, a, x, parts.before, tables);
    let own = left.next;
    let inner = Cursor {
        at: parts.at,
        rest: parts.rest,
    };
    let mine = number_path(words, j - 1, at, own, parts.own, inner, tables);
    let behind = mine.next;
    let right = number(words, j, shape::sum(at, width), behind, parts.after, tables);
    let next = right.next;
    Numbered {
        next,
        moved: left.moved + mine.moved + right.moved,
    }
}
