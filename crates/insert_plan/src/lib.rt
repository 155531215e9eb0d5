// What an insertion renumbers: planned on the words before it, then done.
#![tactic(auto)]

ghost use Rattle.std.specs.Prelude.{◌≡◌, pred, ◌+◌, ◌-◌, ◌≤◌};
ghost use Rattle.store_types.specs.Layout.{at_height, word_at};
ghost use Rattle.words.specs.Places.{PlaceThere};
ghost use Rattle.powers.specs.Tables.{entry_limit};
ghost use Rattle.shape.specs.Packed.{widths_in, highs_in, numbers_in, s_in, r_in};
ghost use Rattle.tree.specs.Grown.{in_node};
ghost use Rattle.edit_model.specs.Relabel.{issued};
ghost use Rattle.edit_model.specs.Split.{left_border};
ghost use Rattle.edit_model.specs.Insert.{plain_plan, split_plan, root_plan, applied};
ghost use Rattle.insert_plan.specs.Parts.{plan_record, border_record, next_label, inner_plan};
ghost use Rattle.insert_plan.specs.Needs.{PlainReads, NodeFits, SplitFits, RootReads, PlanReads, Applicable};

use renumber::Cursor;
use shape::{TABLE_LENGTH, Tables};
use splits::Border;
use store_types::TagId;

// From the tag behind `left` on, `count` tags as trees of a height from a number on, complete but for the cursor's, which has
// `rest` tags more behind the cursor; then the labels below a bound are shifted.
#[derive(Clone, Copy)]
pub struct Plan {
    pub height: usize,
    pub left: TagId,
    pub number: u64,
    pub count: u64,
    pub cursor: u64,
    pub rest: u64,
    pub bound: u64,
    pub by: u64,
}

// The new label behind a place.
fn next_label(words: &[u32], place: TagId, width: u64) -> u64
    requires { PlaceThere words.now place.0 × (width ≤ entry_limit) }
    ensures { result ≡ next_label words.now place.0 width }
{
    if place.is_none() {
        return 0;
    }
    shape::sum(words::label_of(words, place).0 as u64, width)
}

// No split: k tags right behind the place, and its right siblings are shifted; `parent` is the number of their parent.
fn plain_plan(words: &[u32], place: TagId, k: u64, parent: u64, tables: &Tables) -> Plan
    requires { PlainReads words.now place.0 k parent tables.now }
    ensures { plan_record result ≡ plain_plan words.now (widths_in tables.now) k (pred (word_at words.now at_height)) place.0 }
{
    let width = tables.widths[0];
    let number = next_label(words, place, width);
    Plan {
        height: 0,
        left: place,
        number,
        count: k,
        cursor: k,
        rest: 0,
        bound: shape::sum(parent, tables.widths[1]),
        by: shape::times(k, width),
    }
}

// Of k tags that bring a node of height h over l tags to its limit, those that go in with its splits: the first takes as many as
// are left up to the limit.
fn in_node(h: usize, l: u64, k: u64, tables: &Tables) -> u64
    requires { NodeFits h k tables.now }
    ensures { result ≡ in_node (s_in tables.now) (r_in tables.now) h l k }
{
    let first = tables.highs[h].saturating_sub(l);
    first + splits::in_splits(k.saturating_sub(first), h, tables)
}

// The ancestor of height h over l tags is split: its right siblings are shifted by the trees that it becomes but one. `border` is the
// tag left of it, and how many of its tags stand up to the place.
fn split_plan(h: usize, l: u64, k: u64, border: Border, tables: &Tables) -> Plan
    requires { SplitFits h l k tables.now }
    ensures { plan_record result ≡ split_plan (s_in tables.now) (r_in tables.now) (widths_in tables.now) (numbers_in tables.now) h l k (border_record border) }
{
    let split = in_node(h, l, k, tables);
    let trees = (l + split) / tables.lows[h];
    let by = shape::times(trees.saturating_sub(1), tables.widths[h]);
    let end = shape::sum(tables.numbers[h + 1], tables.widths[h + 1]);
    let left = border.tag;
    Plan {
        height: h,
        left,
        number: tables.numbers[h],
        count: l + k,
        cursor: border.steps as u64 + split,
        rest: k.saturating_sub(split),
        bound: end,
        by,
    }
}

// The root is split, for the last time at height h: all tags are numbered anew.
pub fn root_plan(words: &[u32], k: u32, place: TagId, h: usize, tables: &Tables) -> Plan
    requires { RootReads words.now k h tables.now }
    ensures { plan_record result ≡ root_plan (s_in tables.now) (r_in tables.now) h (issued words.now) k (left_border (issued words.now) (issued words.now) words.now 0 place.0) }
{
    let n = words::count_of(words) as u64;
    let border = splits::left_border(words, 0, place);
    let split = in_node(h, n, k as u64, tables);
    Plan {
        height: h,
        left: TagId::NONE,
        number: 0,
        count: n + k as u64,
        cursor: border.steps as u64 + split,
        rest: (k as u64).saturating_sub(split),
        bound: 0,
        by: 0,
    }
}

// The root is not split: k tags at a place whose ancestors have these numbers and sizes. The highest ancestor that comes to its limit
// is; only that walks left, to the border of its node.
pub fn inner_plan(
    words: &[u32],
    k: u32,
    place: TagId,
    tables: &Tables,
    sizes: &[u32; TABLE_LENGTH],
) -> Plan
    requires { PlanReads words.now k place.0 tables.now sizes.now }
    ensures { plan_record result ≡ inner_plan words.now tables.now sizes.now (issued words.now) k (pred (word_at words.now at_height)) place.0 }
{
    let under = words::height_of(words) as usize - 1;
    let h = splits::highest_full(k, under, tables, sizes);
    if h == 0 {
        let parent = tables.numbers[1];
        return plain_plan(words, place, k as u64, parent, tables);
    }
    let low = tables.numbers[h];
    let border = splits::left_border(words, low, place);
    split_plan(h, sizes[h] as u64, k as u64, border, tables)
}

// How many unmarked ones of the numbered and shifted tags held another label.
pub fn apply(words: &mut [u32], p: Plan, tables: &Tables) -> u32
    requires { Applicable words.old (plan_record p) tables.now }
    ensures words { words.new ≡ (applied words.old (widths_in tables.now) (s_in tables.now) (r_in tables.now) (issued words.old) (plan_record p)).words }
    ensures moved { result ≡ (applied words.old (widths_in tables.now) (s_in tables.now) (r_in tables.now) (issued words.old) (plan_record p)).moved }
{
    let left = p.left;
    let start = words::places::behind(words, left);
    let first = shape::cut(p.number);
    let cursor = Cursor {
        at: p.cursor,
        rest: p.rest,
    };
    let q = renumber::number_path(words, p.height, first, start, p.count, cursor, tables);
    let next = q.next;
    q.moved + relabel::shift(words, next, p.bound, p.by)
}
