// Labels written along next (document 01, "The tree"): leaves in a row, a width apart, and a stretch of labels that is shifted.
#![tactic(auto)]

ghost use Rattle.std.specs.Prelude.{◌≡◌, cond, ◌+◌, ◌≤◌, ◌<◌, eqb};
ghost use Rattle.store_types.specs.Limits.{label_limit};
ghost use Rattle.store_types.specs.Layout.{with_label, Room, Records};
ghost use Rattle.powers.specs.Tables.{entry_limit};
ghost use Rattle.shape.specs.Sums.{cut};
ghost use Rattle.edit_model.specs.Relabel.{issued, counts_moved, shift as shifted};
ghost use Rattle.relabel.specs.Needs.{RowThere, RowNumbered, leaves_numbered};

use store_types::{Label, TagId};

// The tag behind those that were numbered, and how many unmarked ones of them held another label before.
#[derive(Clone, Copy)]
pub struct Numbered {
    pub next: TagId,
    pub moved: u32,
}

// 1 where two labels differ, else 0.
fn differs(a: Label, b: Label) -> u32
    ensures { result ≡ cond (eqb a.0 b.0) 0 1 }
{
    if a.0 == b.0 { 0 } else { 1 }
}

// One leaf. A marked tag gets its label too, and only does not count: the kind stands in the record that is being
// written, and what it decides is no branch.
fn number_leaf(words: &mut [u32], tag: TagId, label: Label) -> u32
    requires { Room words.old tag.0 }
    ensures words { words.new ≡ with_label words.old tag.0 label.0 }
    ensures moved { result ≡ counts_moved words.old tag.0 label.0 }
{
    let kind = words::kind_of(words, tag);
    let old = words::label_of(words, tag);
    words::set_label(words, tag, label);
    kind_pick::at_unmarked(kind, differs(old, label), 0)
}

// Leaves in a row, a width apart.
pub fn number_leaves(words: &mut [u32], a: u64, x: TagId, count: u64, width: u64) -> Numbered
    requires { RowThere words.old x.0 count × (a < label_limit) × (width ≤ entry_limit) }
    ensures { RowNumbered words.old words.new (leaves_numbered words.old width a x.0 count) x.0 count result.next.0 result.moved }
{
    let mut at = a;
    let mut tag = x;
    let mut moved: u32 = 0;
    for _ in 0..count {
        let new = at as u32;
        moved += number_leaf(words, tag, Label(new));
        tag = words::next_of(words, tag);
        at = shape::sum(at, width);
    }
    Numbered { next: tag, moved }
}

// A label with a number added.
fn raised(label: Label, by: u64) -> Label
    requires { by ≤ entry_limit }
    ensures { result.0 ≡ cut (label.0 + by) }
{
    Label(shape::sum(label.0 as u64, by) as u32)
}

// Adds to each label from x on, as long as it is below a bound.
pub fn shift(words: &mut [u32], x: TagId, bound: u64, by: u64) -> u32
    requires { Records words.old (issued words.old) × (by ≤ entry_limit) }
    ensures words { words.new ≡ (shifted (issued words.old) (issued words.old) words.old x.0 bound by).words }
    ensures moved { result ≡ (shifted (issued words.old) (issued words.old) words.old x.0 bound by).moved }
{
    let n = words::count_of(words);
    let mut tag = x;
    let mut moved: u32 = 0;
    for _ in 0..n {
        if n <= tag.0 {
            return moved;
        }
        let label = words::label_of(words, tag);
        if bound <= (label.0 as u64) {
            return moved;
        }
        let counts = number_leaf(words, tag, raised(label, by));
        moved += counts;
        tag = words::next_of(words, tag);
    }
    moved
}
