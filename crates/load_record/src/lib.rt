// The record of one new tag of a row: its place in the row, its mate, its up and its depth. An open begin's own up word serves as
// the stack.
#![tactic(auto)]

ghost use Rattle.std.specs.Prelude.{◌≡◌, true, suc, ◌+◌, ◌<◌};
ghost use Rattle.store_types.specs.Limits.{word_limit};
ghost use Rattle.store_types.specs.Layout.{at_up, field, Room};
ghost use Rattle.calls.specs.Kind.{kind_of, own_depth, depth_after};
ghost use Rattle.load_record.specs.Record.{next_of, prior_of, place_written, KindNumber, new_mate, new_up, links_written, tag_written, open_behind, Opened, AroundKnown, DepthFits, TagFits};

use store_types::{BEGIN, END, Label, TagId};

// A row of new tags: the first number and the one behind the last, and the tags before and behind the row.
#[derive(Clone, Copy)]
pub struct Row {
    pub first: u32,
    pub end: u32,
    pub prior: TagId,
    pub next: TagId,
}

// The tag behind tag i of a row.
fn next_tag(i: u32, row: Row) -> TagId
    requires { i < row.end }
    ensures { result.0 ≡ next_of row i }
{
    if i + 1 < row.end {
        return TagId(i + 1);
    }
    row.next
}

fn prior_tag(i: u32, row: Row) -> TagId
    ensures { result.0 ≡ prior_of row i }
{
    if row.first < i {
        return TagId(i - 1);
    }
    row.prior
}

// Tag i of a row by its place, kind and label.
fn write_place(words: &mut [u32], i: u32, row: Row, kind: u8, label: Label)
    requires { (i < row.end) × Room words.old i }
    ensures { words.new ≡ place_written row i kind label.0 words.old }
{
    let x = TagId(i);
    words::set_label(words, x, label);
    words::set_kind(words, x, kind as u32);
    words::set_next(words, x, next_tag(i, row));
    words::set_prior(words, x, prior_tag(i, row));
}

// The innermost open begin, and what stands around it where that is known: behind an end it is not, and only another end
// asks for it. And how many begins are open before the next tag (document 02, CR 7).
#[derive(Clone, Copy)]
pub struct Open {
    pub begin: TagId,
    pub around: TagId,
    pub known: bool,
    pub depth: u32,
}

// The up of a tag: the innermost open begin, and of an end what stands around that. It is read only where it is not known, so
// that no tag waits for the record of the open begin, and no branch is on the kind alone, which no processor can foretell.
fn up_at(words: &[u32], kind: u8, inside: Open) -> TagId
    requires { (KindNumber kind) × (kind ≡ 2 → Room words.now inside.begin.0) × (inside.known ≡ true → inside.around.0 ≡ field words.now inside.begin.0 at_up) }
    ensures { result.0 ≡ new_up kind inside.begin.0 words.now }
{
    if kind == END && !inside.known {
        return words::up_of(words, inside.begin);
    }
    TagId(kind_pick::at_end(kind as u32, inside.around.0, inside.begin.0))
}

// A begin is its own mate until its end is met; a text stays so.
fn mate_at(x: TagId, kind: u8, parent: TagId) -> TagId
    requires { KindNumber kind }
    ensures { result.0 ≡ new_mate x.0 kind parent.0 }
{
    TagId(kind_pick::at_end(kind as u32, parent.0, x.0))
}

// The depth of a tag, where so many begins are open before it.
fn depth_at(kind: u8, opens: u32) -> u32
    requires { DepthFits kind opens }
    ensures { result ≡ own_depth (kind_of kind) opens }
{
    kind_pick::own_depth(kind as u32, opens)
}

// Behind tag x, which has this up and depth.
fn open_behind(x: TagId, kind: u8, up: TagId, depth: u32, inside: Open) -> Open
    requires { KindNumber kind × (suc depth < word_limit) }
    ensures { Opened x.0 kind up.0 depth inside result }
{
    Open {
        begin: TagId(kind_pick::at_begin(kind as u32, x.0, up.0)),
        around: TagId(kind_pick::at_begin(kind as u32, up.0, inside.around.0)),
        depth: kind_pick::opens_after(kind as u32, depth),
        known: kind == BEGIN || (kind != END && inside.known),
    }
}

// Depth, mate and up of a tag, and it is the mate of its mate: a tag that is no end is written twice as its own, which costs less
// than a branch.
fn write_links(words: &mut [u32], x: TagId, mate: TagId, up: TagId, depth: u32)
    requires { Room words.old x.0 × Room words.old mate.0 }
    ensures { words.new ≡ links_written x.0 mate.0 up.0 depth words.old }
{
    words::set_depth(words, x, depth);
    words::set_mate(words, x, mate);
    words::set_mate(words, mate, x);
    words::set_up(words, x, up);
}

// Tag i of a row with its record, and its begin's mate where it is an end; what is open behind it.
pub fn write_tag(words: &mut [u32], i: u32, row: Row, kind: u8, label: Label, inside: Open) -> Open
    requires { TagFits words.old row i kind inside.begin.0 inside.depth × AroundKnown words.old i inside }
    ensures words { words.new ≡ tag_written row i kind label.0 inside.begin.0 inside.depth words.old }
    ensures begin { result.begin.0 ≡ open_behind row i kind label.0 inside.begin.0 words.old }
    ensures around { AroundKnown words.new (i + 1) result }
    ensures depth { result.depth ≡ depth_after (kind_of kind) inside.depth }
{
    write_place(words, i, row, kind, label);
    let x = TagId(i);
    let up = up_at(words, kind, inside);
    let mate = mate_at(x, kind, inside.begin);
    let depth = depth_at(kind, inside.depth);
    write_links(words, x, mate, up, depth);
    open_behind(x, kind, up, depth, inside)
}
