// The soundness walk (document 01, "Sound means"): the header, then one pass along next with no scratch memory.
#![tactic(auto)]

ghost use Rattle.std.specs.Prelude.{◌≡◌, true, ◌<◌};
ghost use Rattle.store_types.specs.Layout.{at_kind, field, label_at};
ghost use Rattle.walk_model.specs.Walk.{kind_fits, depth_fits, placed, walk, words_pass};
ghost use Rattle.walk_model.specs.Watch.{TablesAt, place_sizes, close_sizes, walk_sizes, sizes_at};
ghost use Rattle.walk_tags.specs.Needs.{TagReads};
ghost use Rattle.shape.specs.Packed.{widths_in, lows_in, highs_in, numbers_in};
ghost use Rattle.walk_levels.specs.Needs.{levels_of};
ghost use Rattle.walk.specs.Needs.{PassFits, Standing, EndsFit, Behind, ends_from, label_passes, shape_in, label_due, first_state, state_with, start_with};

use shape::{TABLE_LENGTH, Tables};
use store_types::TagId;
use walk_levels::Levels;
use words::Offset;

// How many tags the book has, and the height of the root's children.
#[derive(Clone, Copy)]
pub struct Extent {
    pub n: u32,
    pub under: usize,
}

// Where the pass stands: its place, which is the tags so far, marked ones too; the next tag and where its record stands, the
// tag before it, the innermost open begin and how many begins are open, the marked tags so far, and the label that the next
// child is to have.
#[derive(Clone, Copy)]
pub struct State {
    pub place: u32,
    pub tag: TagId,
    pub at: Offset,
    pub prior: TagId,
    pub parent: TagId,
    pub depth: u64,
    pub marks: u32,
    pub expect: u64,
}

// Before the first tag, whose record stands there: none is before it, and no begin is open.
pub fn started(first: TagId, at: Offset) -> State
    ensures { result ≡ first_state first.0 at.0 }
{
    State {
        place: 0,
        tag: first,
        at,
        prior: TagId::NONE,
        parent: TagId::NONE,
        depth: 0,
        marks: 0,
        expect: 0,
    }
}

// One tag's number and its label: of the next child of the open node of height 1, or of the first leaf of new nodes.
fn label_fits(
    words: &[u32],
    size: Extent,
    v: State,
    tables: &Tables,
    levels: &mut Levels,
    sizes: &mut [u32; TABLE_LENGTH],
) -> bool
    requires { PassFits words.now size.n size.under tables.now × Standing words.now size.n levels.old v }
    ensures ok { result ≡ label_passes words.now (shape_in tables.now size.under size.n) v.place (state_with words.now v levels.old) }
    ensures left { result ≡ true → levels_of levels.new ≡ (placed words.now (shape_in tables.now size.under size.n) v.place (state_with words.now v levels.old)).levels }
    ensures sizes { result ≡ true → sizes.new ≡ place_sizes (widths_in tables.now) (numbers_in tables.now) size.under (label_due words.now v.prior.0) (label_at words.now v.tag.0) v.place (levels_of levels.old) sizes.old }
{
    if size.n <= v.tag.0 {
        return false;
    }
    let label = words::label_there(words, v.at);
    if label.0 as u64 == v.expect {
        return true;
    }
    levels.settle(label, v.place, size.under, tables, sizes)
}

// Behind a tag that passes: end is where the open node of height 1 ends.
fn passed(words: &[u32], n: u32, end: u64, v: State) -> State
    requires tag { TagReads words.now n v.tag.0 v.at.0 v.parent.0 × (kind_fits words.now n v.parent.0 v.tag.0 (field words.now v.tag.0 at_kind) ≡ true) }
    requires deep { depth_fits words.now v.tag.0 (field words.now v.tag.0 at_kind) v.depth ≡ true }
    requires counts { (field words.now v.tag.0 at_kind < 32) × (v.place < 4000000000) × (v.marks < 4000000000) }
    ensures { Behind words.now end v result }
{
    let x = v.tag;
    let at = v.at;
    let next = TagId(words::get_at(words, at, words::AT_NEXT));
    let parent = walk_tags::open_after(words, n, x, at, v.parent);
    let depth = walk_tags::depth_after(words, x, at, v.depth);
    let marks = walk_tags::count_mark(words, x, at, v.marks);
    let label = words::label_there(words, at);
    State {
        place: v.place + 1,
        tag: next,
        at: Offset::of(next),
        prior: x,
        parent,
        depth,
        marks,
        expect: walk_levels::expected(label, end),
    }
}

// Behind the last tag: none follows, none is open, every open node is within its limits, and the stamp is.
pub fn ends_well(
    words: &[u32],
    size: Extent,
    v: State,
    tables: &Tables,
    levels: &Levels,
    sizes: &mut [u32; TABLE_LENGTH],
) -> bool
    requires { EndsFit words.now size.n size.under v.marks tables.now }
    ensures ok { result ≡ ends_from words.now size.n size.under (lows_in tables.now) (highs_in tables.now) levels.now v.tag.0 v.parent.0 v.marks }
    ensures sizes { result ≡ true → sizes.new ≡ close_sizes (widths_in tables.now) (numbers_in tables.now) size.under 1 size.n (levels_of levels.now) sizes.old }
{
    if !v.tag.is_none() {
        return false;
    }
    if !v.parent.is_none() {
        return false;
    }
    if !levels.all_close(size.n, size.under, tables, sizes) {
        return false;
    }
    words[words::AT_STAMP] <= size.n + v.marks
}

// The pass: one tag after the other along next. The first test says nothing that the loop does not; but where its record
// stands is then known before the loop, and the compiler carries it.
fn pass(words: &[u32], size: Extent, tables: &Tables, sizes: &mut [u32; TABLE_LENGTH]) -> bool
    requires { PassFits words.now size.n size.under tables.now }
    ensures ok { result ≡ walk words.now (shape_in tables.now size.under size.n) size.n 0 (start_with words.now (widths_in tables.now)) }
    ensures sizes { result ≡ true → sizes.new ≡ walk_sizes words.now (shape_in tables.now size.under size.n) (numbers_in tables.now) size.n 0 (start_with words.now (widths_in tables.now)) sizes.old }
{
    let first = TagId(words[words::AT_FIRST]);
    let at = Offset::of(first);
    if 0 < size.n && words.len() <= at.0 {
        return false;
    }
    let pairs = walk_tags::pairs();
    let mut levels = Levels::new(&tables.widths);
    let mut v = started(first, at);
    while v.place < size.n {
        if !label_fits(words, size, v, tables, &mut levels, sizes) {
            return false;
        }
        if !walk_tags::tag_fits(&pairs, words, size.n, v.tag, v.at, v.prior, v.parent) {
            return false;
        }
        if !walk_tags::depth_fits(words, v.tag, v.at, v.depth) {
            return false;
        }
        v = passed(words, size.n, levels.ends[1], v);
    }
    ends_well(words, size, v, tables, &levels, sizes)
}

// Whether words say a store: refusal 2 where they do not. Where they do, `tables` has then the tables of their header with
// the numbers of the ancestors of a place, and `sizes` the leaves of each of these below the root, by height.
pub fn sound_at(
    words: &[u32],
    place: TagId,
    tables: &mut Tables,
    sizes: &mut [u32; TABLE_LENGTH],
) -> bool
    ensures ok { result ≡ words_pass words.now }
    ensures tables { result ≡ true → TablesAt words.now place.0 tables.new }
    ensures sizes { result ≡ true → sizes.new ≡ sizes_at words.now place.0 sizes.old }
{
    if !shape::frame_passes(words) {
        return false;
    }
    let s = words[words::AT_S] as u64;
    let r = words[words::AT_R] as u64;
    let h = words[words::AT_HEIGHT] as usize;
    let n = words[words::AT_COUNT];
    let widths = shape::widths(words);
    let lows = shape::table(1, r, h);
    let highs = shape::table(s, r, h);
    if !shape::root_passes(n, h, &lows, &highs) {
        return false;
    }
    let label = words::places::watched_label(words, place);
    let numbers = walk_levels::ancestors::numbers(label, h - 1, &widths);
    *tables = Tables {
        widths,
        lows,
        highs,
        numbers,
    };
    let size = Extent { n, under: h - 1 };
    pass(words, size, tables, sizes)
}
