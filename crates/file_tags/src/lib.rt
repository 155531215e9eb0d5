// One record of a file, judged where a begin is open: its number, its label, and its prior, kind, mate, up and mark (document 02,
// CR 3).
#![tactic(auto)]

ghost use Rattle.std.specs.Prelude.{◌≡◌, true, cond, List, ◌∷◌, ℕ, ◌<◌, ◌≤◌, ltb, length, set};
ghost use Rattle.store_types.specs.Limits.{most_tags};
ghost use Rattle.store_types.specs.Layout.{at_kind, field, label_at};
ghost use Rattle.store_types.specs.FileLayout.{file_bytes};
ghost use Rattle.calls.specs.File.{count_in, rows_in, file_words};
ghost use Rattle.kind_pick.specs.Needs.{KindWord};
ghost use Rattle.walk_model.specs.Walk.{kind_fits, depth_fits, placed};
ghost use Rattle.walk_tags.specs.Needs.{Open, pair_table, links_fit as links_so, fits_at};
ghost use Rattle.walk_levels.specs.Needs.{TablesFit, levels_of};
ghost use Rattle.walk.specs.Needs.{Standing, Behind, label_passes, shape_in, state_with};
ghost use Rattle.number_set.specs.Bits.{Holds};
ghost use Rattle.file_form.specs.Needs.{RowThere};
ghost use Rattle.file_model.specs.Judge.{met_before};
ghost use Rattle.file_tags.specs.Needs.{number_at, RowRead, TagRow, number_passes};

use number_set::SET_WORDS;
use shape::{TABLE_LENGTH, Tables};
use store_types::{Label, TagId, file};
use walk::{Extent, State};
use walk_levels::Levels;
use words::Offset;

// The row's number is that of the tag that is due, one of n, and not met before; then it is met.
pub fn number_fits(bytes: &[u8], n: u32, v: State, met: &mut [u32; SET_WORDS]) -> bool
    requires { RowThere bytes.now v.place × (n ≡ count_in bytes.now) × (n ≤ most_tags) × Holds met.old (met_before (rows_in bytes.now) v.place) }
    ensures ok { result ≡ number_passes bytes.now v.place v.tag.0 }
    ensures met { result ≡ true → Holds met.new (v.tag.0 ∷ met_before (rows_in bytes.now) v.place) }
{
    let x = v.tag.0;
    if file_form::row_word(bytes, v.place, file::AT_NUMBER) != x {
        return false;
    }
    if n <= x {
        return false;
    }
    if number_set::contains(met, x) {
        return false;
    }
    number_set::add(met, x);
    true
}

// Its label: that of the next child of the open node of height 1, or of the first leaf of new nodes.
pub fn label_fits(
    label: Label,
    size: Extent,
    v: State,
    tables: &Tables,
    levels: &mut Levels,
    sizes: &mut [u32; TABLE_LENGTH],
) -> bool
    requires { TablesFit size.under tables.now × (v.tag.0 < size.n) }
    ensures { (ws : List ℕ) → label.0 ≡ label_at ws v.tag.0 → Standing ws size.n levels.old v → (result ≡ label_passes ws (shape_in tables.now size.under size.n) v.place (state_with ws v levels.old)) × (result ≡ true → levels_of levels.new ≡ (placed ws (shape_in tables.now size.under size.n) v.place (state_with ws v levels.old)).levels) }
{
    if label.0 as u64 == v.expect {
        return true;
    }
    levels.settle(label, v.place, size.under, tables, sizes)
}

// The row that is looked at beside a tag's own: that of the open begin, which stands at `top`, or its own where none is open.
fn beside(n: u32, place: u32, parent: TagId, top: u32) -> u32
    ensures { result ≡ cond (ltb parent.0 n) top place }
{
    if parent.0 < n { top } else { place }
}

// As walk_tags::links_fit, with rows in place of records.
fn links_fit(bytes: &[u8], v: State, q: u32, kind: u32) -> bool
    requires { (length bytes.now ≡ file_bytes (count_in bytes.now)) × (v.tag.0 ≡ number_at bytes.now v.place) × RowRead bytes.now v.place × RowRead bytes.now q × KindWord kind }
    ensures { result ≡ links_so (file_words bytes.now) v.prior.0 v.parent.0 v.tag.0 (number_at bytes.now q) kind }
{
    let up = file_form::row_field(bytes, v.place, words::AT_UP);
    let named = kind_pick::at_end(kind, words::AT_MATE as u32, words::AT_UP as u32);
    if file_form::row_field(bytes, v.place, named as usize) != v.parent.0 {
        return false;
    }
    let p = kind_pick::at_end(kind, q, v.place);
    if up != file_form::row_field(bytes, p, words::AT_UP) {
        return false;
    }
    let back = kind_pick::at_begin(kind, words::AT_PRIOR as u32, words::AT_MATE as u32);
    file_form::row_field(bytes, p, back as usize) == kind_pick::at_begin(kind, v.prior.0, v.tag.0)
}

// Whether a tag fits behind its prior, where the innermost open begin, if there is one, stands at `top`.
pub fn tag_fits(pairs: &[u32; 32], bytes: &[u8], n: u32, v: State, top: u32) -> bool
    requires { TagRow bytes.now v.place v.tag.0 v.parent.0 top × (n ≡ count_in bytes.now) × Open (file_words bytes.now) n v.parent.0 × (pairs.now ≡ pair_table) }
    ensures { result ≡ fits_at (file_words bytes.now) n v.parent.0 v.tag.0 v.prior.0 }
{
    if file_form::row_field(bytes, v.place, words::AT_PRIOR) != v.prior.0 {
        return false;
    }
    let kind = file_form::row_field(bytes, v.place, words::AT_KIND);
    if 32 <= kind {
        return false;
    }
    let q = beside(n, v.place, v.parent, top);
    if !walk_tags::may_stand(pairs, kind, file_form::row_field(bytes, q, words::AT_KIND)) {
        return false;
    }
    links_fit(bytes, v, q, kind)
}

// Behind a tag that fits: end is where the open node of height 1 ends. A row has no depth: its tag's is the number of begins that are
// open before it, one less for an end, and fits with no test (document 02, CR 7).
pub fn passed(bytes: &[u8], end: u64, v: State) -> State
    requires tag { (length bytes.now ≡ file_bytes (count_in bytes.now)) × (v.tag.0 ≡ number_at bytes.now v.place) × RowRead bytes.now v.place }
    requires fits { kind_fits (file_words bytes.now) (count_in bytes.now) v.parent.0 v.tag.0 (field (file_words bytes.now) v.tag.0 at_kind) ≡ true }
    requires deep { depth_fits (file_words bytes.now) v.tag.0 (field (file_words bytes.now) v.tag.0 at_kind) v.depth ≡ true }
    requires counts { (v.place < 4000000000) × (v.depth < 4000000000) × (v.marks < 4000000000) }
    ensures { Behind (file_words bytes.now) end v result }
{
    let x = v.tag;
    let kind = file_form::row_field(bytes, v.place, words::AT_KIND);
    let up = file_form::row_field(bytes, v.place, words::AT_UP);
    let parent = TagId(kind_pick::at_begin(kind, x.0, up));
    let own = v.depth - kind_pick::at_end(kind, 1, 0) as u64;
    let depth = own + kind_pick::at_begin(kind, 1, 0) as u64;
    let next = TagId(file_form::row_field(bytes, v.place, words::AT_NEXT));
    let label = Label(file_form::row_word(bytes, v.place, file::AT_LABEL));
    State {
        place: v.place + 1,
        tag: next,
        at: Offset::of(next),
        prior: x,
        parent,
        depth,
        marks: v.marks + kind / words::MARK,
        expect: walk_levels::expected(label, end),
    }
}

// A tag's place goes where that of one more open begin stands. What stands from the number of those that are open on is of no account,
// so the place is written in any case, and nothing branches on the kind.
pub fn opened(opens: &mut [u32], v: State)
    requires { v.depth < length opens.old }
    ensures { opens.new ≡ set opens.old v.depth v.place }
{
    opens[v.depth as usize] = v.place;
}
