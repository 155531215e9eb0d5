// The change of the words that an accepted sheet makes, but for the stamp: its tags go in, and what was planned is done (document 01,
// "The tree"; document 02, CR 5).
#![tactic(auto)]

ghost use Rattle.std.specs.Prelude.{◌≡◌, map, ◌-◌, length, replicate};
ghost use Rattle.powers.specs.Tables.{table_length};
ghost use Rattle.calls.specs.Kind.{kind_of};
ghost use Rattle.walk_model.specs.Watch.{TablesAt, sizes_at};
ghost use Rattle.edit_model.specs.Insert.{row_edit};
ghost use Rattle.insert_plan.specs.Parts.{plan_record};
ghost use Rattle.insert_refuse.specs.Parts.{height_after};
ghost use Rattle.insert_change.specs.Parts.{put_edit};
ghost use Rattle.insert_change.specs.Needs.{Edits, PutFits, Accepted, Rises};

use insert_plan::Plan;
use shape::{TABLE_LENGTH, Tables};
use store_types::TagId;

// How many unmarked tags moved, and the split height.
#[derive(Clone, Copy)]
pub struct Done {
    pub moved: u32,
    pub split: u32,
}

// Tags of these kinds go in from number n on, and then what was planned is done, by the tables of the height that there is then. A
// new tag counts as moved where it is numbered.
fn put(words: &mut [u32], n: u32, kinds: &[u8], place: TagId, p: Plan, tables: &Tables) -> Done
    requires { PutFits words.old kinds.now n place.0 (plan_record p) tables.now }
    ensures { Edits words.new result.moved result.split (put_edit words.old kinds.now n place.0 (plan_record p) tables.now) }
{
    let split = p.height;
    insert_link::add_row(words, n, kinds, place);
    insert_link::raise(words, split);
    let numbered = insert_plan::apply(words, p, tables);
    Done {
        moved: numbered.saturating_sub(kinds.len() as u32),
        split: split as u32,
    }
}

// An accepted sheet that splits the root, but for the stamp: H rises to `top`.
fn change_root(kinds: &[u8], place: TagId, words: &mut [u32], top: u32) -> Done
    requires { Accepted words.old kinds.now place.0 × Rises words.old kinds.now top }
    ensures { Edits words.new result.moved result.split (row_edit (map kind_of kinds.now) place.0 words.old) }
{
    let n = words::count_of(words);
    let s = words[words::AT_S];
    let r = words[words::AT_R];
    let tables = shape::tables_for(s, r, top as usize);
    let p = insert_plan::root_plan(words, kinds.len() as u32, place, top as usize - 1, &tables);
    put(words, n, kinds, place, p, &tables)
}

// An accepted sheet, but for the stamp; `top` is H with its tags, `tables` and `sizes` are those of its place.
pub fn change(
    kinds: &[u8],
    place: TagId,
    words: &mut [u32],
    top: u32,
    tables: &Tables,
    sizes: &[u32; TABLE_LENGTH],
) -> Done
    requires { Accepted words.old kinds.now place.0 × (top ≡ height_after words.old (length kinds.now)) × TablesAt words.old place.0 tables.now × (sizes.now ≡ sizes_at words.old place.0 (replicate table_length 0)) }
    ensures { Edits words.new result.moved result.split (row_edit (map kind_of kinds.now) place.0 words.old) }
{
    let n = words::count_of(words);
    let k = kinds.len() as u32;
    if words::height_of(words) < top {
        return change_root(kinds, place, words, top);
    }
    let p = insert_plan::inner_plan(words, k, place, tables, sizes);
    put(words, n, kinds, place, p, tables)
}
