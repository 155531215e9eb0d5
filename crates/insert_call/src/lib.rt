// Insertion of a sheet, and of a text or an element, which are two of them (document 01, "The tree", "Calls and their replies";
// document 02, CR 5).
#![tactic(auto)]

ghost use Rattle.std.specs.Prelude.{◌≡◌, length, replicate, Ok};
ghost use Rattle.store_types.specs.Replies.{numbered};
ghost use Rattle.powers.specs.Tables.{table_length};
ghost use Rattle.calls.specs.Words.{Says};
ghost use Rattle.calls.specs.Replies.{said, insert_reply, insert_words, insert_sheet_reply, insert_sheet_words};
ghost use Rattle.walk_model.specs.Watch.{TablesAt, sizes_at};
ghost use Rattle.insert_refuse.specs.Parts.{height_after};
ghost use Rattle.insert_change.specs.Needs.{Accepted};

use shape::{TABLE_LENGTH, Tables};
use store_types::{BEGIN, END, Inserted, Refusal, TEXT, TagId};

// An accepted sheet that has tags; `top` is H with them.
#[tactic(auto, using(crate::proofs::Replies::with_tags))]
fn insert_tags(
    kinds: &[u8],
    place: TagId,
    words: &mut [u32],
    top: u32,
    tables: &Tables,
    sizes: &[u32; TABLE_LENGTH],
) -> Inserted
    requires { Accepted words.old kinds.now place.0 × (top ≡ height_after words.old (length kinds.now)) × TablesAt words.old place.0 tables.now × (sizes.now ≡ sizes_at words.old place.0 (replicate table_length 0)) }
    ensures reply { insert_sheet_reply kinds.now place.0 words.old ≡ Ok result }
    ensures words { words.new ≡ insert_sheet_words kinds.now place.0 words.old }
{
    let n = words::count_of(words);
    let done = insert_change::change(kinds, place, words, top, tables, sizes);
    let stamp = words::stamp_of(words);
    words::set_stamp(words, stamp + 1);
    Inserted {
        first: TagId(n),
        moved: done.moved,
        split: done.split,
    }
}

// A sheet on words that say a store; `tables` and `sizes` are those of its place.
#[tactic(auto, using(crate::proofs::Replies::of_a_sheet), unfolding(store_types::specs::Replies::refusal_in, store_types::specs::Replies::numbered))]
fn sheet_said(
    kinds: &[u8],
    place: TagId,
    words: &mut [u32],
    tables: &Tables,
    sizes: &[u32; TABLE_LENGTH],
) -> Result<Inserted, Refusal>
    requires { Says words.old (said words.old) × TablesAt words.old place.0 tables.now × (sizes.now ≡ sizes_at words.old place.0 (replicate table_length 0)) }
    ensures reply { numbered result ≡ insert_sheet_reply kinds.now place.0 words.old }
    ensures words { words.new ≡ insert_sheet_words kinds.now place.0 words.old }
{
    let top = insert_refuse::check_sheet(kinds, place, words, tables)?;
    if kinds.is_empty() {
        // Nothing goes in, and the stamp stays.
        return Ok(Inserted {
            first: TagId(words::count_of(words)),
            moved: 0,
            split: 0,
        });
    }
    Ok(insert_tags(kinds, place, words, top, tables, sizes))
}

// A text or an element there: a text is a sheet of one tag, an element one of two.
#[tactic(auto, using(crate::proofs::Replies::by_kind), unfolding(store_types::specs::Replies::number_of, store_types::specs::Replies::numbered))]
pub fn insert_said(
    kind: u8,
    place: TagId,
    words: &mut [u32],
    tables: &Tables,
    sizes: &[u32; TABLE_LENGTH],
) -> Result<Inserted, Refusal>
    requires { Says words.old (said words.old) × TablesAt words.old place.0 tables.now × (sizes.now ≡ sizes_at words.old place.0 (replicate table_length 0)) }
    ensures reply { numbered result ≡ insert_reply kind place.0 words.old }
    ensures words { words.new ≡ insert_words kind place.0 words.old }
{
    if kind == BEGIN {
        let element = [BEGIN, END];
        return sheet_said(&element, place, words, tables, sizes);
    }
    if kind == TEXT {
        let text = [TEXT];
        return sheet_said(&text, place, words, tables, sizes);
    }
    Err(Refusal::Kind)
}

#[tactic(auto, using(crate::proofs::Replies::on_words), unfolding(store_types::specs::Replies::refusal_in, store_types::specs::Replies::numbered))]
pub fn insert_sheet(kinds: &[u8], place: TagId, words: &mut [u32]) -> Result<Inserted, Refusal>
    ensures reply { numbered result ≡ insert_sheet_reply kinds.now place.0 words.old }
    ensures words { words.new ≡ insert_sheet_words kinds.now place.0 words.old }
{
    let mut tables = Tables::EMPTY;
    let mut sizes = [0u32; TABLE_LENGTH];
    store_refuse::check_words_at(words, place, &mut tables, &mut sizes)?;
    sheet_said(kinds, place, words, &tables, &sizes)
}

#[tactic(auto, using(crate::proofs::Replies::on_words), unfolding(store_types::specs::Replies::refusal_in, store_types::specs::Replies::numbered))]
pub fn insert(kind: u8, place: TagId, words: &mut [u32]) -> Result<Inserted, Refusal>
    ensures reply { numbered result ≡ insert_reply kind place.0 words.old }
    ensures words { words.new ≡ insert_words kind place.0 words.old }
{
    let mut tables = Tables::EMPTY;
    let mut sizes = [0u32; TABLE_LENGTH];
    store_refuse::check_words_at(words, place, &mut tables, &mut sizes)?;
    insert_said(kind, place, words, &tables, &sizes)
}
