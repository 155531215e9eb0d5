// The refusals of an insertion that words do not give: 4, 5, 8, 9, 6, 7 in this order.
#![tactic(auto)]

ghost use Rattle.std.specs.Prelude.{◌≡◌, ◌-◌, ◌≤◌, length, IfOk};
ghost use Rattle.store_types.specs.Limits.{most_tags};
ghost use Rattle.store_types.specs.Replies.{refusal_in};
ghost use Rattle.store_types.specs.Layout.{at_s, at_r, at_height, at_count, word_at};
ghost use Rattle.shape.specs.Tables.{highs_of};
ghost use Rattle.shape.specs.Packed.{highs_in};
ghost use Rattle.tree.specs.Grown.{height_for};
ghost use Rattle.calls.specs.Words.{Says};
ghost use Rattle.calls.specs.Replies.{said, insert_sheet_refused};
ghost use Rattle.insert_refuse.specs.Parts.{height_after, place_refusal, room_refusal};

use shape::Tables;
use store_types::{MOST_TAGS, Refusal, TagId};

// 8 and 9: the place is the front or an unmarked tag.
#[tactic(auto, using(crate::proofs::Refusals::place_refusals), unfolding(store_types::specs::Replies::refusal_in, store_types::specs::Replies::number_of))]
fn check_place(place: TagId, words: &[u32]) -> Result<(), Refusal>
    requires { Says words.now (said words.now) }
    ensures { refusal_in result ≡ place_refusal place.0 (said words.now) }
{
    if place.is_none() {
        return Ok(());
    }
    if words::count_of(words) <= place.0 {
        return Err(Refusal::NoSuchTag);
    }
    if words::MARK <= words::kind_of(words, place) {
        return Err(Refusal::TagMarked);
    }
    Ok(())
}

// H with so many tags: the least height from the present one on whose root has room for them.
#[tactic(auto, using(crate::proofs::Refusals::height_lemmas), unfolding(shape::specs::Tables::highs_of))]
fn height_with(all: u32, words: &[u32], tables: &Tables) -> u32
    requires { Says words.now (said words.now) × (all ≤ most_tags) × (highs_in tables.now ≡ highs_of words.now) }
    ensures { result ≡ height_for (all - word_at words.now at_count) (word_at words.now at_s) (word_at words.now at_r) all (word_at words.now at_height) }
{
    let h = words::height_of(words);
    let r = words[words::AT_R];
    let limit = tables.highs[h as usize];
    shape::height_for(all as u64, limit, r as u64, h)
}

// H with k tags more, or 6 and 7: words and labels remain. Labels of a height that fit do so at every lower one, so that the last
// height decides.
#[tactic(auto, using(crate::proofs::Refusals::room_refusals), unfolding(store_types::specs::Replies::refusal_in, store_types::specs::Replies::number_of))]
fn height_for_more(k: usize, words: &[u32], tables: &Tables) -> Result<u32, Refusal>
    requires { Says words.now (said words.now) × (highs_in tables.now ≡ highs_of words.now) }
    ensures refusal { refusal_in result ≡ room_refusal (length words.now) k (said words.now) }
    ensures height { IfOk result (λ top. top ≡ height_after words.now k) }
{
    let n = words::count_of(words);
    if ((MOST_TAGS - n) as usize) < k {
        return Err(Refusal::TooManyTags);
    }
    let all = n + k as u32;
    if words.len() < words::words_for(all as usize) {
        return Err(Refusal::TooManyTags);
    }
    let top = height_with(all, words, tables);
    if top == words::height_of(words) {
        return Ok(top);
    }
    let s = words[words::AT_S];
    let r = words[words::AT_R];
    if shape::height_fits(s, r, top) {
        return Ok(top);
    }
    Err(Refusal::OutOfLabels)
}

// Of a sheet, on words that say a store, by the tables of their header: H with its tags, or the refusal.
#[tactic(auto, using(crate::proofs::Refusals::sheet_refusals), unfolding(store_types::specs::Replies::refusal_in))]
pub fn check_sheet(
    kinds: &[u8],
    place: TagId,
    words: &[u32],
    tables: &Tables,
) -> Result<u32, Refusal>
    requires { Says words.now (said words.now) × (highs_in tables.now ≡ highs_of words.now) }
    ensures refusal { refusal_in result ≡ insert_sheet_refused kinds.now place.0 words.now }
    ensures height { IfOk result (λ top. top ≡ height_after words.now (length kinds.now)) }
{
    load_refuse::check_kinds(kinds)?;
    check_place(place, words)?;
    height_for_more(kinds.len(), words, tables)
}
