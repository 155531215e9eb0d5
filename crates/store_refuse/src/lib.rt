// The refusals that every call begins with but load and the reading of a file (document 01, "Calls and their replies").
#![tactic(auto)]

ghost use Rattle.std.specs.Prelude.{◌≡◌, OnOk};
ghost use Rattle.store_types.specs.Replies.{refusal_in};
ghost use Rattle.calls.specs.Mark.{section_refusal};
ghost use Rattle.calls.specs.Replies.{refusal_over};
ghost use Rattle.walk_model.specs.Watch.{TablesAt, sizes_at};

use shape::{TABLE_LENGTH, Tables};
use store_types::{Refusal, TagId};

// 1 and 2, which come first on every such call. Where the words say a store, `tables` has then the tables of their header with the
// numbers of the ancestors of a place, and `sizes` the leaves of each of these below the root, by height.
pub fn check_words_at(
    words: &[u32],
    place: TagId,
    tables: &mut Tables,
    sizes: &mut [u32; TABLE_LENGTH],
) -> Result<(), Refusal>
    ensures refusal { refusal_in result ≡ refusal_over words.now (λ st. 0) }
    ensures tables { OnOk result (TablesAt words.now place.0 tables.new) }
    ensures sizes { OnOk result (sizes.new ≡ sizes_at words.now place.0 sizes.old) }
{
    if words.len() < words::HEADER_WORDS {
        return Err(Refusal::TooFewWords);
    }
    if !walk::sound_at(words, place, tables, sizes) {
        return Err(Refusal::NotSound);
    }
    Ok(())
}

// The same of no place.
pub fn check_words(words: &[u32]) -> Result<(), Refusal>
    ensures { refusal_in result ≡ refusal_over words.now (λ st. 0) }
{
    let mut tables = Tables::EMPTY;
    let mut sizes = [0u32; TABLE_LENGTH];
    check_words_at(words, TagId::NONE, &mut tables, &mut sizes)
}

// The refusals of mark and hold.
pub fn check_section(tag: TagId, words: &[u32]) -> Result<(), Refusal>
    ensures { refusal_in result ≡ refusal_over words.now (section_refusal tag.0) }
{
    check_words(words)?;
    if words::count_of(words) <= tag.0 {
        return Err(Refusal::NoSuchTag);
    }
    let kind = words::kind_of(words, tag);
    if words::MARK <= kind {
        return Err(Refusal::TagMarked);
    }
    if kind == words::KIND_END {
        return Err(Refusal::NotASection);
    }
    Ok(())
}
