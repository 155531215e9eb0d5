// Places: a tag, or the front of the book.
ghost use Rattle.std.specs.Prelude.{◌≡◌, ◌<◌};
ghost use Rattle.store_types.specs.Limits.{word_limit};
ghost use Rattle.store_types.specs.Layout.{at_count, word_at, Records};
ghost use Rattle.words.specs.Places.{PlaceThere, behind as tag_behind, up_word, depth_word, watched_label};

use store_types::{Label, TagId};

// The tag behind a place: the first where the place is the front.
pub fn behind(words: &[u32], place: TagId) -> TagId
    requires { PlaceThere words.now place.0 }
    ensures { result.0 ≡ tag_behind words.now place.0 }
{
    if place.is_none() {
        return TagId(words[crate::AT_FIRST]);
    }
    crate::next_of(words, place)
}

// The up of new tags: the place if it is a begin, else its up; at the front none.
pub fn up_at(words: &[u32], place: TagId) -> TagId
    requires { PlaceThere words.now place.0 }
    ensures { result.0 ≡ up_word words.now place.0 }
{
    if place.is_none() {
        return TagId::NONE;
    }
    if crate::kind_of(words, place) == crate::KIND_BEGIN {
        return place;
    }
    crate::up_of(words, place)
}

// How many elements are around new tags: as many as around the place, one more after a begin; at the front none.
pub fn depth_at(words: &[u32], place: TagId) -> u32
    requires { PlaceThere words.now place.0 × (depth_word words.now place.0 < word_limit) }
    ensures { result ≡ depth_word words.now place.0 }
{
    if place.is_none() {
        return 0;
    }
    if crate::kind_of(words, place) == crate::KIND_BEGIN {
        return crate::depth_of(words, place) + 1;
    }
    crate::depth_of(words, place)
}

// The label at a place; 0, that of the first leaf, where the place is no tag of the book.
pub fn watched_label(words: &[u32], place: TagId) -> Label
    requires { Records words.now (word_at words.now at_count) }
    ensures { result.0 ≡ watched_label words.now place.0 }
{
    if place.0 < words[crate::AT_COUNT] {
        return crate::label_of(words, place);
    }
    Label(0)
}
