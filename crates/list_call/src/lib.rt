// List (document 01, "Calls and their replies"): one pass along next and no scratch memory; where a lent list has less room
// than the book has tags, another before it, which counts, so that a list that is too short is refused before a word is written.
#![tactic(auto)]

ghost use Rattle.std.specs.Prelude.{◌≡◌, [], ◌∷◌, map, ◌+◌, ◌≤◌, length};
ghost use Rattle.std.proofs.lemmas.List.Edits.{sets};
ghost use Rattle.lists.specs.Fronts.{in_front};
ghost use Rattle.store_types.specs.Replies.{numbered, refusal_in};
ghost use Rattle.calls.specs.Store.{label};
ghost use Rattle.calls.specs.Replies.{refusal_over, said, list_reply, list_tags, list_labels};
ghost use Rattle.store_refuse.specs.Needs.{TagSaid};
ghost use Rattle.list_call.specs.Needs.{SpanSaid, unmarked, unmarked_between, inside_refusal, first_inside, stop_of, short};

use store_types::{Refusal, TagId};

// List: the unmarked tags strictly inside a section or, from the front, of the whole book, with their labels.
pub fn list(
    begin: TagId,
    words: &[u32],
    tags: &mut [u32],
    labels: &mut [u32],
) -> Result<u32, Refusal>
    ensures reply { numbered result ≡ list_reply begin.0 words.now tags.old labels.old }
    ensures tags { tags.new ≡ list_tags begin.0 words.now tags.old labels.old }
    ensures labels { labels.new ≡ list_labels begin.0 words.now tags.old labels.old }
{
    check_inside(begin, words)?;
    let from = first_inside(begin, words);
    let to = stop_of(begin, words);
    if too_short(from, to, words, tags.len(), labels.len()) {
        return Err(Refusal::ListTooShort);
    }
    let count = write_between(from, to, words, tags, labels);
    Ok(count as u32)
}

// Whether one of the two lent lists, of these lengths, has no room for what is to be listed.
fn too_short(from: TagId, to: TagId, words: &[u32], tags: usize, labels: usize) -> bool
    requires { SpanSaid words.now from.0 to.0 }
    ensures { result ≡ short (length (unmarked_between (said words.now) from.0 to.0)) tags labels }
{
    let n = words::count_of(words) as usize;
    if n <= tags && n <= labels {
        return false;
    }
    let count = count_between(from, to, words);
    tags < count || labels < count
}

// All refusals but 11; the front is allowed.
fn check_inside(begin: TagId, words: &[u32]) -> Result<(), Refusal>
    ensures { refusal_in result ≡ refusal_over words.now (inside_refusal begin.0) }
{
    store_refuse::check_words(words)?;
    if begin.is_none() {
        return Ok(());
    }
    if words::count_of(words) <= begin.0 {
        return Err(Refusal::NoSuchTag);
    }
    let kind = words::kind_of(words, begin);
    if words::MARK <= kind {
        return Err(Refusal::TagMarked);
    }
    if kind != words::KIND_BEGIN {
        return Err(Refusal::NotASection);
    }
    Ok(())
}

// Where the passes start: the first tag of the book, or the tag behind a begin.
fn first_inside(begin: TagId, words: &[u32]) -> TagId
    requires { refusal_over words.now (inside_refusal begin.0) ≡ 0 }
    ensures { result.0 ≡ first_inside begin.0 (said words.now) }
{
    if begin.is_none() {
        return words::first_of(words);
    }
    words::next_of(words, begin)
}

// Where they stop: behind the last tag of the book, or at a begin's mate.
fn stop_of(begin: TagId, words: &[u32]) -> TagId
    requires { refusal_over words.now (inside_refusal begin.0) ≡ 0 }
    ensures { result.0 ≡ stop_of begin.0 (said words.now) }
{
    if begin.is_none() {
        return begin;
    }
    words::mate_of(words, begin)
}

// The pass that counts.
fn count_between(from: TagId, to: TagId, words: &[u32]) -> usize
    requires { SpanSaid words.now from.0 to.0 }
    ensures { result ≡ length (unmarked_between (said words.now) from.0 to.0) }
{
    let mut x = from;
    let mut count: usize = 0;
    while x != to {
        count += count_unmarked(x, words);
        x = words::next_of(words, x);
    }
    count
}

// One tag of it: 1 where it is not marked, else 0.
fn count_unmarked(tag: TagId, words: &[u32]) -> usize
    requires { TagSaid words.now tag.0 }
    ensures { result ≡ length (unmarked (said words.now) (tag.0 ∷ [])) }
{
    if words::MARK <= words::kind_of(words, tag) {
        return 0;
    }
    1
}

// The pass that writes; how many it wrote.
fn write_between(
    from: TagId,
    to: TagId,
    words: &[u32],
    tags: &mut [u32],
    labels: &mut [u32],
) -> usize
    requires span_said { SpanSaid words.now from.0 to.0 }
    requires tags_room { length (unmarked_between (said words.now) from.0 to.0) ≤ length tags.old }
    requires labels_room { length (unmarked_between (said words.now) from.0 to.0) ≤ length labels.old }
    ensures tags { tags.new ≡ in_front (unmarked_between (said words.now) from.0 to.0) tags.old }
    ensures labels { labels.new ≡ in_front (map (label (said words.now)) (unmarked_between (said words.now) from.0 to.0)) labels.old }
    ensures count { result ≡ length (unmarked_between (said words.now) from.0 to.0) }
{
    let mut x = from;
    let mut i: usize = 0;
    while x != to {
        i = write_unmarked(x, words, i, tags, labels);
        x = words::next_of(words, x);
    }
    i
}

// One tag of it, at place i where it is not marked; where the next one goes.
fn write_unmarked(
    tag: TagId,
    words: &[u32],
    i: usize,
    tags: &mut [u32],
    labels: &mut [u32],
) -> usize
    requires tag_said { TagSaid words.now tag.0 }
    requires tags_room { i + length (unmarked (said words.now) (tag.0 ∷ [])) ≤ length tags.old }
    requires labels_room { i + length (unmarked (said words.now) (tag.0 ∷ [])) ≤ length labels.old }
    ensures next { result ≡ i + length (unmarked (said words.now) (tag.0 ∷ [])) }
    ensures tags { tags.new ≡ sets tags.old i (unmarked (said words.now) (tag.0 ∷ [])) }
    ensures labels { labels.new ≡ sets labels.old i (map (label (said words.now)) (unmarked (said words.now) (tag.0 ∷ []))) }
{
    if words::MARK <= words::kind_of(words, tag) {
        return i;
    }
    let label = words::label_of(words, tag);
    tags[i] = tag.0;
    labels[i] = label.0;
    i + 1
}
