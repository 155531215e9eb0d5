// Mark: a begin or text and all inside (document 01, "Calls and their replies").
#![tactic(auto)]

ghost use Rattle.std.specs.Prelude.{◌≡◌, ◌<◌};
ghost use Rattle.store_types.specs.Layout.{at_kind, field, Room, Records};
ghost use Rattle.store_types.specs.Replies.{numbered};
ghost use Rattle.calls.specs.Replies.{mark_reply, mark_words};
ghost use Rattle.mark_call.specs.Run.{new_mark, mark_one, mark_each, count_new, tags_of};

use store_types::{Refusal, TagId};

// One tag is marked: 1 where it was not.
fn mark_tag(words: &mut [u32], x: TagId) -> u32
    requires { Room words.old x.0 }
    ensures new { result ≡ new_mark (field words.old x.0 at_kind) }
    ensures words { words.new ≡ mark_one words.old x.0 }
{
    let kind = words::kind_of(words, x);
    if words::MARK <= kind {
        return 0;
    }
    words::set_kind(words, x, kind + words::MARK);
    1
}

// From x along next to its mate.
fn mark_section(words: &mut [u32], n: u32, x: TagId) -> u32
    requires tag { x.0 < n }
    requires records { Records words.old n }
    ensures new { result ≡ count_new words.old (tags_of n words.old x.0) }
    ensures words { words.new ≡ mark_each words.old (tags_of n words.old x.0) }
{
    let last = words::mate_of(words, x);
    let mut tag = x;
    let mut marked: u32 = 0;
    for _ in 0..n {
        if n <= tag.0 {
            return marked;
        }
        marked += mark_tag(words, tag);
        if tag == last {
            return marked;
        }
        tag = words::next_of(words, tag);
    }
    marked
}

// Marks a section: how many tags are marked that were not.
pub fn mark(tag: TagId, words: &mut [u32]) -> Result<u32, Refusal>
    ensures reply { numbered result ≡ mark_reply tag.0 words.old }
    ensures words { words.new ≡ mark_words tag.0 words.old }
{
    store_refuse::check_section(tag, words)?;
    let n = words::count_of(words);
    let marked = mark_section(words, n, tag);
    let stamp = words::stamp_of(words);
    words::set_stamp(words, stamp + 1);
    Ok(marked)
}
