// Held pairs (document 01, "Calls and their replies"): hold, and the held-pair question.
#![tactic(auto)]

ghost use Rattle.std.specs.Prelude.{◌≡◌};
ghost use Rattle.store_types.specs.Replies.{numbered};
ghost use Rattle.calls.specs.Held.{current};
ghost use Rattle.calls.specs.Store.{fact, label};
ghost use Rattle.calls.specs.Words.{Says};
ghost use Rattle.calls.specs.Replies.{said, hold_reply, question_reply};
ghost use Rattle.store_refuse.specs.Needs.{TagSaid};
ghost use Rattle.held_call.specs.Needs.{PairAsked};

use store_types::{Answer, HeldPair, Label, Refusal, TagId};

// Hold: a section's book number, tag and two labels.
pub fn hold(tag: TagId, words: &[u32]) -> Result<HeldPair, Refusal>
    ensures { numbered result ≡ hold_reply tag.0 words.now }
{
    store_refuse::check_section(tag, words)?;
    let start = words::label_of(words, tag);
    let end = end_label(tag, words);
    Ok(HeldPair {
        book: words[words::AT_BOOK],
        tag,
        start,
        end,
    })
}

// The held-pair question: whether the pair's section encloses a tag.
pub fn question(pair: HeldPair, tag: TagId, words: &[u32]) -> Result<Answer, Refusal>
    ensures { numbered result ≡ question_reply pair tag.0 words.now }
{
    store_refuse::check_words(words)?;
    asked(pair, tag, words)
}

// The question of words that say a store.
pub fn asked(pair: HeldPair, tag: TagId, words: &[u32]) -> Result<Answer, Refusal>
    requires { Says words.now (said words.now) }
    ensures { numbered result ≡ question_reply pair tag.0 words.now }
{
    let book = words[words::AT_BOOK];
    if pair.book != book {
        return Ok(Answer::Stale);
    }
    let section = pair.tag;
    let n = words::count_of(words);
    if n <= section.0 || n <= tag.0 {
        return Err(Refusal::NoSuchTag);
    }
    if words::kind_of(words, section) % words::MARK != words::KIND_BEGIN {
        return Err(Refusal::NotASection);
    }
    answer(pair, tag, words)
}

// The rest of the question, where the pair is of this book and its tag is a begin.
fn answer(pair: HeldPair, tag: TagId, words: &[u32]) -> Result<Answer, Refusal>
    requires { PairAsked words.now pair tag.0 }
    ensures { numbered result ≡ question_reply pair tag.0 words.now }
{
    if !is_current(pair, words) {
        return Ok(Answer::Stale);
    }
    if words::MARK <= words::kind_of(words, tag) {
        return Err(Refusal::TagMarked);
    }
    let label = words::label_of(words, tag);
    let start = pair.start;
    let end = pair.end;
    if start.0 < label.0 && label.0 < end.0 {
        return Ok(Answer::Yes);
    }
    Ok(Answer::No)
}

// Whether a pair's labels are the current ones and its section is not marked.
fn is_current(pair: HeldPair, words: &[u32]) -> bool
    requires { TagSaid words.now pair.tag.0 }
    ensures { result ≡ current (said words.now) pair }
{
    let section = pair.tag;
    let start = words::label_of(words, section);
    let end = end_label(section, words);
    if start != pair.start {
        return false;
    }
    if end != pair.end {
        return false;
    }
    words::kind_of(words, section) < words::MARK
}

// The label of a section's end tag: a text's own.
fn end_label(section: TagId, words: &[u32]) -> Label
    requires { TagSaid words.now section.0 }
    ensures { result.0 ≡ label (said words.now) (fact (said words.now) section.0).mate }
{
    let mate = words::mate_of(words, section);
    words::label_of(words, mate)
}
