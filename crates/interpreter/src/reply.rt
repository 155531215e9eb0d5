// A line's reply: the call that it asks for, made on the store, and what the call replies as text.
ghost use Rattle.std.specs.Prelude.{◌≡◌, [], ◌++◌, ◌≤◌, length};
ghost use Rattle.reply_text.specs.Room.{LineRoom};
ghost use Rattle.calls.specs.Replies.{load_words, insert_words, mark_words};
ghost use Rattle.interpreter.specs.Answer.{load_text, insert_text, mark_text, list_text, line_text, line_words};
ghost use Rattle.interpreter.specs.Room.{out_size};

use crate::{BOOK_TAGS, Reply, say};
use console::{Command, LINE_LIMIT};
use store_types::TagId;

#[tactic(auto, unfolding(crate::specs::Answer::load_text))]
fn load(s: u32, r: u32, book: u32, kinds: &[u8], words: &mut [u32], out: &mut Reply)
    requires { LineRoom out_size out.old }
    ensures words { words.new ≡ load_words s r book kinds.now words.old }
    ensures text { out.new ≡ out.old ++ load_text s r book kinds.now words.old }
{
    let reply = store::load(s, r, book, kinds, words);
    say::loaded(reply, out)
}

#[tactic(auto, unfolding(crate::specs::Answer::insert_text))]
fn insert(kind: u8, place: TagId, words: &mut [u32], out: &mut Reply)
    requires { LineRoom out_size out.old }
    ensures words { words.new ≡ insert_words kind place.0 words.old }
    ensures text { out.new ≡ out.old ++ insert_text kind place.0 words.old }
{
    let reply = store::insert(kind, place, words);
    say::inserted(reply, out)
}

#[tactic(auto, unfolding(crate::specs::Answer::mark_text))]
fn mark(tag: TagId, words: &mut [u32], out: &mut Reply)
    requires { LineRoom out_size out.old }
    ensures words { words.new ≡ mark_words tag.0 words.old }
    ensures text { out.new ≡ out.old ++ mark_text tag.0 words.old }
{
    let reply = store::mark(tag, words);
    say::marked(reply, out)
}

// The whole book.
fn list(words: &[u32], out: &mut Reply)
    requires { out.old ≡ [] }
    ensures { out.new ≡ out.old ++ list_text words.now }
{
    let mut tags = [0u32; BOOK_TAGS];
    let mut labels = [0u32; BOOK_TAGS];
    let front = TagId::NONE;
    match store::list(front, words, &mut tags, &mut labels) {
        Ok(n) => {
            let count = n as usize;
            say::listed(&tags[..count], &labels[..count], out);
        }
        Err(refusal) => reply_text::no_line(out, refusal.number()),
    }
}

// A line without its line feed: the store after it, and its reply.
pub fn answer(line: &[u8], words: &mut [u32], out: &mut Reply)
    ensures words { words.new ≡ line_words line.now words.old }
    ensures text { out.new ≡ line_text line.now words.old }
{
    out.clear();
    let mut kinds = [0u8; LINE_LIMIT];
    let Some(command) = console::parse(line, &mut kinds) else {
        reply_text::unknown_line(out);
        return;
    };
    match command {
        Command::Load {
            s,
            r,
            book,
            kinds: n,
        } => load(s, r, book, &kinds[..n], words, out),
        Command::Insert { kind, place } => insert(kind, place, words, out),
        Command::Mark(tag) => mark(tag, words, out),
        Command::List => list(words, out),
    }
}
