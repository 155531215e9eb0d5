// Reading a file into lent words (document 02, CR 3): the bytes are judged first, and nothing is written before.
#![tactic(auto)]

ghost use Rattle.std.specs.Prelude.{◌≡◌, [], ◌∷◌, ◌++◌, ◌≤◌, length, get_or};
ghost use Rattle.store_types.specs.Layout.{header_words, Room};
ghost use Rattle.store_types.specs.FileLayout.{at_number};
ghost use Rattle.store_types.specs.Replies.{numbered};
ghost use Rattle.lists.specs.Fronts.{in_front};
ghost use Rattle.calls.specs.File.{rows_in, deepened};
ghost use Rattle.calls.specs.Replies.{read_reply, read_words};
ghost use Rattle.file_form.specs.Needs.{RowThere};
ghost use Rattle.file_model.specs.Judge.{row_word as word_of_row, with_row, with_rows};
ghost use Rattle.file_read.specs.Needs.{RowsFit};

use store_types::{Label, Loaded, Refusal, TagId, file};
use words::HEADER_WORDS;

// The header goes in front.
fn put_header(words: &mut [u32], header: &[u32])
    requires { (length header.now ≡ header_words) × (header_words ≤ length words.old) }
    ensures { words.new ≡ in_front header.now words.old }
{
    words[..HEADER_WORDS].copy_from_slice(header);
}

// The words of the i-th row and its depth go into the record of its number.
fn put_row(bytes: &[u8], i: u32, depth: u32, words: &mut [u32])
    requires { RowThere bytes.now i × Room words.old (word_of_row (rows_in bytes.now) i at_number) }
    ensures { words.new ≡ with_row words.old (get_or (rows_in bytes.now) i [] ++ depth ∷ []) }
{
    let x = TagId(file_form::row_word(bytes, i, file::AT_NUMBER));
    let label = Label(file_form::row_word(bytes, i, file::AT_LABEL));
    let next = TagId(file_form::row_field(bytes, i, words::AT_NEXT));
    let prior = TagId(file_form::row_field(bytes, i, words::AT_PRIOR));
    let mate = TagId(file_form::row_field(bytes, i, words::AT_MATE));
    let up = TagId(file_form::row_field(bytes, i, words::AT_UP));
    let kind = file_form::row_field(bytes, i, words::AT_KIND);
    words::set_label(words, x, label);
    words::set_next(words, x, next);
    words::set_prior(words, x, prior);
    words::set_mate(words, x, mate);
    words::set_up(words, x, up);
    words::set_kind(words, x, kind);
    words::set_depth(words, x, depth);
}

// All n rows, in the order of the file. That is the order of the book, so the begins that are open are counted along it and give each
// tag its depth (document 02, CR 7).
fn put_rows(bytes: &[u8], n: u32, words: &mut [u32])
    requires { RowsFit bytes.now n words.old }
    ensures { words.new ≡ with_rows words.old (deepened 0 (rows_in bytes.now)) }
{
    let mut opens: u32 = 0;
    for i in 0..n {
        let kind = file_form::row_field(bytes, i, words::AT_KIND);
        let depth = kind_pick::own_depth(kind, opens);
        put_row(bytes, i, depth, words);
        opens = kind_pick::opens_after(kind, depth);
    }
}

// Refuses with 15, 1 as on load, 2, in this order; else the book's words are in front, and n and H are the reply.
pub fn read_file(bytes: &[u8], words: &mut [u32]) -> Result<Loaded, Refusal>
    ensures reply { numbered result ≡ read_reply bytes.now words.old }
    ensures words { words.new ≡ read_words bytes.now words.old }
{
    if !file_form::formed(bytes) {
        return Err(Refusal::NotAFile);
    }
    let n = file_form::count(bytes);
    if words.len() < words::words_for(n as usize) {
        return Err(Refusal::TooFewWords);
    }
    if !file_walk::judge::judged(bytes) {
        return Err(Refusal::NotSound);
    }
    let header = file_form::header(bytes);
    put_header(words, &header);
    put_rows(bytes, n, words);
    let height = file_form::header_word(bytes, words::AT_HEIGHT);
    Ok(Loaded { tags: n, height })
}
