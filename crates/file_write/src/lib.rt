// Writing a book to a file (document 02, CR 3): its header, its tags in one pass along next, and their number, each record where
// the one before it ends.
#![tactic(auto)]

ghost use Rattle.std.specs.Prelude.{◌≡◌, [], ◌∷◌, ◌+◌, ◌≤◌, length, drop};
ghost use Rattle.std.proofs.lemmas.List.Edits.{sets};
ghost use Rattle.store_types.specs.FileLayout.{header_kind, tag_kind, end_kind, front_bytes, row_words, row_bytes, end_bytes, file_bytes, record_place};
ghost use Rattle.store_types.specs.Records.{record_number};
ghost use Rattle.store_types.specs.Replies.{numbered, refusal_in};
ghost use Rattle.lists.specs.Fronts.{in_front};
ghost use Rattle.calls.specs.Store.{count, row};
ghost use Rattle.calls.specs.Words.{Says, header};
ghost use Rattle.calls.specs.File.{record_front, file_record, tag_row, file_of};
ghost use Rattle.calls.specs.Replies.{refusal_over, said, write_refusal, write_reply, write_bytes};
ghost use Rattle.store_refuse.specs.Needs.{TagSaid};
ghost use Rattle.file_write.specs.Records.{tag_records, FileRoom};

use store_types::file::{self, RecordKind};
use store_types::{Refusal, TagId};

// What stands before the so many words of a record: how many bytes follow, and its kind.
fn put_front(bytes: &mut [u8], at: usize, kind: RecordKind, words: usize)
    requires row { words ≤ row_words }
    requires room { at + front_bytes ≤ length bytes.old }
    ensures { bytes.new ≡ sets bytes.old at (record_front (record_number kind) words) }
{
    let follow = file::KIND_BYTES + file::WORD_BYTES * words;
    little_endian::put_u32(bytes, at, follow as u32);
    little_endian::put_u16(bytes, at + file::LENGTH_BYTES, kind.number());
}

// The header but for its first word, from the file's first byte on.
fn put_header(words: &[u32], bytes: &mut [u8])
    requires says { Says words.now (said words.now) }
    requires room { row_bytes ≤ length bytes.old }
    ensures { bytes.new ≡ sets bytes.old 0 (file_record header_kind (drop 1 (header (said words.now)))) }
{
    put_front(bytes, 0, RecordKind::Header, file::ROW_WORDS);
    let from = words::AT_S;
    let to = words::HEADER_WORDS;
    little_endian::put_words(bytes, file::FRONT_BYTES, &words[from..to]);
}

// A tag: its number and the words of its record that a file keeps.
fn put_tag(words: &[u32], tag: TagId, bytes: &mut [u8], at: usize)
    requires tag_said { TagSaid words.now tag.0 }
    requires room { at + row_bytes ≤ length bytes.old }
    ensures { bytes.new ≡ sets bytes.old at (file_record tag_kind (tag_row (said words.now) tag.0)) }
{
    put_front(bytes, at, RecordKind::Tag, file::ROW_WORDS);
    let number = at + file::FRONT_BYTES;
    little_endian::put_u32(bytes, number, tag.0);
    let from = words::words_for(tag.0 as usize);
    let to = from + file::KEPT_WORDS;
    little_endian::put_words(bytes, number + file::WORD_BYTES, &words[from..to]);
}

// The tags in book order, behind the header; where the last record goes.
fn put_tags(words: &[u32], bytes: &mut [u8]) -> usize
    requires { FileRoom words.now bytes.old }
    ensures place { result ≡ record_place (count (said words.now)) }
    ensures bytes { bytes.new ≡ sets bytes.old row_bytes (tag_records (said words.now) (row (said words.now))) }
{
    let n = words::count_of(words);
    let mut tag = words::first_of(words);
    let mut at = file::ROW_BYTES;
    for _ in 0..n {
        put_tag(words, tag, bytes, at);
        tag = words::next_of(words, tag);
        at += file::ROW_BYTES;
    }
    at
}

// The last record, which says how many tags there are.
fn put_end(bytes: &mut [u8], at: usize, n: u32)
    requires { at + end_bytes ≤ length bytes.old }
    ensures { bytes.new ≡ sets bytes.old at (file_record end_kind (n ∷ [])) }
{
    put_front(bytes, at, RecordKind::End, file::END_WORDS);
    little_endian::put_u32(bytes, at + file::FRONT_BYTES, n);
}

// The whole file; how many bytes it has.
fn put_file(words: &[u32], bytes: &mut [u8]) -> usize
    requires { FileRoom words.now bytes.old }
    ensures count { result ≡ file_bytes (count (said words.now)) }
    ensures bytes { bytes.new ≡ in_front (file_of (said words.now)) bytes.old }
{
    let n = words::count_of(words);
    put_header(words, bytes);
    let at = put_tags(words, bytes);
    put_end(bytes, at, n);
    at + file::END_BYTES
}

// 1 and 2 of the words; then 16 where so many lent bytes are too few.
fn check_lent(words: &[u32], lent: usize) -> Result<(), Refusal>
    ensures { refusal_in result ≡ refusal_over words.now (write_refusal lent) }
{
    store_refuse::check_words(words)?;
    let n = words::count_of(words) as usize;
    let needed = file::file_bytes(n);
    if lent < needed {
        return Err(Refusal::TooFewBytes);
    }
    Ok(())
}

// Writing a file: the book of the words to the front of the lent bytes.
pub fn write_file(words: &[u32], bytes: &mut [u8]) -> Result<u32, Refusal>
    ensures reply { numbered result ≡ write_reply words.now bytes.old }
    ensures bytes { bytes.new ≡ write_bytes words.now bytes.old }
{
    check_lent(words, bytes.len())?;
    let count = put_file(words, bytes);
    Ok(count as u32)
}
