// The form of a file, from its bytes alone (document 02, CR 3): refusal 15; and the words of its records, each read at its place.
#![tactic(auto)]

ghost use Rattle.std.specs.Prelude.{◌≡◌, suc, ◌+◌, ◌≤◌, ◌<◌, length, drop};
ghost use Rattle.store_types.specs.Layout.{header_words, word_at};
ghost use Rattle.store_types.specs.FileLayout.{kept_words, front_bytes, row_words, row_bytes, file_bytes};
ghost use Rattle.store_types.specs.Records.{record_number};
ghost use Rattle.calls.specs.File.{header_in, count_in, begins as begins_so, tags_formed as tags_formed_so, formed as formed_so, rows_in};
ghost use Rattle.file_model.specs.Judge.{row_word as word_of_row};
ghost use Rattle.file_form.specs.Needs.{RowThere};

use store_types::file::{self, RecordKind};
use words::HEADER_WORDS;

// Word k of the header that a file says, from the second on: the first is not in the file.
pub fn header_word(bytes: &[u8], k: usize) -> u32
    requires { (row_bytes ≤ length bytes.now) × (1 ≤ k) × (k < header_words) }
    ensures { result ≡ word_at (header_in bytes.now) k }
{
    little_endian::u32_at(bytes, file::FRONT_BYTES + file::WORD_BYTES * (k - 1))
}

// The header of the store that a file says.
pub fn header(bytes: &[u8]) -> [u32; HEADER_WORDS]
    requires { row_bytes ≤ length bytes.now }
    ensures { result ≡ header_in bytes.now }
{
    [
        words::VERSION,
        header_word(bytes, words::AT_S),
        header_word(bytes, words::AT_R),
        header_word(bytes, words::AT_HEIGHT),
        header_word(bytes, words::AT_COUNT),
        header_word(bytes, words::AT_FIRST),
        header_word(bytes, words::AT_BOOK),
        header_word(bytes, words::AT_STAMP),
    ]
}

// How many tags the header says.
pub fn count(bytes: &[u8]) -> u32
    requires { row_bytes ≤ length bytes.now }
    ensures { result ≡ count_in bytes.now }
{
    header_word(bytes, words::AT_COUNT)
}

// Word k of the i-th tag's record.
pub fn row_word(bytes: &[u8], i: u32, k: usize) -> u32
    requires { RowThere bytes.now i × (k < row_words) }
    ensures { result ≡ word_of_row (rows_in bytes.now) i k }
{
    let at = file::ROW_BYTES + file::ROW_BYTES * (i as usize) + file::FRONT_BYTES;
    little_endian::u32_at(bytes, at + file::WORD_BYTES * k)
}

// Field k of the i-th tag's record, by its place in the store's record, of which a file has all words but the depth.
pub fn row_field(bytes: &[u8], i: u32, k: usize) -> u32
    requires { RowThere bytes.now i × (k < kept_words) }
    ensures { result ≡ word_of_row (rows_in bytes.now) i (suc k) }
{
    row_word(bytes, i, file::AT_LABEL + k)
}

// Whether a record of a kind and of so many words begins at a place.
fn begins(bytes: &[u8], at: usize, kind: RecordKind, words: usize) -> bool
    requires { (at + front_bytes ≤ length bytes.now) × (words ≤ row_words) }
    ensures { result ≡ begins_so (record_number kind) words (drop at bytes.now) }
{
    let follows = file::KIND_BYTES + file::WORD_BYTES * words;
    if little_endian::u32_at(bytes, at) != follows as u32 {
        return false;
    }
    little_endian::u16_at(bytes, at + file::LENGTH_BYTES) == kind.number()
}

// The records of n tags, and the last one, which says n too.
fn tags_formed(bytes: &[u8], n: u32) -> bool
    requires { length bytes.now ≡ file_bytes n }
    ensures { result ≡ tags_formed_so n n (drop row_bytes bytes.now) }
{
    let mut at = file::ROW_BYTES;
    for _ in 0..n {
        if !begins(bytes, at, RecordKind::Tag, file::ROW_WORDS) {
            return false;
        }
        at += file::ROW_BYTES;
    }
    if !begins(bytes, at, RecordKind::End, file::END_WORDS) {
        return false;
    }
    little_endian::u32_at(bytes, at + file::FRONT_BYTES) == n
}

// Whether bytes are of the form: refusal 15 where they are not.
pub fn formed(bytes: &[u8]) -> bool
    ensures { result ≡ formed_so bytes.now }
{
    if bytes.len() < file::ROW_BYTES + file::END_BYTES {
        return false;
    }
    let n = count(bytes);
    if bytes.len() != file::file_bytes(n as usize) {
        return false;
    }
    if !begins(bytes, 0, RecordKind::Header, file::ROW_WORDS) {
        return false;
    }
    tags_formed(bytes, n)
}
