// Where everything stands in a file (document 02, CR 3). Later requests add records and lengths, so each has its name.
ghost use Rattle.std.specs.Prelude.{◌≡◌, ◌<◌};
ghost use Rattle.store_types.specs.FileLayout.{file_bytes as bytes_of_file};
ghost use Rattle.store_types.specs.Records.{record_number};

// The kinds of records: the header's, a tag's, the last.
#[derive(Clone, Copy, Debug, PartialEq, Eq)]
pub enum RecordKind {
    Header = 1,
    Tag = 2,
    End = 3,
}

impl RecordKind {
    // Its number in a file.
    pub fn number(self) -> u16
        ensures { result ≡ record_number self }
    {
        self as u16
    }
}

// Bytes of a length, of a kind and of a word; so of what stands before the words of a record.
pub const LENGTH_BYTES: usize = 4;

pub const KIND_BYTES: usize = 2;

pub const WORD_BYTES: usize = 4;

pub const FRONT_BYTES: usize = LENGTH_BYTES + KIND_BYTES;

// Words of the header's record and of a tag's, and of the last record.
pub const ROW_WORDS: usize = 7;

pub const END_WORDS: usize = 1;

pub const ROW_BYTES: usize = FRONT_BYTES + WORD_BYTES * ROW_WORDS;

pub const END_BYTES: usize = FRONT_BYTES + WORD_BYTES * END_WORDS;

// Words of the store's record of a tag that a file keeps: all but the last, its depth, which the kinds give (document 02, CR 7).
pub const KEPT_WORDS: usize = 6;

// Words of a tag's record: its number and its label; its fields stand behind them in the order of the store's record.
pub const AT_NUMBER: usize = 0;

pub const AT_LABEL: usize = 1;

// How many bytes the file of n tags has.
pub fn file_bytes(n: usize) -> usize
    requires { n < 4294967296 }
    ensures { result ≡ bytes_of_file n }
{
    ROW_BYTES + ROW_BYTES * n + END_BYTES
}
