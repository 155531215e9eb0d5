// The whole judgement of a file: its header, and the pass over its records.
ghost use Rattle.std.specs.Prelude.{◌≡◌, List, ℕ, ◌≤◌, length};
ghost use Rattle.store_types.specs.Layout.{header_words};
ghost use Rattle.store_types.specs.FileLayout.{file_bytes};
ghost use Rattle.calls.specs.File.{count_in};
ghost use Rattle.shape.specs.Needs.{frame_passes};
ghost use Rattle.file_model.specs.Judge.{judged as judged_so};
ghost use Rattle.file_pass.specs.Needs.{FileFits, passes_all, judgement};
ghost use Rattle.file_walk.specs.Needs.{SaidBy};

use file_pass::{Fault, pass};
use shape::Tables;
use store_types::Label;
use walk::Extent;

// Places for begins that are open at once, and one for the tag behind them: for the 1,024 of usual books, and for half of
// all tags that a book can have.
const FEW_OPEN: usize = 1025;

const MOST_OPEN: usize = 100001;

// With places for all that can be open, so that the pass never says that they are too few. If it did, the function would call
// itself: what calls itself the compiler does not put into its callers, so these places take stack in deep books alone.
fn with_most(bytes: &[u8], header: &[u32], size: Extent, tables: &Tables) -> Result<(), Fault>
    requires { FileFits bytes.now header.now size.n size.under tables.now }
    ensures { result ≡ judgement (passes_all bytes.now tables.now size.under size.n) }
{
    let mut opens = [0u32; MOST_OPEN];
    match pass(bytes, header, size, tables, &mut opens) {
        Err(Fault::TooDeep) => match with_most(bytes, header, size, tables) {
            Err(Fault::TooDeep) => Err(Fault::Unsound),
            again => again,
        },
        told => told,
    }
}

// By the pass with places for few open begins, or where these do not suffice with places for all.
fn all_pass(bytes: &[u8], header: &[u32], size: Extent, tables: &Tables) -> bool
    requires { FileFits bytes.now header.now size.n size.under tables.now }
    ensures { result ≡ passes_all bytes.now tables.now size.under size.n }
{
    let mut opens = [0u32; FEW_OPEN];
    match pass(bytes, header, size, tables, &mut opens) {
        Err(Fault::TooDeep) => with_most(bytes, header, size, tables).is_ok(),
        told => told.is_ok(),
    }
}

// The header's own tests, as shape::frame_passes has them: the words that a file says are as many as they must be.
fn ranges_fit(header: &[u32]) -> bool
    requires { header_words ≤ length header.now }
    ensures { (ws : List ℕ) → SaidBy header.now ws → result ≡ frame_passes ws }
{
    let s = header[words::AT_S];
    if !shape::degree_fits(s) {
        return false;
    }
    let r = header[words::AT_R];
    if !shape::degree_fits(r) {
        return false;
    }
    let h = header[words::AT_HEIGHT];
    if h < 1 {
        return false;
    }
    if shape::MOST_LEVELS < h {
        return false;
    }
    if store_types::MOST_TAGS < header[words::AT_COUNT] {
        return false;
    }
    shape::height_fits(s, r, h)
}

// Whether bytes of the form are the file of a sound book: refusal 2 where they are not.
pub fn judged(bytes: &[u8]) -> bool
    requires { length bytes.now ≡ file_bytes (count_in bytes.now) }
    ensures { result ≡ judged_so bytes.now }
{
    let header = file_form::header(bytes);
    if !ranges_fit(&header) {
        return false;
    }
    let s = header[words::AT_S] as u64;
    let r = header[words::AT_R] as u64;
    let h = header[words::AT_HEIGHT] as usize;
    let n = header[words::AT_COUNT];
    let widths = shape::widths(&header);
    let lows = shape::table(1, r, h);
    let highs = shape::table(s, r, h);
    if !shape::root_passes(n, h, &lows, &highs) {
        return false;
    }
    let numbers = walk_levels::ancestors::numbers(Label(0), h - 1, &widths);
    let tables = Tables {
        widths,
        lows,
        highs,
        numbers,
    };
    let size = Extent { n, under: h - 1 };
    all_pass(bytes, &header, size, &tables)
}
