// The judging pass over the records of a file (document 02, CR 3): the soundness walk of the words that they say, record by record in
// the order of the file. What the walk reads of the open begins is read at their places; these and the numbers met so far are all
// that it keeps. It makes no test of depth: what the kinds give is right where the other tests pass (document 02, CR 7).
#![tactic(auto)]

ghost use Rattle.std.specs.Prelude.{◌≡◌, cond, ◌-◌, ◌≤◌, eqb, length, get_or};
ghost use Rattle.file_pass.specs.Needs.{FileFits, passes_all, JudgedSo};

use number_set::SET_WORDS;
use shape::{TABLE_LENGTH, Tables};
use store_types::{Label, file};
use walk::Extent;
use walk_levels::Levels;
use words::Offset;

// Why a pass does not say that the book of a file is sound: more begins are open than there are places, which settles nothing; or it
// is not sound.
#[derive(Clone, Copy, Debug, PartialEq, Eq)]
pub enum Fault {
    TooDeep,
    Unsound,
}

// Where the innermost open begin stands; of no account where none is open.
fn top_of(opens: &[u32], depth: usize) -> u32
    requires { depth ≤ length opens.now }
    ensures { result ≡ cond (eqb depth 0) 0 (get_or opens.now (depth - 1) 0) }
{
    if depth == 0 {
        return 0;
    }
    opens[depth - 1]
}

// The pass: one row after the other. Where more begins are open than rows are left, not all can be closed; so no more are ever
// open than half of the tags.
pub fn pass(
    bytes: &[u8],
    header: &[u32],
    size: Extent,
    tables: &Tables,
    opens: &mut [u32],
) -> Result<(), Fault>
    requires { FileFits bytes.now header.now size.n size.under tables.now }
    ensures { JudgedSo result (passes_all bytes.now tables.now size.under size.n) (length opens.old) size.n }
{
    let pairs = walk_tags::pairs();
    let mut met = [0u32; SET_WORDS];
    let mut levels = Levels::new(&tables.widths);
    let mut sizes = [0u32; TABLE_LENGTH];
    let first = words::first_of(header);
    let mut v = walk::started(first, Offset::of(first));
    while v.place < size.n {
        if ((size.n - v.place) as u64) < v.depth {
            return Err(Fault::Unsound);
        }
        if opens.len() <= v.depth as usize {
            return Err(Fault::TooDeep);
        }
        if !file_tags::number_fits(bytes, size.n, v, &mut met) {
            return Err(Fault::Unsound);
        }
        let label = Label(file_form::row_word(bytes, v.place, file::AT_LABEL));
        if !file_tags::label_fits(label, size, v, tables, &mut levels, &mut sizes) {
            return Err(Fault::Unsound);
        }
        if !file_tags::tag_fits(&pairs, bytes, size.n, v, top_of(opens, v.depth as usize)) {
            return Err(Fault::Unsound);
        }
        // Before the place is written, so that what has been read of the row need not be read again.
        let behind = file_tags::passed(bytes, levels.ends[1], v);
        file_tags::opened(opens, v);
        v = behind;
    }
    if walk::ends_well(header, size, v, tables, &levels, &mut sizes) {
        return Ok(());
    }
    Err(Fault::Unsound)
}
