// The records of new tags in one pass: of a whole book with their labels, and of a row that goes into one.
#![tactic(auto)]

ghost use Rattle.std.specs.Prelude.{◌≡◌, [], map, length};
ghost use Rattle.calls.specs.Kind.{kind_of};
ghost use Rattle.calls.specs.Nesting.{new_facts};
ghost use Rattle.edit_model.specs.Insert.{with_records};
ghost use Rattle.load_tags.specs.Tags.{TreesFit, labels_new, TagsFit, RowFits, TagsWritten};

use load_record::{Open, Row, write_tag};
use shape::TABLE_LENGTH;
use store_types::{Label, TagId};

// No tag has this label.
const NO_LABEL: u32 = 4294967295;

// All tags, in trees of height `under` that have these widths. Gaps and leaves stand by height less one.
pub fn write_tags(
    words: &mut [u32],
    kinds: &[u8],
    r: u64,
    under: usize,
    widths: &[u64; TABLE_LENGTH],
)
    requires { TagsFit words.old kinds.now × TreesFit r (length kinds.now) under widths.now }
    ensures { TagsWritten words.old words.new kinds.now (labels_new r widths.now (length kinds.now) under) }
{
    let n = kinds.len() as u32;
    let row = Row {
        first: 0,
        end: n,
        prior: TagId::NONE,
        next: TagId::NONE,
    };
    let gaps = load_nodes::gaps(r, under, widths);
    let lows = shape::table(r, r, under);
    let mut begins = load_nodes::first_begins(n as u64, under, &lows);
    let mut inside = Open {
        begin: TagId::NONE,
        around: TagId::NONE,
        known: false,
        depth: 0,
    };
    let mut label: u64 = 0;
    for (i, kind) in kinds.iter().enumerate() {
        label = load_nodes::begin_nodes(i as u64, n as u64, label, &gaps, &lows, &mut begins);
        inside = write_tag(words, i as u32, row, *kind, Label(label as u32), inside);
        label = shape::sum(label, widths[0]);
    }
}

// The records of a row inside a begin, or inside none, where so many begins are open. Their labels are none that a tag can have:
// they are numbered later, and count as moved there.
pub fn write_row(words: &mut [u32], kinds: &[u8], row: Row, up: TagId, depth: u32)
    requires { RowFits words.old kinds.now row up.0 depth }
    ensures { words.new ≡ with_records words.old row.first row.prior.0 row.next.0 (new_facts up.0 [] depth row.first (map kind_of kinds.now)) }
{
    let mut inside = Open {
        begin: up,
        around: TagId::NONE,
        known: false,
        depth,
    };
    for (i, kind) in kinds.iter().enumerate() {
        let x = row.first + i as u32;
        inside = write_tag(words, x, row, *kind, Label(NO_LABEL), inside);
    }
}
