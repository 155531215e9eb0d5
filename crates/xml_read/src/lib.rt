// The reader of a sheet (document 02, CR 1): content holds elements and an element holds content.
#![tactic(auto)]

mod nesting;

ghost use Rattle.std.specs.Prelude.{◌≡◌};
ghost use Rattle.store_types.specs.Replies.{numbered};
ghost use Rattle.xml.specs.Replies.{sheet_reply, sheet_list};
ghost use Rattle.xml_read.specs.Sure.{SureSheet};
ghost use Rattle.xml_read.specs.Whole.{ReadWhole, whole_part};

use name_index::NameIndex;
use nesting::content;
use store_types::Refusal;
use xml::MOST_DEPTH;
use xml_pieces::{Cursor, NOT_IN_TEXT};

// What content comes to where it is the whole text: an end tag that is left closes nothing.
fn whole(text: &[u8], part: Result<Cursor, Refusal>) -> Result<usize, Refusal>
    ensures { result ≡ whole_part text.now part }
{
    let c = part?;
    if c.at < text.len() {
        return Err(Refusal::NotASheet);
    }
    Ok(c.count)
}

// The whole text as content. Kinds are written where the list has room, and then the text is one that is accepted.
fn read(text: &[u8], kinds: &mut [u8], index: &mut NameIndex) -> Result<usize, Refusal>
    requires { SureSheet text.now kinds.old }
    ensures { ReadWhole text.now kinds.old kinds.new result }
{
    let from = Cursor {
        at: 0,
        count: 0,
        in_text: NOT_IN_TEXT,
    };
    let part = content(text, from, kinds, MOST_DEPTH, index);
    whole(text, part)
}

// The kinds of a sheet, into a lent list: how many there are. The text is read twice, first with no list, so that a refusal writes
// nothing. The places for names are made here once and lent: in a reader's frame they would stand as often as elements are open.
pub fn xml_kinds(text: &[u8], kinds: &mut [u8]) -> Result<usize, Refusal>
    ensures reply { numbered result ≡ sheet_reply text.now kinds.old }
    ensures list { kinds.new ≡ sheet_list text.now kinds.old }
{
    let mut index = NameIndex::new();
    let count = read(text, &mut kinds[0..0], &mut index)?;
    if kinds.len() < count {
        return Err(Refusal::ListTooShort);
    }
    read(text, kinds, &mut index)
}
