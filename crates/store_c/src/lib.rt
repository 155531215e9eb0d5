// The calls on a store, those on its file and the one on a sheet for C, as include/vekhturop.h declares them: a lent slice is a pointer
// and a length there, a reply a struct of numbers. Each contract is that of the entry it calls, through the flat form of the reply; none
// has a `requires`. The calls for parties are in crate rights_c; tools/library joins both.
#![tactic(auto)]

ghost use Rattle.std.specs.Prelude.{◌≡◌};
ghost use Rattle.calls.specs.Replies.{load_reply, load_words, insert_reply, insert_words, insert_sheet_reply, insert_sheet_words, mark_reply, mark_words, hold_reply, question_reply, list_reply, list_tags, list_labels, write_reply, write_bytes, read_reply, read_words};
ghost use Rattle.c_replies.specs.Flat.{c_loaded, c_inserted, c_held, c_answered, c_counted, c_places, pair_of};
ghost use Rattle.xml.specs.Replies.{sheet_reply, sheet_list};

use c_replies::{Answered, Counted, CountedPlaces, Held, Inserted, Loaded};
use store_types::TagId;

#[unsafe(no_mangle)]
pub extern "C" fn vk_load(s: u32, r: u32, book: u32, kinds: &[u8], words: &mut [u32]) -> Loaded
    ensures reply { result ≡ c_loaded (load_reply s r book kinds.now words.old) }
    ensures words { words.new ≡ load_words s r book kinds.now words.old }
{
    store::load(s, r, book, kinds, words).into()
}

#[unsafe(no_mangle)]
pub extern "C" fn vk_insert(kind: u8, place: u32, words: &mut [u32]) -> Inserted
    ensures reply { result ≡ c_inserted (insert_reply kind place words.old) }
    ensures words { words.new ≡ insert_words kind place words.old }
{
    store::insert(kind, TagId(place), words).into()
}

#[unsafe(no_mangle)]
pub extern "C" fn vk_insert_sheet(kinds: &[u8], place: u32, words: &mut [u32]) -> Inserted
    ensures reply { result ≡ c_inserted (insert_sheet_reply kinds.now place words.old) }
    ensures words { words.new ≡ insert_sheet_words kinds.now place words.old }
{
    store::insert_sheet(kinds, TagId(place), words).into()
}

#[unsafe(no_mangle)]
pub extern "C" fn vk_mark(tag: u32, words: &mut [u32]) -> Counted
    ensures reply { result ≡ c_counted (mark_reply tag words.old) }
    ensures words { words.new ≡ mark_words tag words.old }
{
    store::mark(TagId(tag), words).into()
}

#[unsafe(no_mangle)]
pub extern "C" fn vk_hold(tag: u32, words: &[u32]) -> Held
    ensures { result ≡ c_held (hold_reply tag words.now) }
{
    store::hold(TagId(tag), words).into()
}

#[unsafe(no_mangle)]
pub extern "C" fn vk_question(
    book: u32,
    tag: u32,
    start: u32,
    end: u32,
    d: u32,
    words: &[u32],
) -> Answered
    ensures { result ≡ c_answered (question_reply (pair_of book tag start end) d words.now) }
{
    let pair = c_replies::pair_of(book, tag, start, end);
    store::question(pair, TagId(d), words).into()
}

#[unsafe(no_mangle)]
pub extern "C" fn vk_list(
    begin: u32,
    words: &[u32],
    tags: &mut [u32],
    labels: &mut [u32],
) -> Counted
    ensures reply { result ≡ c_counted (list_reply begin words.now tags.old labels.old) }
    ensures tags { tags.new ≡ list_tags begin words.now tags.old labels.old }
    ensures labels { labels.new ≡ list_labels begin words.now tags.old labels.old }
{
    store::list(TagId(begin), words, tags, labels).into()
}

#[unsafe(no_mangle)]
pub extern "C" fn vk_write_file(words: &[u32], bytes: &mut [u8]) -> Counted
    ensures reply { result ≡ c_counted (write_reply words.now bytes.old) }
    ensures bytes { bytes.new ≡ write_bytes words.now bytes.old }
{
    store::write_file(words, bytes).into()
}

#[unsafe(no_mangle)]
pub extern "C" fn vk_read_file(bytes: &[u8], words: &mut [u32]) -> Loaded
    ensures reply { result ≡ c_loaded (read_reply bytes.now words.old) }
    ensures words { words.new ≡ read_words bytes.now words.old }
{
    store::read_file(bytes, words).into()
}

#[unsafe(no_mangle)]
pub extern "C" fn vk_xml_kinds(text: &[u8], kinds: &mut [u8]) -> CountedPlaces
    ensures reply { result ≡ c_places (sheet_reply text.now kinds.old) }
    ensures list { kinds.new ≡ sheet_list text.now kinds.old }
{
    xml_read::xml_kinds(text, kinds).into()
}
