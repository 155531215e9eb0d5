// Entries one after the other over one lent store. The contract is a history of the system's calls with their replies
// (system/specs/System.antt): the entries' contracts are what the theorems on histories speak of.
#![tactic(auto)]

ghost use Rattle.std.specs.Prelude.{[], ◌∷◌};
ghost use Rattle.store_types.specs.Replies.{numbered};
ghost use Rattle.calls.specs.Changes.{load as load_call, insert as insert_call, sheet as sheet_call, mark as mark_call};
ghost use Rattle.system.specs.System.{hold as hold_call, ask, list as list_call, write as write_call, changes, reads, loaded, inserted, marked, found, held, answered, listed, filed, reply, step};
ghost use Rattle.system.specs.Histories.{Ran};
ghost use Rattle.calls_run.specs.Over.{over};

use store_types::{Answer, HeldPair, Inserted, Loaded, Refusal, TagId};

// What is asked: the load's numbers, the place of an insertion and of a sheet of the load's kinds, the section that is marked, held
// and listed, a pair and a tag.
#[derive(Clone, Copy)]
pub struct Requests {
    pub s: u32,
    pub r: u32,
    pub book: u32,
    pub kind: u8,
    pub place: TagId,
    pub section: TagId,
    pub pair: HeldPair,
    pub tag: TagId,
}

// What each call replied.
#[derive(Clone, Copy)]
pub struct Replies {
    pub load: Result<Loaded, Refusal>,
    pub insert: Result<Inserted, Refusal>,
    pub sheet: Result<Inserted, Refusal>,
    pub mark: Result<u32, Refusal>,
    pub hold: Result<HeldPair, Refusal>,
    pub question: Result<Answer, Refusal>,
    pub list: Result<u32, Refusal>,
    pub write: Result<u32, Refusal>,
}

pub fn calls_run(
    asked: Requests,
    kinds: &[u8],
    words: &mut [u32],
    tags: &mut [u32],
    labels: &mut [u32],
    bytes: &mut [u8],
) -> Replies
    ensures { Ran step reply (changes (load_call asked.s asked.r asked.book kinds.now) ∷ changes (insert_call asked.kind asked.place.0) ∷ changes (sheet_call kinds.now asked.place.0) ∷ changes (mark_call asked.section.0) ∷ reads (hold_call asked.section.0) ∷ reads (ask asked.pair asked.tag.0) ∷ reads (list_call asked.section.0 tags.old labels.old) ∷ reads (write_call bytes.old) ∷ []) (over words.old) (loaded (numbered result.load) ∷ inserted (numbered result.insert) ∷ inserted (numbered result.sheet) ∷ marked (numbered result.mark) ∷ found (held (numbered result.hold)) [] ∷ found (answered (numbered result.question)) [] ∷ found (listed (numbered result.list)) (tags.new ∷ labels.new ∷ []) ∷ found (filed (numbered result.write)) (bytes.new ∷ []) ∷ []) (over words.new) }
{
    let load = store::load(asked.s, asked.r, asked.book, kinds, words);
    let insert = store::insert(asked.kind, asked.place, words);
    let sheet = store::insert_sheet(kinds, asked.place, words);
    let mark = store::mark(asked.section, words);
    let hold = store::hold(asked.section, words);
    let question = store::question(asked.pair, asked.tag, words);
    let list = store::list(asked.section, words, tags, labels);
    let write = store::write_file(words, bytes);
    Replies {
        load,
        insert,
        sheet,
        mark,
        hold,
        question,
        list,
        write,
    }
}
