// A party's call (document 02, CR 6) on words, by the question and the insertion of the store; and the two loads that end all grants.
// What is decided on numbers is in party_rules.
#![tactic(auto)]

ghost use Rattle.std.specs.Prelude.{◌≡◌, Err};
ghost use Rattle.store_types.specs.Replies.{numbered, refusal_in};
ghost use Rattle.lists.specs.Fronts.{replied};
ghost use Rattle.calls.specs.Replies.{load_reply, load_words, read_reply, read_words};
ghost use Rattle.calls.specs.Rights.{emptied_by, act_reply, act_words};

use shape::{TABLE_LENGTH, Tables};
use store_types::{Act, INSERT, Loaded, PartyAnswer, Refusal};

pub mod by_number;

// A party's call, where `checked` is 17 or none and `granted` says whether a live grant gives it the right on the pair's section. The
// store is walked once, at the tag.
#[tactic(auto, using(crate::proofs::Parties::of_a_party), unfolding(store_types::specs::Replies::refusal_in, store_types::specs::Replies::numbered))]
pub fn party(
    checked: Result<(), Refusal>,
    granted: bool,
    act: Act,
    words: &mut [u32],
) -> Result<PartyAnswer, Refusal>
    ensures reply { numbered result ≡ replied Err (refusal_in checked) (act_reply granted act words.old) }
    ensures words { words.new ≡ replied (λ _. words.old) (refusal_in checked) (act_words granted act words.old) }
{
    checked?;
    let mut tables = Tables::EMPTY;
    let mut sizes = [0u32; TABLE_LENGTH];
    store_refuse::check_words_at(words, act.tag, &mut tables, &mut sizes)?;
    let asked = held_call::asked(act.pair, act.tag, words);
    if !party_rules::allowed(granted, act, asked) {
        return party_rules::turned_away(asked);
    }
    if act.right != INSERT {
        return Ok(PartyAnswer::Yes);
    }
    party_rules::inserted(insert_call::insert_said(act.kind, act.tag, words, &tables, &sizes))
}

// A load, and where it is accepted the end of all grants.
pub fn load_with_grants(
    s: u32,
    r: u32,
    book: u32,
    kinds: &[u8],
    words: &mut [u32],
    count: &mut usize,
) -> Result<Loaded, Refusal>
    ensures reply { numbered result ≡ load_reply s r book kinds.now words.old }
    ensures words { words.new ≡ load_words s r book kinds.now words.old }
    ensures count { count.new ≡ emptied_by (load_reply s r book kinds.now words.old) count.old }
{
    let reply = load_call::load(s, r, book, kinds, words);
    party_rules::end_grants(reply, count);
    reply
}

// The reading of a file, and where it is accepted the end of all grants.
pub fn read_file_with_grants(
    bytes: &[u8],
    words: &mut [u32],
    count: &mut usize,
) -> Result<Loaded, Refusal>
    ensures reply { numbered result ≡ read_reply bytes.now words.old }
    ensures words { words.new ≡ read_words bytes.now words.old }
    ensures count { count.new ≡ emptied_by (read_reply bytes.now words.old) count.old }
{
    let reply = file_read::read_file(bytes, words);
    party_rules::end_grants(reply, count);
    reply
}
