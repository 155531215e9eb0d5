// What rights for contractors decide on numbers and replies (document 02, CR 6): the ranges, how many grants are looked at, revoking,
// whether a party's call is allowed and what it hears, and what ends all grants. Here the lent list of grants is known by its length and
// by what a search or a gap that was closed replied. Apart from the calls on words, so that a decision is checked alone.
#![tactic(auto)]

ghost use Rattle.std.specs.Prelude.{◌≡◌, ◌-◌, ◌≤◌, Ok, Err};
ghost use Rattle.lists.specs.Fronts.{replied};
ghost use Rattle.calls.specs.Rights.{emptied_by, is_allowed, turned_away as turned_away_so, inserted_reply, is_right, range_refusal, revoke_refused};
ghost use Rattle.store_types.specs.Replies.{numbered, refusal_in};

use store_types::{
    Act, Answer, INSERT, Inserted, Loaded, MOST_PARTY, PartyAnswer, READ, Refusal, WRITE,
};

pub mod by_number;

// 17, before the store is read: a party out of range, rights that do not fit the call, or a count above the list's length.
#[tactic(auto, unfolding(calls::specs::Rights::range_refusal, store_types::specs::Replies::refusal_in, store_types::specs::Replies::number_of))]
pub fn check_range(fit: bool, party: u32, count: usize, room: usize) -> Result<(), Refusal>
    ensures { refusal_in result ≡ range_refusal fit party count room }
{
    if party == 0 || MOST_PARTY < party {
        return Err(Refusal::OutOfRange);
    }
    if !fit || room < count {
        return Err(Refusal::OutOfRange);
    }
    Ok(())
}

// 17 of a party's call, whose right is one of three.
#[tactic(auto, unfolding(calls::specs::Rights::is_right))]
pub fn check_party(party: u32, right: u32, count: usize, room: usize) -> Result<(), Refusal>
    ensures { refusal_in result ≡ range_refusal (is_right right) party count room }
{
    check_range(
        right == READ || right == WRITE || right == INSERT,
        party,
        count,
        room,
    )
}

// 17 of revoking.
#[tactic(auto, unfolding(calls::specs::Rights::revoke_refused))]
pub fn check_revoke(party: u32, count: usize, room: usize) -> Result<(), Refusal>
    ensures { refusal_in result ≡ revoke_refused party count room }
{
    check_range(true, party, count, room)
}

// How many grants a call looks at: none where it is refused.
#[tactic(auto, using(crate::proofs::Replied::by_refusal), unfolding(store_types::specs::Replies::refusal_in))]
pub fn looked_at(checked: Result<(), Refusal>, count: usize) -> usize
    ensures { result ≡ replied (λ _. 0) (refusal_in checked) count }
{
    if checked.is_ok() { count } else { 0 }
}

// Revoking, but for the list: so many grants stay of those that were looked at.
#[tactic(auto, using(crate::proofs::Replied::by_refusal), unfolding(store_types::specs::Replies::refusal_in, store_types::specs::Replies::numbered))]
pub fn revoke(
    checked: Result<(), Refusal>,
    kept: usize,
    count: &mut usize,
) -> Result<usize, Refusal>
    requires { kept ≤ count.old }
    ensures reply { numbered result ≡ replied Err (refusal_in checked) (Ok (count.old - kept)) }
    ensures count { count.new ≡ replied (λ _. count.old) (refusal_in checked) kept }
{
    checked?;
    let live = *count;
    *count = kept;
    Ok(live - kept)
}

// Whether a party may do what it asks for: by what the question answers, and whether a grant gives the right.
#[tactic(auto, unfolding(calls::specs::Rights::is_allowed, store_types::specs::Replies::numbered))]
pub fn allowed(granted: bool, act: Act, asked: Result<Answer, Refusal>) -> bool
    ensures { result ≡ is_allowed granted act (numbered asked) }
{
    match asked {
        Ok(Answer::Yes) => granted,
        Ok(Answer::No) => granted && act.right == INSERT && act.tag == act.pair.tag,
        Ok(Answer::Stale) | Err(_) => false,
    }
}

// What a party hears whose call is not allowed: the question's refusal, stale, or 18.
#[tactic(auto, unfolding(calls::specs::Rights::turned_away, store_types::specs::Replies::numbered, store_types::specs::Replies::number_of))]
pub fn turned_away(asked: Result<Answer, Refusal>) -> Result<PartyAnswer, Refusal>
    ensures { numbered result ≡ turned_away_so (numbered asked) }
{
    match asked? {
        Answer::Stale => Ok(PartyAnswer::Stale),
        Answer::Yes | Answer::No => Err(Refusal::NotAllowed),
    }
}

// What a party hears of its insertion: as the insertion replies.
#[tactic(auto, unfolding(calls::specs::Rights::inserted_reply, store_types::specs::Replies::numbered))]
pub fn inserted(reply: Result<Inserted, Refusal>) -> Result<PartyAnswer, Refusal>
    ensures { numbered result ≡ inserted_reply (numbered reply) }
{
    reply.map(PartyAnswer::Inserted)
}

// An accepted load, or file read, ends all grants: their count is then 0, whatever it was.
#[tactic(auto, unfolding(calls::specs::Rights::emptied_by, store_types::specs::Replies::numbered))]
pub fn end_grants(reply: Result<Loaded, Refusal>, count: &mut usize)
    ensures { count.new ≡ emptied_by (numbered reply) count.old }
{
    if reply.is_ok() {
        *count = 0;
    }
}
