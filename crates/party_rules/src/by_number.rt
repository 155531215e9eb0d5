// The same decisions for a caller that has a refusal as a number. Any number may be given; where a check gave it, 0 stands for none.
ghost use Rattle.std.specs.Prelude.{◌≡◌, ◌-◌, ◌≤◌, Ok, Err};
ghost use Rattle.lists.specs.Fronts.{replied};
ghost use Rattle.calls.specs.Rights.{emptied_by, is_allowed, turned_away as turned_away_so, inserted_reply};

use store_types::{Act, Answer, INSERT, Inserted, Loaded, PartyAnswer, Refusal};

// How many grants a call looks at: none where it is refused.
#[tactic(auto, using(crate::proofs::Replied::by_refusal))]
pub fn looked_at(refusal: u32, count: usize) -> usize
    ensures { result ≡ replied (λ _. 0) refusal count }
{
    if refusal == 0 { count } else { 0 }
}

// Revoking, but for the list: so many grants stay of those that were looked at.
#[tactic(auto, using(crate::proofs::Replied::by_refusal))]
pub fn revoke(refusal: u32, kept: usize, count: &mut usize) -> Result<usize, u32>
    requires { kept ≤ count.old }
    ensures reply { result ≡ replied Err refusal (Ok (count.old - kept)) }
    ensures count { count.new ≡ replied (λ _. count.old) refusal kept }
{
    if refusal != 0 {
        return Err(refusal);
    }
    let live = *count;
    *count = kept;
    Ok(live - kept)
}

// Whether a party may do what it asks for: by what the question answers, and whether a grant gives the right.
#[tactic(auto, unfolding(calls::specs::Rights::is_allowed))]
pub fn allowed(granted: bool, act: Act, asked: Result<Answer, u32>) -> bool
    ensures { result ≡ is_allowed granted act asked }
{
    match asked {
        Ok(Answer::Yes) => granted,
        Ok(Answer::No) => granted && act.right == INSERT && act.tag == act.pair.tag,
        Ok(Answer::Stale) | Err(_) => false,
    }
}

// What a party hears whose call is not allowed: the question's refusal, stale, or 18.
#[tactic(auto, unfolding(calls::specs::Rights::turned_away, store_types::specs::Replies::number_of))]
pub fn turned_away(asked: Result<Answer, u32>) -> Result<PartyAnswer, u32>
    ensures { result ≡ turned_away_so asked }
{
    match asked? {
        Answer::Stale => Ok(PartyAnswer::Stale),
        Answer::Yes | Answer::No => Err(Refusal::NotAllowed.number()),
    }
}

// What a party hears of its insertion: as the insertion replies.
#[tactic(auto, unfolding(calls::specs::Rights::inserted_reply))]
pub fn inserted(reply: Result<Inserted, u32>) -> Result<PartyAnswer, u32>
    ensures { result ≡ inserted_reply reply }
{
    reply.map(PartyAnswer::Inserted)
}

// An accepted load, or file read, ends all grants: their count is then 0, whatever it was.
#[tactic(auto, unfolding(calls::specs::Rights::emptied_by))]
pub fn end_grants(reply: Result<Loaded, u32>, count: &mut usize)
    ensures { count.new ≡ emptied_by reply count.old }
{
    if reply.is_ok() {
        *count = 0;
    }
}
