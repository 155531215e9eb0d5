// A party's call for a caller that has the refusal of its check as a number, whatever number that is; 0 is none.
ghost use Rattle.std.specs.Prelude.{◌≡◌, Err};
ghost use Rattle.lists.specs.Fronts.{replied};
ghost use Rattle.calls.specs.Rights.{act_reply, act_words};

use store_types::{Act, PartyAnswer, Refusal};

// What the party hears: the refusal where it is not 0, else what its act replies.
#[tactic(auto, using(crate::proofs::Parties::of_a_party), unfolding(store_types::specs::Replies::refusal_in, store_types::specs::Replies::numbered))]
pub fn party(refusal: u32, granted: bool, act: Act, words: &mut [u32]) -> Result<PartyAnswer, u32>
    ensures reply { result ≡ replied Err refusal (act_reply granted act words.old) }
    ensures words { words.new ≡ replied (λ _. words.old) refusal (act_words granted act words.old) }
{
    if refusal != 0 {
        return Err(refusal);
    }
    match crate::party(Ok(()), granted, act, words) {
        Ok(heard) => Ok(heard),
        Err(found) => Err(found.number()),
    }
}
