// Granting, revoking and a party's call on a count and on words, with the flat form of their replies. An entry itself is a straight line
// over the lent list of grants.
ghost use Rattle.std.specs.Prelude.{◌≡◌, suc, ◌-◌, ◌≤◌, Ok, Err};
ghost use Rattle.lists.specs.Fronts.{replied};
ghost use Rattle.calls.specs.Rights.{grant_refused, act_reply, act_words};
ghost use Rattle.store_types.specs.Replies.{numbered, refusal_in};
ghost use Rattle.c_replies.specs.Flat.{c_places, c_party};

use c_replies::{CountedPlaces, Party};
use store_types::{Act, Refusal, TagId};

// Granting, but for the record itself.
pub fn grant(
    party: u32,
    section: u32,
    rights: u32,
    room: usize,
    count: &mut usize,
    words: &[u32],
) -> CountedPlaces
    ensures reply { result ≡ c_places (replied Err (grant_refused party section rights count.old room words.now) (Ok (suc count.old))) }
    ensures count { count.new ≡ replied (λ _. count.old) (grant_refused party section rights count.old room words.now) (suc count.old) }
{
    grant_call::grant(party, TagId(section), rights, room, count, words).into()
}

// Revoking, but for the list: where the check passed, `kept` grants stay of those that the count says.
pub fn revoke(checked: Result<(), Refusal>, kept: usize, count: &mut usize) -> CountedPlaces
    requires { kept ≤ count.old }
    ensures reply { result ≡ c_places (replied Err (refusal_in checked) (Ok (count.old - kept))) }
    ensures count { count.new ≡ replied (λ _. count.old) (refusal_in checked) kept }
{
    party_rules::revoke(checked, kept, count).into()
}

// A party's call, where the check is 17 or passed and `granted` says whether a grant that was looked at gives it the right on the section.
pub fn party(checked: Result<(), Refusal>, granted: bool, act: Act, words: &mut [u32]) -> Party
    ensures reply { result ≡ c_party (replied Err (refusal_in checked) (act_reply granted act words.old)) }
    ensures words { words.new ≡ replied (λ _. words.old) (refusal_in checked) (act_words granted act words.old) }
{
    store_party::party(checked, granted, act, words).into()
}
