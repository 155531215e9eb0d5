// Granting (document 02, CR 6), but for the record itself: the refusals, the reply and the count. Here the lent list of grants is known by
// its length.
#![tactic(auto)]

ghost use Rattle.std.specs.Prelude.{◌≡◌, ◌&&◌, suc, leb, Ok, Err};
ghost use Rattle.store_types.specs.Limits.{all_rights};
ghost use Rattle.store_types.specs.Replies.{numbered, refusal_in};
ghost use Rattle.lists.specs.Fronts.{replied};
ghost use Rattle.calls.specs.Rights.{range_refusal, grant_refused};

use store_types::{ALL_RIGHTS, READ, Refusal, TagId};

// 17 of granting, whose rights are some of the three.
fn check_rights(party: u32, rights: u32, count: usize, room: usize) -> Result<(), Refusal>
    ensures { refusal_in result ≡ range_refusal (leb 1 rights && leb rights all_rights) party count room }
{
    party_rules::check_range(READ <= rights && rights <= ALL_RIGHTS, party, count, room)
}

// The refusal of granting: 17, then those of the store and the section, then 10 for a text and 19 for a full list.
#[tactic(auto, using(crate::proofs::Grants::refusals), unfolding(store_types::specs::Replies::refusal_in, store_types::specs::Replies::number_of))]
fn check_grant(
    party: u32,
    section: TagId,
    rights: u32,
    count: usize,
    room: usize,
    words: &[u32],
) -> Result<(), Refusal>
    ensures { refusal_in result ≡ grant_refused party section.0 rights count room words.now }
{
    check_rights(party, rights, count, room)?;
    store_refuse::check_section(section, words)?;
    if words::kind_of(words, section) != words::KIND_BEGIN {
        return Err(Refusal::NotASection);
    }
    if room <= count {
        return Err(Refusal::GrantsFull);
    }
    Ok(())
}

// Granting, but for the record itself, which goes to the place that the count was.
#[tactic(auto, using(crate::proofs::Grants::replies), unfolding(store_types::specs::Replies::refusal_in, store_types::specs::Replies::numbered))]
pub fn grant(
    party: u32,
    section: TagId,
    rights: u32,
    room: usize,
    count: &mut usize,
    words: &[u32],
) -> Result<usize, Refusal>
    ensures reply { numbered result ≡ replied Err (grant_refused party section.0 rights count.old room words.now) (Ok (suc count.old)) }
    ensures count { count.new ≡ replied (λ _. count.old) (grant_refused party section.0 rights count.old room words.now) (suc count.old) }
{
    let live = *count;
    check_grant(party, section, rights, live, room, words)?;
    *count = live + 1;
    Ok(live + 1)
}
