// The calls for parties for C, as include/vekhturop.h declares them: granting, revoking, a party's call, and the two loads that end all
// grants. A lent slice is a pointer and a length there, a reply a struct of numbers. Each contract says what the definitions say, through
// the flat form of the reply; none has a `requires`.
#![tactic(auto)]

mod flat;

ghost use Rattle.std.specs.Prelude.{◌≡◌};
ghost use Rattle.calls.specs.Replies.{load_reply, load_words, read_reply, read_words};
ghost use Rattle.c_replies.specs.Flat.{c_loaded, c_places, c_party, act_of};
ghost use Rattle.calls.specs.Rights.{emptied_by, grant_reply, grant_count, grant_list, revoke_reply, revoke_count, revoke_list, party_reply, party_words};

use c_replies::{CountedPlaces, Loaded, Party};
use store_types::Grant;

#[unsafe(no_mangle)]
pub extern "C" fn vk_load_with_grants(
    s: u32,
    r: u32,
    book: u32,
    kinds: &[u8],
    words: &mut [u32],
    count: &mut usize,
) -> Loaded
    ensures reply { result ≡ c_loaded (load_reply s r book kinds.now words.old) }
    ensures words { words.new ≡ load_words s r book kinds.now words.old }
    ensures count { count.new ≡ emptied_by (load_reply s r book kinds.now words.old) count.old }
{
    store_party::load_with_grants(s, r, book, kinds, words, count).into()
}

#[unsafe(no_mangle)]
pub extern "C" fn vk_read_file_with_grants(
    bytes: &[u8],
    words: &mut [u32],
    count: &mut usize,
) -> Loaded
    ensures reply { result ≡ c_loaded (read_reply bytes.now words.old) }
    ensures words { words.new ≡ read_words bytes.now words.old }
    ensures count { count.new ≡ emptied_by (read_reply bytes.now words.old) count.old }
{
    store_party::read_file_with_grants(bytes, words, count).into()
}

// The three over a lent list of grants are straight lines.
#[unsafe(no_mangle)]
pub extern "C" fn vk_grant_add(
    party: u32,
    section: u32,
    rights: u32,
    grants: &mut [Grant],
    count: &mut usize,
    words: &[u32],
) -> CountedPlaces
    ensures reply { result ≡ c_places (grant_reply party section rights count.old grants.old words.now) }
    ensures grants { grants.new ≡ grant_list party section rights count.old grants.old words.now }
    ensures count { count.new ≡ grant_count party section rights count.old grants.old words.now }
{
    let room = grants.len();
    let reply = flat::grant(party, section, rights, room, count, words);
    let place = c_replies::place_for(reply, room);
    let record = Grant {
        party,
        section,
        rights,
    };
    grant_list::put(grants, place, record);
    reply
}

#[tactic(auto, using(crate::proofs::GrantLaws::fitting), unfolding(calls::specs::Rights::revoke_refused))]
#[unsafe(no_mangle)]
pub extern "C" fn vk_grant_revoke(
    party: u32,
    section: u32,
    grants: &mut [Grant],
    count: &mut usize,
) -> CountedPlaces
    ensures reply { result ≡ c_places (revoke_reply party section count.old grants.old) }
    ensures grants { grants.new ≡ revoke_list party section count.old grants.old }
    ensures count { count.new ≡ revoke_count party section count.old grants.old }
{
    let room = grants.len();
    let live = *count;
    let checked = party_rules::check_revoke(party, live, room);
    let looked = party_rules::looked_at(checked, live);
    let kept = grant_list::close_gap(grants, looked, party, section);
    flat::revoke(checked, kept, count)
}

#[tactic(auto, using(crate::proofs::GrantLaws::looks_fit))]
#[unsafe(no_mangle)]
pub extern "C" fn vk_party_call(
    party: u32,
    book: u32,
    tag: u32,
    start: u32,
    end: u32,
    d: u32,
    right: u32,
    kind: u8,
    grants: &[Grant],
    count: usize,
    words: &mut [u32],
) -> Party
    ensures reply { result ≡ c_party (party_reply party (act_of book tag start end d right kind) count grants.now words.old) }
    ensures words { words.new ≡ party_words party (act_of book tag start end d right kind) count grants.now words.old }
{
    let room = grants.len();
    let checked = party_rules::check_party(party, right, count, room);
    let looked = party_rules::looked_at(checked, count);
    let granted = grant_list::search(grants, looked, party, tag, right);
    let act = c_replies::act_of(book, tag, start, end, d, right, kind);
    flat::party(checked, granted, act, words)
}
