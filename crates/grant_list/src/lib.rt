// Grants in a lent list of records (document 02, CR 6): one goes to a place, the live ones are searched, and those of a party on a
// section are taken out. A loop's turn has no branch: functions by value pick what is stored and the next place.
#![tactic(auto)]

ghost use Rattle.std.specs.Prelude.{◌≡◌, ◌||◌, ◌≤◌, ◌<◌, length, set};
ghost use Rattle.lists.specs.Fronts.{in_front};
ghost use Rattle.calls.specs.Rights.{names as is_named, gives as is_given, held, others};
ghost use Rattle.grant_list.specs.Gap.{stays as StaysOf, next_place as place_behind};

use store_types::Grant;

// Whether a grant is a party's on a section.
fn names(g: Grant, party: u32, section: u32) -> bool
    ensures { result ≡ is_named party section g }
{
    if g.party == party {
        return g.section == section;
    }
    false
}

// Whether a grant gives a right, or one before it did. No right is 0: nothing is given then.
fn or_gives(found: bool, g: Grant, party: u32, section: u32, right: u32) -> bool
    ensures { result ≡ (found || is_given party section right g) }
{
    if right == 0 || !names(g, party, section) {
        return found;
    }
    if g.rights / right % 2 == 1 {
        return true;
    }
    found
}

// What goes to the place of the next grant that stays: this one, or what stands there.
fn stays(g: Grant, old: Grant, party: u32, section: u32) -> Grant
    ensures { result ≡ StaysOf party section g old }
{
    if names(g, party, section) {
        return old;
    }
    g
}

fn next_place(k: usize, g: Grant, party: u32, section: u32) -> usize
    requires { k < 9223372036854775807 }
    ensures { result ≡ place_behind party section k g }
{
    if names(g, party, section) {
        return k;
    }
    k + 1
}

// A grant goes to a place, and nowhere where the list has no such place.
pub fn put(gs: &mut [Grant], i: usize, g: Grant)
    ensures { gs.new ≡ set gs.old i g }
{
    if i < gs.len() {
        gs[i] = g;
    }
}

// Whether one of the live grants gives a party a right on a section.
pub fn search(gs: &[Grant], count: usize, party: u32, section: u32, right: u32) -> bool
    requires { count ≤ length gs.now }
    ensures { result ≡ held party section right count gs.now }
{
    let mut found = false;
    for g in &gs[..count] {
        found = or_gives(found, *g, party, section, right);
    }
    found
}

// Takes a party's grants on a section out of the live ones and closes the gap in order; replies how many stay.
pub fn close_gap(gs: &mut [Grant], count: usize, party: u32, section: u32) -> usize
    requires { count ≤ length gs.old }
    ensures kept { result ≡ length (others party section count gs.old) }
    ensures list { gs.new ≡ in_front (others party section count gs.old) gs.old }
{
    let mut kept: usize = 0;
    for i in 0..count {
        let g = gs[i];
        let old = gs[kept];
        let next = stays(g, old, party, section);
        gs[kept] = next;
        kept = next_place(kept, g, party, section);
    }
    kept
}
