// What load refuses before it writes (document 01, "Calls and their replies"), and the height that it takes.
#![tactic(auto)]

ghost use Rattle.std.specs.Prelude.{◌≡◌, true, cond, ◌<◌, ◌≤◌, eqb, length, drop};
ghost use Rattle.store_types.specs.Replies.{number_of, refusal_in};
ghost use Rattle.tree.specs.Book.{load_under as least_height_under};
ghost use Rattle.calls.specs.Kind.{is_kind, kind_of, depth_after};
ghost use Rattle.load_refuse.specs.Refusals.{HeightFits, kinds_refusal, rest_refusal, refusal_before};

use store_types::{BEGIN, MOST_TAGS, Refusal, TEXT};

const MOST_KINDS: usize = MOST_TAGS as usize;

fn is_a_kind(kind: u8) -> bool
    ensures { result ≡ is_kind kind }
{
    BEGIN <= kind && kind <= TEXT
}

// Of the kinds after an end that closes no begin: 4 where one of them is none, else 5.
fn rest_refusal(rest: &[u8]) -> Refusal
    ensures { number_of result ≡ rest_refusal rest.now }
{
    if rest.iter().all(|kind| is_a_kind(*kind)) {
        Refusal::Nesting
    } else {
        Refusal::Kind
    }
}

// 1 for an end, 0 for a begin or text: a number to reckon with, since no processor can foretell the kinds of a book.
fn ends(kind: u8) -> usize
    requires { is_kind kind ≡ true }
    ensures { result ≡ cond (eqb kind 2) 1 0 }
{
    kind_pick::at_end(kind as u32, 1, 0) as usize
}

// How many begins are open behind a kind.
fn depth_after(depth: usize, kind: u8) -> usize
    requires { (depth < 9223372036854775808) × (is_kind kind ≡ true) × (cond (eqb kind 2) 1 0 ≤ depth) }
    ensures { result ≡ depth_after (kind_of kind) depth }
{
    let begins = kind_pick::at_begin(kind as u32, 1, 0) as usize;
    depth + begins - ends(kind)
}

// 4 and 5: a kind that is none, kinds that do not nest.
pub fn check_kinds(kinds: &[u8]) -> Result<(), Refusal>
    ensures { refusal_in result ≡ kinds_refusal 0 kinds.now }
{
    let mut depth: usize = 0;
    for (i, &kind) in kinds.iter().enumerate() {
        if !is_a_kind(kind) {
            return Err(Refusal::Kind);
        }
        if depth < ends(kind) {
            // An end that closes none. 4 comes before 5, so the kinds that are left decide.
            return Err(rest_refusal(&kinds[i + 1..]));
        }
        depth = depth_after(depth, kind);
    }
    if depth != 0 {
        return Err(Refusal::Nesting);
    }
    Ok(())
}

// 3, 6, 1, 4 and 5, in this order.
pub fn check_load(room: usize, s: u32, r: u32, kinds: &[u8]) -> Result<(), Refusal>
    ensures { refusal_in result ≡ refusal_before room s r kinds.now }
{
    if !shape::degree_fits(s) {
        return Err(Refusal::Degree);
    }
    if !shape::degree_fits(r) {
        return Err(Refusal::Degree);
    }
    if MOST_KINDS < kinds.len() {
        return Err(Refusal::TooManyTags);
    }
    if room < words::words_for(kinds.len()) {
        return Err(Refusal::TooFewWords);
    }
    check_kinds(kinds)
}

// The height of the root's children: the smallest h with n < 2 r^(h + 1).
pub fn load_under(n: u64, r: u64) -> u32
    requires { HeightFits n r }
    ensures { result ≡ least_height_under r n }
{
    let mut h: u32 = 0;
    let mut p = 2 * r;
    while p <= n {
        p = p * r;
        h += 1;
    }
    h
}
