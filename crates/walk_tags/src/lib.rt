// One tag of the soundness walk: its prior; its kind, mate, up and mark where a begin is open; and its depth. No processor can
// foretell the next kind, so nothing branches on it: each test is one that every tag of a sound store passes.
#![tactic(auto)]

ghost use Rattle.std.specs.Prelude.{◌≡◌, true, cond, ℕ, ◌%◌, ◌<◌, ltb, eqb, get_or};
ghost use Rattle.store_types.specs.Layout.{at_kind, field};
ghost use Rattle.walk_model.specs.Walk.{kind_fits, open_after as open_behind, depth_fits, depth_after};
ghost use Rattle.words.specs.Offsets.{offset_of};
ghost use Rattle.kind_pick.specs.Needs.{KindWord};
ghost use Rattle.walk_tags.specs.Needs.{TagReads, Beside, MarkReads, DepthReads, pair_table, bit_of, links_fit, fits_at, marks_at};

use store_types::TagId;
use words::Offset;

// Which kinds may stand beside which: bit k of entry c says that a tag of kind word c may stand in, or close, an open begin
// of kind word k, or, where none is open, beside itself.
pub fn pairs() -> [u32; 32]
    ensures { result ≡ pair_table }
{
    let mut t = [0u32; 32];
    t[1] = 2;
    t[2] = 2;
    t[3] = 10;
    t[17] = 131074;
    t[18] = 131072;
    t[19] = 655362;
    t
}

pub fn may_stand(pairs: &[u32; 32], kind: u32, around: u32) -> bool
    requires { kind < 32 }
    ensures { result ≡ bit_of (get_or pairs.now kind 0) around }
{
    (pairs[kind as usize] >> (around % 32)) % 2 != 0
}

// Where the record stands that is looked at beside a tag's own: that of the open begin, or its own where none is open.
fn beside(n: u32, at: Offset, parent: TagId) -> Offset
    ensures { result.0 ≡ cond (ltb parent.0 n) (offset_of parent.0) at.0 }
{
    let around = Offset::of(parent);
    if parent.0 < n { around } else { at }
}

// Where the record stands whose links are looked at: of an end that beside it, of any other tag its own.
fn partner(kind: u32, q: Offset, at: Offset) -> Offset
    requires { KindWord kind }
    ensures { result.0 ≡ cond (eqb (kind % 16) 2) q.0 at.0 }
{
    if kind % 2 == 0 { q } else { at }
}

// The word of a begin or text that names the open begin is its up, that of an end its mate. The up of a tag and of the tag
// beside it, for an end the open begin's, are the same; and so are the mate of that one and the tag. A begin has no mate yet:
// its prior is compared again, which stands before the mate, so that a bit of the kind tells the two apart. Its own up is read first, so that the next open begin does not wait for the other.
fn links_fit(
    words: &[u32],
    x: TagId,
    at: Offset,
    prior: TagId,
    parent: TagId,
    q: Offset,
    kind: u32,
) -> bool
    requires { Beside words.now x.0 at.0 q.0 × KindWord kind }
    ensures { (d : ℕ) → q.0 ≡ offset_of d → result ≡ links_fit words.now prior.0 parent.0 x.0 d kind }
{
    let up = words::get_at(words, at, words::AT_UP);
    let open = words::get_at(
        words,
        at,
        kind_pick::at_end(kind, words::AT_MATE as u32, words::AT_UP as u32) as usize,
    );
    if open != parent.0 {
        return false;
    }
    let p = partner(kind, q, at);
    if up != words::get_at(words, p, words::AT_UP) {
        return false;
    }
    let back = words::get_at(words, p, words::AT_PRIOR + (kind / 2 % 2) as usize);
    back == kind_pick::at_begin(kind, prior.0, x.0)
}

// Whether a tag fits behind its prior, where parent is the innermost open begin or no tag.
pub fn tag_fits(
    pairs: &[u32; 32],
    words: &[u32],
    n: u32,
    x: TagId,
    at: Offset,
    prior: TagId,
    parent: TagId,
) -> bool
    requires { TagReads words.now n x.0 at.0 parent.0 × (pairs.now ≡ pair_table) }
    ensures { result ≡ fits_at words.now n parent.0 x.0 prior.0 }
{
    if words::get_at(words, at, words::AT_PRIOR) != prior.0 {
        return false;
    }
    let kind = words::get_at(words, at, words::AT_KIND);
    if 32 <= kind {
        return false;
    }
    let q = beside(n, at, parent);
    if !may_stand(pairs, kind, words::get_at(words, q, words::AT_KIND)) {
        return false;
    }
    links_fit(words, x, at, prior, parent, q, kind)
}

// The marked tags so far, with a tag that fits.
pub fn count_mark(words: &[u32], x: TagId, at: Offset, marks: u32) -> u32
    requires { MarkReads words.now x.0 at.0 marks }
    ensures { result ≡ marks_at words.now x.0 marks }
{
    marks + words::get_at(words, at, words::AT_KIND) / words::MARK
}

// The innermost open begin behind a tag that fits: the up of a text is the one before it.
pub fn open_after(words: &[u32], n: u32, x: TagId, at: Offset, parent: TagId) -> TagId
    requires { TagReads words.now n x.0 at.0 parent.0 × (kind_fits words.now n parent.0 x.0 (field words.now x.0 at_kind) ≡ true) }
    ensures { result.0 ≡ open_behind words.now parent.0 x.0 (field words.now x.0 at_kind) }
{
    let kind = words::get_at(words, at, words::AT_KIND);
    let up = words::get_at(words, at, words::AT_UP);
    TagId(kind_pick::at_begin(kind, x.0, up))
}

// Whether the depth of a tag that fits is right where so many begins are open before it (document 02, CR 7): an end's is one
// less. Nothing is subtracted, so that an end fails where none is open; and no word wraps, since the sum has 64 bits.
pub fn depth_fits(words: &[u32], x: TagId, at: Offset, depth: u64) -> bool
    requires { DepthReads words.now x.0 at.0 }
    ensures { result ≡ depth_fits words.now x.0 (field words.now x.0 at_kind) depth }
{
    let kind = words::get_at(words, at, words::AT_KIND);
    let own = words::get_at(words, at, words::AT_DEPTH);
    let before = own as u64 + kind_pick::at_end(kind, 1, 0) as u64;
    before == depth
}

// How many begins are open after it: its depth, one more for a begin, whose depth is the number before it. So what is one more is
// at hand before the depth is read.
pub fn depth_after(words: &[u32], x: TagId, at: Offset, depth: u64) -> u64
    requires { DepthReads words.now x.0 at.0 × (depth_fits words.now x.0 (field words.now x.0 at_kind) depth ≡ true) }
    ensures { result ≡ depth_after words.now x.0 (field words.now x.0 at_kind) }
{
    let kind = words::get_at(words, at, words::AT_KIND);
    let own = words::get_at(words, at, words::AT_DEPTH) as u64;
    let more = depth + 1;
    if kind / 2 % 2 == 0 { more } else { own }
}
