// One of two numbers by a kind word: an `if` on two numbers that are there already, which becomes no branch. No processor
// can foretell the kinds of a book.
#![tactic(auto)]

ghost use Rattle.std.specs.Prelude.{◌≡◌, cond, suc, ◌-◌, ◌%◌, ◌≤◌, ◌<◌, eqb, leb};
ghost use Rattle.kind_pick.specs.Needs.{KindWord};

// a for an end, b for a begin or text.
pub fn at_end(kind: u32, a: u32, b: u32) -> u32
    requires { KindWord kind }
    ensures { result ≡ cond (eqb (kind % 16) 2) a b }
{
    if kind % 2 == 0 { a } else { b }
}

// a for a begin, b for an end or text.
pub fn at_begin(kind: u32, a: u32, b: u32) -> u32
    requires { KindWord kind }
    ensures { result ≡ cond (eqb (kind % 16) 1) a b }
{
    if kind / 2 % 2 == 0 { a } else { b }
}

// a for an unmarked tag, b for a marked one.
pub fn at_unmarked(kind: u32, a: u32, b: u32) -> u32
    ensures { result ≡ cond (leb 16 kind) b a }
{
    if kind < words::MARK { a } else { b }
}

// The depth of a tag before which so many begins are open: that number, one less for an end.
pub fn own_depth(kind: u32, opens: u32) -> u32
    requires { KindWord kind × (kind % 16 ≡ 2 → 1 ≤ opens) }
    ensures { result ≡ cond (eqb (kind % 16) 2) (opens - 1) opens }
{
    opens - at_end(kind, 1, 0)
}

// How many begins are open after a tag of this depth: one more after a begin.
pub fn opens_after(kind: u32, depth: u32) -> u32
    requires { KindWord kind × (suc depth < 4294967296) }
    ensures { result ≡ cond (eqb (kind % 16) 1) (suc depth) depth }
{
    depth + at_begin(kind, 1, 0)
}
