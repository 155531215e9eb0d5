// An index of names of one text (document 02, CR 1: no attribute name repeats in a tag): where each name begins and its hash, in order
// of hash and then of the name's bytes, so that a name is searched by halves whatever the names are.
#![tactic(auto)]

ghost use Rattle.std.specs.Prelude.{◌≡◌, List, ◌∷◌, ℕ, ◌+◌, ◌≤◌, ◌<◌, ◌^◌, length, replicate, set};
ghost use Rattle.xml.specs.Grammar.{among};
ghost use Rattle.name_index.specs.Order.{order, hash_of};
ghost use Rattle.name_index.specs.Index.{places, key_at, Begun, Index, Holds, Arranged};
ghost use Rattle.name_index.specs.Steps.{Entry, Found, Searched, Inserted, Next, Joined};

use std::cmp::Ordering;
use xml_scan::runs::name_end;

pub const PLACES: usize = 1024;

// A hash weighs bytes by powers of this number, and is kept below that limit.
const HASH_FACTOR: usize = 31;

const HASH_LIMIT: usize = 4294967296;

fn hash(name: &[u8]) -> usize
    ensures { result ≡ hash_of name.now }
{
    let mut h: usize = 0;
    for b in name {
        h = (h * HASH_FACTOR + usize::from(*b)) % HASH_LIMIT;
    }
    h
}

// Puts a value in at a place among the first ones: those from the place on move up by one, onto the next.
fn insert(values: &mut [usize; PLACES], p: usize, count: usize, v: usize)
    requires { (p ≤ count) × (count < places) }
    ensures { Inserted values.old p count v values.new }
{
    for i in (p..count).rev() {
        values[i + 1] = values[i];
    }
    values[p] = v;
}

// Where a name stands among the entries or would go, and whether it stands there.
#[derive(Clone, Copy, Debug)]
struct Sought {
    hash: usize,
    place: usize,
    held: bool,
}

// The places of an index, lent from call to call: the hash of each name, and where it begins.
#[derive(Drop)]
pub struct NameIndex {
    pub hashes: [usize; PLACES],
    pub starts: [usize; PLACES],
    pub ghost sized: { (length hashes ≡ places) × (length starts ≡ places) },
}

impl NameIndex {
    // An index without a name: every hash and every place is 0.
    pub fn new() -> Self
        ensures hashes { result.hashes ≡ replicate places 0 }
        ensures starts { result.starts ≡ replicate places 0 }
    {
        NameIndex {
            hashes: [0; PLACES],
            starts: [0; PLACES],
        }
    }

    // Where a name begins, noted as the last of some if there is room; how many there are with it.
    pub fn note(&mut self, count: usize, begins: usize) -> usize
        requires { count + 1 < 2 ^ 64 }
        ensures count { result ≡ count + 1 }
        ensures starts { self.new.starts ≡ set self.old.starts count begins }
        ensures hashes { self.new.hashes ≡ self.old.hashes }
        ensures room { length self.new.starts ≡ places }
    {
        if count < PLACES {
            self.starts[count] = begins;
        }
        count + 1
    }

    // Whether an entry comes before a name with its hash, is equal to it or comes after it.
    fn compare_at(&self, text: &[u8], i: usize, h: usize, name: &[u8]) -> Ordering
        requires { Entry text.now self.now.starts i }
        ensures { result ≡ order (key_at text.now self.now.hashes self.now.starts i) (h ∷ name.now) }
    {
        let k = self.hashes[i];
        if k < h {
            return Ordering::Less;
        }
        if h < k {
            return Ordering::Greater;
        }
        let a = self.starts[i];
        let b = name_end(text, a);
        text[a..b].cmp(name)
    }

    // The first place whose entry does not come before a name.
    fn find(&self, text: &[u8], count: usize, h: usize, name: &[u8]) -> usize
        requires { Index text.now self.now.hashes self.now.starts count }
        ensures { Found text.now self.now.hashes self.now.starts count (h ∷ name.now) result }
    {
        let mut low: usize = 0;
        let mut high = count;
        while low < high {
            let mid = low + (high - low) / 2;
            match self.compare_at(text, mid, h, name) {
                Ordering::Less => low = mid + 1,
                _ => high = mid,
            }
        }
        low
    }

    fn search(&self, text: &[u8], count: usize, name: &[u8]) -> Sought
        requires { Index text.now self.now.hashes self.now.starts count }
        ensures { Searched text.now self.now.hashes self.now.starts count name.now result.hash result.place result.held }
    {
        let hash = hash(name);
        let place = self.find(text, count, hash, name);
        if place == count {
            return Sought {
                hash,
                place,
                held: false,
            };
        }
        let found = self.compare_at(text, place, hash, name);
        Sought {
            hash,
            place,
            held: found == Ordering::Equal,
        }
    }

    // Whether a name is one of those that the index holds.
    pub fn has(&self, text: &[u8], count: usize, name: &[u8]) -> bool
        requires { Index text.now self.now.hashes self.now.starts count }
        ensures { (names : List (List ℕ)) → Holds text.now self.now.starts count names → result ≡ among name.now names }
    {
        self.search(text, count, name).held
    }

    // The name after the first ones, which are in order, joins them if it is none of them: whether it is none.
    fn join(&mut self, text: &[u8], count: usize) -> bool
        requires { Next text.now self.old.hashes self.old.starts count }
        ensures { Joined text.now self.old.starts self.new.hashes self.new.starts count result }
    {
        let a = self.starts[count];
        let b = name_end(text, a);
        let sought = self.search(text, count, &text[a..b]);
        if sought.held {
            return false;
        }
        insert(&mut self.hashes, sought.place, count, sought.hash);
        insert(&mut self.starts, sought.place, count, a);
        true
    }

    // Brings noted places into order, as far as their names differ: whether all do.
    pub fn arrange(&mut self, text: &[u8], count: usize) -> bool
        requires { Begun text.now self.old.starts count }
        ensures { Arranged text.now self.old.starts count self.new.hashes self.new.starts result }
    {
        for i in 0..count {
            if !self.join(text, i) {
                return false;
            }
        }
        true
    }
}
