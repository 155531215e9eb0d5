// The replies as C structs: the refusal, 0 where the call is accepted, then the reply's values, 0 where it is refused. And what is
// made of the numbers that C passes or gets: a party's act, and the place of a grant. The crates of the C interface share this.
#![tactic(auto)]

ghost use Rattle.std.specs.Prelude.{◌≡◌, IfOk, IfErr};
ghost use Rattle.store_types.specs.Replies.{numbered, number_of};
ghost use Rattle.calls.specs.Replies.{answer_number};
ghost use Rattle.c_replies.specs.Flat.{c_loaded, c_inserted, c_held, c_answered, c_counted, c_places, c_party, act_of as act_asked, place_for as place_granted, pair_of as pair_shown};

use store_types::{Act, Answer, HeldPair, Label, PartyAnswer, Refusal, TagId};

mod by_number;

#[repr(C)]
#[derive(Clone, Copy, Default)]
pub struct Loaded {
    pub refusal: u32,
    pub tags: u32,
    pub height: u32,
}

#[repr(C)]
#[derive(Clone, Copy, Default)]
pub struct Inserted {
    pub refusal: u32,
    pub first: u32,
    pub moved: u32,
    pub split: u32,
}

#[repr(C)]
#[derive(Clone, Copy, Default)]
pub struct Held {
    pub refusal: u32,
    pub book: u32,
    pub tag: u32,
    pub start: u32,
    pub end: u32,
}

#[repr(C)]
#[derive(Clone, Copy, Default)]
pub struct Answered {
    pub refusal: u32,
    pub answer: u32,
}

// A reply of one number: how many tags were marked or listed, or how many bytes were written.
#[repr(C)]
#[derive(Clone, Copy)]
pub struct Counted {
    pub refusal: u32,
    pub count: u32,
}

// A reply of one number of places in a lent list: how many kinds a sheet has, how many grants there are, or how many were revoked.
#[repr(C)]
#[derive(Clone, Copy)]
pub struct CountedPlaces {
    pub refusal: u32,
    pub places: usize,
}

#[repr(C)]
#[derive(Clone, Copy, Default)]
pub struct Party {
    pub refusal: u32,
    pub answer: u32,
    pub first: u32,
    pub moved: u32,
    pub split: u32,
}

impl From<Result<store_types::Loaded, Refusal>> for Loaded {
    ghost from_gives = { λ q r. r ≡ c_loaded (numbered q) };

    #[tactic(auto, unfolding(crate::specs::Flat::c_loaded, calls::specs::Replies::load_numbers, store_types::specs::Replies::numbered))]
    fn from(reply: Result<store_types::Loaded, Refusal>) -> Loaded {
        match reply {
            Ok(loaded) => Loaded {
                refusal: 0,
                tags: loaded.tags,
                height: loaded.height,
            },
            Err(refusal) => Loaded {
                refusal: refusal.number(),
                ..Loaded::default()
            },
        }
    }
}

impl From<Result<store_types::Inserted, Refusal>> for Inserted {
    ghost from_gives = { λ q r. r ≡ c_inserted (numbered q) };

    #[tactic(auto, unfolding(crate::specs::Flat::c_inserted, calls::specs::Replies::insert_numbers, store_types::specs::Replies::numbered))]
    fn from(reply: Result<store_types::Inserted, Refusal>) -> Inserted {
        match reply {
            Ok(inserted) => Inserted {
                refusal: 0,
                first: inserted.first.0,
                moved: inserted.moved,
                split: inserted.split,
            },
            Err(refusal) => Inserted {
                refusal: refusal.number(),
                ..Inserted::default()
            },
        }
    }
}

impl From<Result<HeldPair, Refusal>> for Held {
    ghost from_gives = { λ q r. r ≡ c_held (numbered q) };

    #[tactic(auto, unfolding(crate::specs::Flat::c_held, calls::specs::Replies::hold_numbers, store_types::specs::Replies::numbered))]
    fn from(reply: Result<HeldPair, Refusal>) -> Held {
        match reply {
            Ok(pair) => Held {
                refusal: 0,
                book: pair.book,
                tag: pair.tag.0,
                start: pair.start.0,
                end: pair.end.0,
            },
            Err(refusal) => Held {
                refusal: refusal.number(),
                ..Held::default()
            },
        }
    }
}

// The number of an answer.
#[tactic(auto, unfolding(calls::specs::Replies::answer_number))]
fn of_answer(answer: Answer) -> u32
    ensures { result ≡ answer_number answer }
{
    match answer {
        Answer::No => 0,
        Answer::Yes => 1,
        Answer::Stale => 2,
    }
}

impl From<Result<Answer, Refusal>> for Answered {
    ghost from_gives = { λ q r. r ≡ c_answered (numbered q) };

    #[tactic(auto, unfolding(crate::specs::Flat::c_answered, calls::specs::Replies::question_numbers, store_types::specs::Replies::numbered))]
    fn from(reply: Result<Answer, Refusal>) -> Answered {
        match reply {
            Ok(answer) => Answered {
                refusal: 0,
                answer: of_answer(answer),
            },
            Err(refusal) => Answered {
                refusal: refusal.number(),
                ..Answered::default()
            },
        }
    }
}

// The numbers of a reply of one number, with `zero` where it is refused.
fn numbers<T: Copy>(reply: Result<T, Refusal>, zero: T) -> (u32, T)
    ensures accepted { IfOk reply (λ n. result ≡ (0, n)) }
    ensures refused { IfErr reply (λ k. result ≡ (number_of k, zero)) }
{
    match reply {
        Ok(count) => (0, count),
        Err(refusal) => (refusal.number(), zero),
    }
}

impl From<Result<u32, Refusal>> for Counted {
    ghost from_gives = { λ q r. r ≡ c_counted (numbered q) };

    #[tactic(auto, unfolding(crate::specs::Flat::c_counted, store_types::specs::Replies::count_numbers, store_types::specs::Replies::numbered))]
    fn from(reply: Result<u32, Refusal>) -> Counted {
        let (refusal, count) = numbers(reply, 0);
        Counted { refusal, count }
    }
}

impl From<Result<usize, Refusal>> for CountedPlaces {
    ghost from_gives = { λ q r. r ≡ c_places (numbered q) };

    #[tactic(auto, unfolding(crate::specs::Flat::c_places, store_types::specs::Replies::count_numbers, store_types::specs::Replies::numbered))]
    fn from(reply: Result<usize, Refusal>) -> CountedPlaces {
        let (refusal, places) = numbers(reply, 0);
        CountedPlaces { refusal, places }
    }
}

impl From<Result<PartyAnswer, Refusal>> for Party {
    ghost from_gives = { λ q r. r ≡ c_party (numbered q) };

    #[tactic(auto, unfolding(crate::specs::Flat::c_party, calls::specs::Rights::party_numbers, store_types::specs::Replies::numbered))]
    fn from(reply: Result<PartyAnswer, Refusal>) -> Party {
        match reply {
            Ok(PartyAnswer::Yes) => Party {
                answer: 1,
                ..Party::default()
            },
            Ok(PartyAnswer::Stale) => Party {
                answer: 2,
                ..Party::default()
            },
            Ok(PartyAnswer::Inserted(inserted)) => Party {
                refusal: 0,
                answer: 3,
                first: inserted.first.0,
                moved: inserted.moved,
                split: inserted.split,
            },
            Err(refusal) => Party {
                refusal: refusal.number(),
                ..Party::default()
            },
        }
    }
}

// Where a granted record goes: the place in front of the new count. Where the grant is refused, to no place of the list.
#[tactic(auto, unfolding(crate::specs::Flat::place_for))]
pub fn place_for(reply: CountedPlaces, room: usize) -> usize
    ensures { result ≡ place_granted reply room }
{
    reply.places.checked_sub(1).unwrap_or(room)
}

// The pair that a caller shows, from the numbers that it passes.
pub fn pair_of(book: u32, tag: u32, start: u32, end: u32) -> HeldPair
    ensures { result ≡ pair_shown book tag start end }
{
    HeldPair {
        book,
        tag: TagId(tag),
        start: Label(start),
        end: Label(end),
    }
}

// What a party asks for, from the numbers that it passes.
pub fn act_of(book: u32, tag: u32, start: u32, end: u32, d: u32, right: u32, kind: u8) -> Act
    ensures { result ≡ act_asked book tag start end d right kind }
{
    Act {
        pair: pair_of(book, tag, start, end),
        tag: TagId(d),
        right,
        kind,
    }
}
