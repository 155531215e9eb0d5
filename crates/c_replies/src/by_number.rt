// The same structs for a caller that has a reply's refusal as a number, whatever number that is.
ghost use Rattle.std.specs.Prelude.{◌≡◌};
ghost use Rattle.c_replies.specs.Flat.{c_loaded, c_inserted, c_held, c_answered, c_counted, c_places, c_party};

use crate::{Answered, Counted, CountedPlaces, Held, Inserted, Loaded, Party};
use store_types::{Answer, HeldPair, PartyAnswer, Refusal};

impl From<Result<store_types::Loaded, u32>> for Loaded {
    ghost from_gives = { λ q r. r ≡ c_loaded q };

    #[tactic(auto, unfolding(crate::specs::Flat::c_loaded, calls::specs::Replies::load_numbers, store_types::specs::Replies::numbered))]
    fn from(reply: Result<store_types::Loaded, u32>) -> Self {
        match reply {
            Ok(loaded) => Self::from(Ok::<_, Refusal>(loaded)),
            Err(refusal) => Self {
                refusal,
                ..Self::default()
            },
        }
    }
}

impl From<Result<store_types::Inserted, u32>> for Inserted {
    ghost from_gives = { λ q r. r ≡ c_inserted q };

    #[tactic(auto, unfolding(crate::specs::Flat::c_inserted, calls::specs::Replies::insert_numbers, store_types::specs::Replies::numbered))]
    fn from(reply: Result<store_types::Inserted, u32>) -> Self {
        match reply {
            Ok(inserted) => Self::from(Ok::<_, Refusal>(inserted)),
            Err(refusal) => Self {
                refusal,
                ..Self::default()
            },
        }
    }
}

impl From<Result<HeldPair, u32>> for Held {
    ghost from_gives = { λ q r. r ≡ c_held q };

    #[tactic(auto, unfolding(crate::specs::Flat::c_held, calls::specs::Replies::hold_numbers, store_types::specs::Replies::numbered))]
    fn from(reply: Result<HeldPair, u32>) -> Self {
        match reply {
            Ok(pair) => Self::from(Ok::<_, Refusal>(pair)),
            Err(refusal) => Self {
                refusal,
                ..Self::default()
            },
        }
    }
}

impl From<Result<Answer, u32>> for Answered {
    ghost from_gives = { λ q r. r ≡ c_answered q };

    #[tactic(auto, unfolding(crate::specs::Flat::c_answered, calls::specs::Replies::question_numbers, store_types::specs::Replies::numbered))]
    fn from(reply: Result<Answer, u32>) -> Self {
        match reply {
            Ok(answer) => Self::from(Ok::<_, Refusal>(answer)),
            Err(refusal) => Self {
                refusal,
                ..Self::default()
            },
        }
    }
}

impl From<Result<u32, u32>> for Counted {
    ghost from_gives = { λ q r. r ≡ c_counted q };

    #[tactic(auto, unfolding(crate::specs::Flat::c_counted, store_types::specs::Replies::count_numbers, store_types::specs::Replies::numbered))]
    fn from(reply: Result<u32, u32>) -> Self {
        match reply {
            Ok(count) => Self::from(Ok::<_, Refusal>(count)),
            Err(refusal) => Self { refusal, count: 0 },
        }
    }
}

impl From<Result<usize, u32>> for CountedPlaces {
    ghost from_gives = { λ q r. r ≡ c_places q };

    #[tactic(auto, unfolding(crate::specs::Flat::c_places, store_types::specs::Replies::count_numbers, store_types::specs::Replies::numbered))]
    fn from(reply: Result<usize, u32>) -> Self {
        match reply {
            Ok(places) => Self::from(Ok::<_, Refusal>(places)),
            Err(refusal) => Self { refusal, places: 0 },
        }
    }
}

impl From<Result<PartyAnswer, u32>> for Party {
    ghost from_gives = { λ q r. r ≡ c_party q };

    #[tactic(auto, unfolding(crate::specs::Flat::c_party, calls::specs::Rights::party_numbers, store_types::specs::Replies::numbered))]
    fn from(reply: Result<PartyAnswer, u32>) -> Self {
        match reply {
            Ok(heard) => Self::from(Ok::<_, Refusal>(heard)),
            Err(refusal) => Self {
                refusal,
                ..Self::default()
            },
        }
    }
}
