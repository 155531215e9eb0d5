// What a call is refused with. Each refusal has the number that documents 01 and 02 give it, and a name in the C header.
ghost use Rattle.std.specs.Prelude.{◌≡◌};
ghost use Rattle.store_types.specs.Replies.{number_of};

#[derive(Clone, Copy, Debug, PartialEq, Eq)]
pub enum Refusal {
    TooFewWords = 1,
    NotSound = 2,
    Degree = 3,
    Kind = 4,
    Nesting = 5,
    TooManyTags = 6,
    OutOfLabels = 7,
    NoSuchTag = 8,
    TagMarked = 9,
    NotASection = 10,
    ListTooShort = 11,
    NotASheet = 12,
    TooDeep = 13,
    NotRead = 14,
    NotAFile = 15,
    TooFewBytes = 16,
    OutOfRange = 17,
    NotAllowed = 18,
    GrantsFull = 19,
}

impl Refusal {
    // The number.
    pub fn number(self) -> u32
        ensures { result ≡ number_of self }
    {
        self as u32
    }
}
