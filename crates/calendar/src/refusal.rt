// Why a call is refused: the numbers of document 01's replies, by name.
ghost use Rattle.std.specs.Prelude.{◌≡◌};
ghost use Rattle.calendar.specs.Replies.{number_of};

#[derive(Clone, Copy, Debug, PartialEq, Eq, Hash)]
pub enum Refusal {
    // an instant or a duration
    OutOfRange,
    // end at or before start
    EmptySpan,
    Units,
    // no place is left
    Full,
    // of a resource that is not on the board, or of a category
    Number,
    Requirements,
    Slate,
    Speed,
    // a record of an unknown kind, or a cut body
    Unreadable,
    // a calendar, a diary or a board that breaks the rules
    Invalid,
}

impl Refusal {
    // The paper's number.
    pub fn number(self) -> u8
        ensures { result ≡ number_of self }
    {
        match self {
            Refusal::OutOfRange => 1,
            Refusal::EmptySpan => 2,
            Refusal::Units => 3,
            Refusal::Full => 4,
            Refusal::Number => 5,
            Refusal::Requirements => 6,
            Refusal::Slate => 7,
            Refusal::Speed => 8,
            Refusal::Unreadable => 9,
            Refusal::Invalid => 15,
        }
    }
}
