//! The kinds of fault, from the lowest layer to the highest.
ghost use Rattle.std.specs.Prelude.{◌≡◌};
ghost use Rattle.faults.specs.Numbers.{number_of, layer_of};

#[derive(Clone, Copy, Debug, PartialEq, Eq)]
pub enum Kind {
    ByteNotAllowed,
    WordMissing,
    WordTooLong,
    NameTooLong,
    ByteNotAllowedInList,
    WordTooLongInList,
    ItemMissing,
    BracketUnmatched,
    BracketsTooDeep,
    GroupNameUnlawful,
    TextTooLong,
    GroupNotInBook,
    TooManyGroups,
    GroupLeadsToItself,
    NoSuchProcess,
    NoListInForce,
    PathUnlawful,
    NoRowFree,
    NoSpaceForRecord,
    WordsNotAsWritten,
    VerdictDiffers,
    NoSpaceForOutcome,
    LeaveNotOpenHere,
}

impl Kind {
    // A kind has two numbers, so `From<Kind> for u8` would not say which one it gives.
    /// The number that the table of faults gives to the kind.
    pub fn number(self) -> u8
        ensures { result ≡ number_of self }
    {
        match self {
            Kind::ByteNotAllowed => 1,
            Kind::WordMissing => 2,
            Kind::WordTooLong | Kind::WordTooLongInList => 3,
            Kind::NameTooLong => 4,
            Kind::ByteNotAllowedInList => 5,
            Kind::ItemMissing => 6,
            Kind::BracketUnmatched => 7,
            Kind::BracketsTooDeep => 8,
            Kind::GroupNameUnlawful => 9,
            Kind::TextTooLong => 10,
            Kind::GroupNotInBook => 11,
            Kind::TooManyGroups => 12,
            Kind::GroupLeadsToItself => 13,
            Kind::NoSuchProcess => 14,
            Kind::NoListInForce => 15,
            Kind::PathUnlawful => 16,
            Kind::NoRowFree => 17,
            Kind::NoSpaceForRecord => 18,
            Kind::WordsNotAsWritten => 19,
            Kind::VerdictDiffers => 20,
            Kind::NoSpaceForOutcome => 21,
            Kind::LeaveNotOpenHere => 22,
        }
    }

    /// The layer that finds such a fault: 1 names, 2 lists, 3 opening, 4 station, 5 volumes.
    pub fn layer(self) -> u8
        ensures { result ≡ layer_of self }
    {
        match self {
            Kind::ByteNotAllowed | Kind::WordMissing | Kind::WordTooLong | Kind::NameTooLong => 1,
            Kind::ByteNotAllowedInList
            | Kind::WordTooLongInList
            | Kind::ItemMissing
            | Kind::BracketUnmatched => 2,
            Kind::BracketsTooDeep | Kind::GroupNameUnlawful | Kind::TextTooLong => 2,
            Kind::GroupNotInBook | Kind::TooManyGroups | Kind::GroupLeadsToItself => 3,
            Kind::NoSuchProcess | Kind::NoListInForce | Kind::PathUnlawful | Kind::NoRowFree => 4,
            Kind::NoSpaceForRecord | Kind::WordsNotAsWritten | Kind::VerdictDiffers => 5,
            Kind::NoSpaceForOutcome | Kind::LeaveNotOpenHere => 5,
        }
    }
}
