// The grounds on which a call is refused. Paper 01, section Grounds for refusal; paper 02, requests 2026-01, 02, 03 and 05.
ghost use Rattle.std.specs.Prelude.{◌≡◌};
ghost use Rattle.logic.specs.Refusal.{refusal_number};

#[derive(Clone, Copy, Debug, PartialEq, Eq)]
pub enum Refusal {
    TextTooLong = 1,
    UnknownByte = 2,
    OutsideGrammar = 3,
    TextTooDeep = 4,
    WrongName = 5,
    ConstantTooLarge = 6,
    FourthQuantifier = 7,
    TooManyNodes = 8,
    TooManyCells = 9,
    PortsOutOfRange = 10,
    BrokenTable = 11,
    TableTooShort = 12,
    MaskPortTooHigh = 13,
    Unknown = 14,
    MoveNotLegal = 15,
    ListTooShort = 16,
    TextUnwritable = 17,
    JournalFull = 18,
    JournalEmpty = 19,
    AlreadyInCondition = 20,
}

impl Refusal {
    // The ground's number in the papers.
    pub fn number(self) -> u8
        ensures { result ≡ refusal_number self }
    {
        self as u8
    }
}
