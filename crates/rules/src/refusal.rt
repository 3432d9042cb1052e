// What turns a call away (01, the table of that name; 02, No. 1 and No. 4). specs/Refusal.antt lists the number of each.
#[derive(Clone, Copy, PartialEq, Eq)]
pub enum Refusal {
    NoWholeRows = 1,
    TooManyRows = 2,
    WrongField = 3,
    Misplaced = 4,
    TooManyFunctions = 5,
    TooManyParts = 6,
    NoSuchFunction = 7,
    ShortOutput = 8,
    ShortRoom = 9,
    NotHardened = 10,
    RepeatedCase = 11,
    NotFinished = 13,
}
