// What every crate may use: the limits as numbers, and the refusals; in specs/ the limits as definitions and the first refusal of several; in proofs/ how a
// proof goes by a test.
#![tactic(auto)]

ghost use Rattle.std.specs.Prelude.{◌≡◌};
ghost use Rattle.base.specs.Numbers.{number_of};

// The most clauses of a list.
pub const MOST_CLAUSES: usize = 4096;

// The most states of a state store.
pub const MOST_STORED: usize = 65536;

// The most clause lines of a house file.
pub const MOST_CLAUSE_LINES: u32 = 1024;

// The most digits of a line.
pub const MOST_DIGITS: usize = 36;

// The room and the allowance of `scan`.
pub const SCAN_ROOM: usize = 1024;

pub const SCAN_ALLOWANCE: u32 = 1_000_000;

// What is wrong, of a system, of what was lent, of a line, of a house file or of a circuit. Its number stands beside it.
#[derive(Clone, Copy, Debug, PartialEq, Eq)]
pub enum Refusal {
    Size = 1,
    Masks = 2,
    Bits = 3,
    Stores = 4,
    Evidence = 7,
    Digits = 8,
    Sum = 9,
    Kind = 10,
    Length = 11,
    Room = 12,
    Count = 13,
    Form = 20,
    TooFew = 21,
    Latches = 22,
    Wires = 23,
    Variables = 24,
    Loop = 25,
    Watched = 26,
    Justice = 27,
    StartValue = 28,
    Given = 29,
    Store = 30,
    ClauseStore = 32,
}

impl From<Refusal> for u32 {
    ghost from_gives = { λ r n. n ≡ number_of r };

    fn from(r: Refusal) -> u32 {
        r as u32
    }
}

// A refusal, and the line that it names; 0 where it names none.
#[derive(Clone, Copy, Debug, PartialEq, Eq)]
pub struct Fault {
    pub refusal: Refusal,
    pub line: usize,
}
