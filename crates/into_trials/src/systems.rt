// Which systems are tried, and what they are asked: the bits of each, the kind of its steps and how dense they are, and a number. A few systems of
// many bits stand beside many of few.
use small_systems::Kind;

// The bits of system number i.
pub fn bits_of(i: u64) -> u32 {
    if i % 32 == 31 {
        (i / 32 % 4 + 7) as u32
    } else {
        (i % 6 + 1) as u32
    }
}

// The kind of the steps. Explicit ones of many bits have too many clauses; short clauses stand for them.
pub fn kind_of(n: u32, bits: u64) -> Kind {
    let kind = small_systems::kind_of(bits);
    match kind {
        Kind::Nothing | Kind::Everything | Kind::Counter => kind,
        _ => if n < 5 { kind } else { Kind::Clauses },
    }
}

// How dense the steps are: for each kind from one end to the other.
pub fn density(kind: Kind, n: u32, bits: u64) -> u64 {
    if kind == Kind::Clauses {
        bits % ((n % 16) as u64 * 2 + 1)
    } else {
        bits % ((2u64 << (n % 16)) + 1)
    }
}

// What number is given: 2^n, one more, 2^63, or any that is no state; or else a state.
#[derive(Clone, Copy, Debug)]
pub enum Given {
    End,
    Next,
    High,
    Beyond,
    State,
}

// Those that are no state.
pub const NO_STATES: [Given; 4] = [Given::End, Given::Next, Given::High, Given::Beyond];

impl Given {
    // From three random bits: a state half of the time.
    pub fn of_bits(bits: u64) -> Given {
        match bits % 8 {
            0 => Given::End,
            1 => Given::Next,
            2 => Given::High,
            3 => Given::Beyond,
            _ => Given::State,
        }
    }

    pub fn number(self, n: u32, random: u64) -> u64 {
        let end = 1 << (n % 16);
        match self {
            Given::End => end,
            Given::Next => end | 1,
            Given::High => 1 << 63,
            Given::Beyond => random | end,
            Given::State => tables::low(n, random),
        }
    }
}
