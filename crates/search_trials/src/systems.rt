// Which systems are tried: the bits of each, the kinds of its lists and how dense they are. A few systems of many bits stand beside many of few, since
// the walk goes over all pairs of states.
use small_systems::{Kind, Plan};

// How many systems of 1 to 6 bits come first.
const SMALL: u64 = 5120;

// The bits of system number i, by its place in a row of 16. Every fourth row of many bits ends with 10.
pub fn bits_of(i: u64) -> u32 {
    let few = [1, 2, 2, 3, 3, 3, 3, 3, 4, 4, 4, 4, 4, 5, 5, 6];
    let many = [9, 9, 9, 8, 8, 8, 8, 7, 7, 7, 7, 7, 7, 7, 7, 7];
    let place = (i % 16) as usize;
    if i < SMALL {
        return few[place];
    }
    if i % 64 == 15 { 10 } else { many[place] }
}

// The kind of the steps, in turn.
fn kind_in_turn(i: u64) -> Kind {
    match i >> 4 & 15 {
        0 | 8 | 15 => Kind::Part,
        2 | 10 => Kind::Chain,
        3 | 11 => Kind::Loops,
        4 | 12 => Kind::Down,
        5 => Kind::Counter,
        6 => Kind::Nothing,
        14 => Kind::Everything,
        _ => Kind::Clauses,
    }
}

// The kind of the steps. Explicit ones of 5 and 6 bits are few, since they have thousands of clauses; short clauses or a counter stand for the others.
fn step_kind(n: u32, i: u64) -> Kind {
    let kind = kind_in_turn(i);
    let all = n < 5 || n == 5 && i >> 8 & 7 == 0 || n == 6 && i >> 4 & 123 == 0;
    match kind {
        _ if all => kind,
        Kind::Nothing | Kind::Everything if n < 9 => kind,
        Kind::Chain | Kind::Counter if n < 8 => Kind::Counter,
        _ => Kind::Clauses,
    }
}

// The kind of start and bad lists: mostly some states. All states of many bits would take long.
fn kind_of(n: u32, bits: u64) -> Kind {
    match bits % 16 {
        0 => Kind::Nothing,
        1 if n < 9 => Kind::Everything,
        1 | 2 | 3 | 4 => Kind::Clauses,
        _ => Kind::Part,
    }
}

// A list of this kind beside steps of that one, and how dense it is. The start and bad states of a chain are fewer, so that there are long paths.
fn plan(kind: Kind, steps: Kind, n: u32, later: bool, bits: u64) -> Plan {
    let density = match kind {
        Kind::Clauses => u64::from(n % 16) + bits % 16,
        _ => match steps {
            Kind::Chain | Kind::Loops | Kind::Counter => bits % 4 + 2,
            _ => bits % 4 + 3,
        },
    };
    Plan {
        kind,
        density,
        n,
        w: 0,
        later,
    }
}

// The steps of system number i.
pub fn steps_of(n: u32, i: u64, bits: u64) -> Plan {
    let kind = step_kind(n, i);
    plan(kind, kind, n, true, bits)
}

// A list of states beside these steps.
pub fn states_beside(steps: Plan, shape: u64) -> Plan {
    plan(
        kind_of(steps.n, shape),
        steps.kind,
        steps.n,
        false,
        shape >> 4,
    )
}
