// Which systems are tried: the bits of each, the wires that its lists use and those that are declared, the kinds of its lists and how dense they are.
use small_systems::{Kind, Plan};
use tables::{System, Table};

// A system, and its table.
#[derive(Clone, Copy, Debug)]
pub struct Case<'a> {
    pub s: System<'a>,
    pub table: Table<'a>,
}

// A system's bits; the wires that step and bad may use, six at most, numbered from 0; by how many they are then shifted up; and how many are declared.
#[derive(Clone, Copy, Debug)]
pub struct Wiring {
    pub n: u32,
    pub in_step: u32,
    pub in_bad: u32,
    pub shift: u32,
    pub declared: u32,
}

// A number below the end, of 64 at most; 0 for an end of 0.
pub fn below(end: u64, bits: u64) -> u64 {
    (bits % 64).checked_rem(end).unwrap_or(0)
}

// The wires of a list, one to six; none, if it has none.
fn used(some: bool, bits: u64) -> u32 {
    if some { (bits % 6 + 1) as u32 } else { 0 }
}

// A number below the end half of the time, and else 0.
fn at_times(end: u32, bits: u64) -> u32 {
    if bits % 2 == 0 {
        0
    } else {
        (below(u64::from(end), bits >> 1) % 64) as u32
    }
}

impl Wiring {
    // Of system number i. Of eight in turn one has no wire in use, one in step alone, one in bad alone. Half of all shift their wires, half declare more.
    pub fn of(i: u64, shape: u64) -> Wiring {
        let turn = i / 5 % 8;
        let in_step = used((turn != 0) & (turn != 2), shape >> 8);
        let in_bad = used(1 < turn, shape >> 12);
        let most = in_step.max(in_bad);
        let free = 65u32.wrapping_sub(most);
        let shift = at_times(free, shape >> 16);
        let more = at_times(free.wrapping_sub(shift), shape >> 23);
        Wiring {
            n: (i % 5 + 1) as u32,
            in_step,
            in_bad,
            shift,
            declared: most.wrapping_add(shift.wrapping_add(more)),
        }
    }

    // The wires that some list uses, before they are shifted.
    pub fn used(self) -> u32 {
        self.in_step.max(self.in_bad)
    }

    // The list with its wires shifted up, the third and the fourth mask of each four.
    pub fn lifted<'b>(self, list: &[u64], room: &'b mut [u64]) -> &'b [u64] {
        for (j, (x, mask)) in room.iter_mut().zip(list).enumerate() {
            *x = if j % 4 < 2 {
                *mask
            } else {
                *mask << (self.shift % 64)
            };
        }
        small_systems::front(room, list.len())
    }

    // A list of start: some states, or short clauses at times.
    pub fn starts(self, shape: u64) -> Plan {
        let kind = if shape % 8 == 0 {
            Kind::Clauses
        } else {
            Kind::Part
        };
        plan(kind, self.n, 0, false, shape)
    }

    pub fn steps(self, shape: u64) -> Plan {
        plan(
            kind_of(self.n, true, shape),
            self.n,
            self.in_step,
            true,
            shape,
        )
    }

    pub fn bads(self, shape: u64) -> Plan {
        plan(
            kind_of(self.n, false, shape),
            self.n,
            self.in_bad,
            false,
            shape,
        )
    }
}

// The kind of a list: short clauses or a circuit for the most part. Explicit steps of many bits have too many clauses.
fn kind_of(n: u32, later: bool, bits: u64) -> Kind {
    match bits % 8 {
        0 => if later && 3 < n {
            Kind::Clauses
        } else {
            Kind::Part
        },
        1 => if later { Kind::Counter } else { Kind::Part },
        2 | 3 | 4 => Kind::Clauses,
        _ => Kind::Gates,
    }
}

// A list of this kind, and how dense it is.
fn plan(kind: Kind, n: u32, w: u32, later: bool, shape: u64) -> Plan {
    let bits = shape >> 3;
    let density = if kind == Kind::Clauses {
        u64::from(n % 16) + u64::from(w % 64) + bits % 12
    } else {
        bits % 4 + 2
    };
    Plan {
        kind,
        density,
        n,
        w,
        later,
    }
}
