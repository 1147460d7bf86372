// Calls of systems that are wrong, which are refused before a question whatever number is given.
use super::Call;
use super::entered::PLACES;
use super::systems::Given;
use base::Refusal;
use counts::Counts;
use tables::{List, System};

// What is wrong: n is 0, or 33; a list has one, two or three masks; a clause has a bit that is not below n, or a later one that is not, or in start or
// bad a later one at all.
#[derive(Clone, Copy, Debug)]
enum Fault {
    NoBits,
    ManyBits,
    Masks,
    Bit,
    LaterBit,
    Later,
}

impl Fault {
    fn refusal(self) -> Refusal {
        match self {
            Fault::NoBits | Fault::ManyBits => Refusal::Size,
            Fault::Masks => Refusal::Masks,
            Fault::Bit | Fault::LaterBit | Fault::Later => Refusal::Bits,
        }
    }

    // The number of bits.
    fn bits(self, n: u32) -> u32 {
        match self {
            Fault::NoBits => 0,
            Fault::ManyBits => 33,
            _ => n,
        }
    }

    // The first mask of the wrong list.
    fn mask(self, n: u32) -> u64 {
        match self {
            Fault::LaterBit => 1 << (n % 16 + 32),
            Fault::Later => 1 << 32,
            _ => 1 << (n % 16),
        }
    }
}

// One way to be wrong: the fault, and which list is not empty, with how many masks. Where n is wrong a list's count is wrong too, and a list of a wrong
// count has a wrong bit, so the order shows.
#[derive(Clone, Copy, Debug)]
struct Way(Fault, List, usize);

const WAYS: [Way; 11] = [
    Way(Fault::NoBits, List::Start, 1),
    Way(Fault::ManyBits, List::Step, 2),
    Way(Fault::Masks, List::Start, 3),
    Way(Fault::Masks, List::Step, 1),
    Way(Fault::Masks, List::Bad, 2),
    Way(Fault::Bit, List::Start, 4),
    Way(Fault::Bit, List::Step, 4),
    Way(Fault::Bit, List::Bad, 4),
    Way(Fault::LaterBit, List::Step, 4),
    Way(Fault::Later, List::Start, 4),
    Way(Fault::Later, List::Bad, 4),
];

// One way.
fn call(counts: &mut Counts<PLACES>, way: Way, n: u32, random: u64) {
    let Way(fault, which, masks) = way;
    let clause = [fault.mask(n), 0, 0, 0];
    let list = small_systems::front(&clause, masks);
    let wrong = Call {
        s: System::of_one(fault.bits(n), 0, which, list),
        state: Given::of_bits(random >> 16).number(n, random),
    };
    wrong.refuse(counts, fault.refusal(), random);
}

// Every way.
pub fn calls(counts: &mut Counts<PLACES>, n: u32, seed: u64) {
    let mut random = seed;
    for way in WAYS {
        random = small_systems::next(random);
        call(counts, way, n, random);
    }
}
