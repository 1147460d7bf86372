// Random questions, half of them from a number on, asked of the engine and answered by a walk over all states from there up. The walk tests a clause
// literal by literal and shares no code with the engine. The file `stdout` is from `expected.py`, which makes the same questions and answers them once
// more.
#![tactic(auto)]

ghost use Rattle.std.specs.Prelude.{◌≤◌};

use counts::Counts;

// How many questions, and where the numbers start.
const QUESTIONS: u64 = 20000;

const SEED: u64 = 0x9E37_79B9_7F4A_7C15;

const HALF: u64 = 1 << 32;

// What is counted, by its place.
const ASKED: usize = 0;

const FOUND: usize = 1;

const NONE: usize = 2;

const SUM: usize = 3;

const DIFFER: usize = 4;

const PLACES: usize = 5;

// Where the literals of a list stand: below n; also one step later; or anywhere at times.
#[derive(Clone, Copy, Debug, PartialEq, Eq)]
enum Stand {
    Low,
    Later,
    Wild,
}

// What the clauses of a list are like: the bits, where the literals stand, and, modulo 3, how many there are.
#[derive(Clone, Copy, Debug)]
struct Shape {
    n: u64,
    stand: Stand,
    width: u64,
}

impl Shape {
    // The position of a literal, from eight random bits.
    fn place(self, byte: u64) -> u64 {
        let low = byte.checked_rem(self.n).unwrap_or(0) % 32;
        if byte < 192 {
            return low;
        }
        match self.stand {
            Stand::Low => low,
            Stand::Later => low + 32,
            Stand::Wild => byte % 64,
        }
    }

    // How many literals a clause has, from random bits: seldom none, at times one, else what the list's width says.
    fn literals(self, bits: u64) -> u64
        ensures { result ≤ 4 }
    {
        if bits % 1024 == 0 {
            return 0;
        }
        if bits / 1024 % 16 == 0 {
            return 1;
        }
        2 + self.width % 3
    }

    // The mask of a clause for one sign: four literals at most.
    fn mask(self, random: u64, sign: u64) -> u64 {
        let mut mask = 0;
        for k in 0..self.literals(random >> 40) {
            if (random >> (32 + k)) % 2 == sign {
                mask |= 1 << (self.place((random >> (8 * k)) % 256) % 64);
            }
        }
        mask
    }

    // Random clauses. Both masks over the pair come from one random number, those over wires are zero. The last random number.
    fn fill(self, list: &mut [u64; 243], seed: u64) -> u64 {
        let mut random = seed;
        for clause in list.chunks_mut(4) {
            random = small_systems::next(random);
            if let [ones, zeros, ..] = clause {
                *ones = self.mask(random, 0);
                *zeros = self.mask(random, 1);
            }
        }
        random
    }
}

// The low n bits.
fn low_bits(bits: u64, n: u64) -> u64 {
    bits & ((1 << (n % 32)) - 1)
}

// A state to store: any, or one of the lowest; now and then no state at all.
fn stored(random: u64, n: u64) -> u64 {
    let bits = random >> 8;
    match random % 64 {
        0 => bits,
        1 => bits % HALF,
        2..=31 => low_bits(bits, n),
        _ => low_bits(bits, n) % 16,
    }
}

// A level from 0 to 5.
fn level(random: u64) -> u32 {
    ((random >> 20) % 6) as u32
}

// All states, then all levels. The last random number.
fn fill_stores(states: &mut [u64; 40], levels: &mut [u32; 40], n: u64, seed: u64) -> u64 {
    let mut random = seed;
    for x in states.iter_mut() {
        random = small_systems::next(random);
        *x = stored(random, n);
    }
    for x in levels.iter_mut() {
        random = small_systems::next(random);
        *x = level(random);
    }
    random
}

// A question: which kind, of what, and from which number on.
#[derive(Clone, Copy, Debug)]
struct Question<'a> {
    steps: bool,
    n: u32,
    start: &'a [u64],
    list: &'a [u64],
    states: &'a [u64],
    levels: &'a [u32],
    i: u32,
    target: u64,
    from: u64,
}

impl<'a> Question<'a> {
    // Whether the state is in R(i).
    fn is_inside(self, state: u64) -> bool {
        if self.i == 0 {
            tables::list_holds(self.start, state, 0)
        } else {
            !small_systems::is_stored(self.states, self.levels, self.i, state)
        }
    }

    // The first state from `from` on in R(i) of which, with the target beside it, the list is true.
    fn walk(self) -> Option<u64> {
        let later = if self.steps {
            self.target % HALF * HALF
        } else {
            0
        };
        (self.from..1 << (self.n % 32)).find(|state| tables::list_holds(
            self.list,
            *state | later,
            0,
        ) && self.is_inside(*state))
    }

    // In which order, which no answer depends on: what matters to the list, or any.
    fn order(self) -> [u64; order::TABLE] {
        if self.target % 2 == 0 {
            return order::table(self.list, 0);
        }
        [self.target; order::TABLE]
    }

    // What the engine says.
    fn ask(self) -> Option<u64> {
        let free = question::Free { n: self.n, w: 0 };
        let order = self.order();
        if self.steps {
            question::step_in(
                free,
                &order,
                self.start,
                self.list,
                self.states,
                self.levels,
                self.i,
                self.target,
                self.from,
            )
        } else {
            question::bad_in(
                free,
                &order,
                self.start,
                self.list,
                self.states,
                self.levels,
                self.i,
                self.from,
            )
        }
    }
}

// Both answers to a question, counted.
fn compare(counts: &mut Counts<PLACES>, q: Question) {
    let walked = q.walk();
    counts.add(ASKED, 1);
    counts.count(FOUND, walked.is_some());
    counts.count(NONE, walked.is_none());
    counts.add(SUM, walked.unwrap_or(0));
    counts.count(DIFFER, walked != q.ask());
}

// A state to step to, or any number at times.
fn target_of(shape: u64, n: u64, random: u64) -> u64 {
    if (shape >> 8) % 8 == 0 {
        return random;
    }
    low_bits(random, n)
}

// Where the question begins: at 0, or at a state, or at any number at times.
fn from_of(shape: u64, n: u64, random: u64) -> u64 {
    if (shape >> 28) % 2 == 0 {
        return 0;
    }
    if (shape >> 29) % 8 == 0 {
        return random;
    }
    low_bits(random >> 16, n)
}

// How many masks stand behind the last clause: none for the most part.
fn too_many(bits: u64) -> u64
    ensures { result ≤ 3 }
{
    if bits % 8 == 7 { bits / 16 % 3 + 1 } else { 0 }
}

// One random question from the front parts of what is filled, counted: at times with one to three masks too many, and with more or fewer levels than
// states. The next random number.
fn try_one(counts: &mut Counts<PLACES>, seed: u64) -> u64 {
    let mut start = [0; 243];
    let mut list = [0; 243];
    let mut states = [0; 40];
    let mut levels = [0; 40];
    let shape = small_systems::next(seed);
    let sizes = small_systems::next(shape);
    let steps = (shape >> 4) % 2 == 1;
    let n = sizes % 12 + 1;
    let width = shape >> 20;
    let in_start = if (shape >> 14) % 2 == 0 {
        Stand::Wild
    } else {
        Stand::Low
    };
    let in_list = if (shape >> 12) % 4 == 0 {
        Stand::Wild
    } else if steps {
        Stand::Later
    } else {
        Stand::Low
    };
    let random = Shape {
        n,
        stand: in_start,
        width,
    }
    .fill(&mut start, sizes);
    let random = Shape {
        n,
        stand: in_list,
        width,
    }
    .fill(&mut list, random);
    let random = fill_stores(&mut states, &mut levels, n, random);
    let random = small_systems::next(random);
    let over = too_many(sizes >> 8);
    let known = if (shape >> 16) % 4 == 0 {
        sizes >> 40
    } else {
        sizes >> 32
    };
    compare(
        counts,
        Question {
            steps,
            n: n as u32,
            start: small_systems::front(&start, ((sizes >> 16) % 5 * 4 + over) as usize),
            list: small_systems::front(&list, ((sizes >> 24) % 61 * 4 + over) as usize),
            states: small_systems::front(&states, ((sizes >> 32) % 41) as usize),
            levels: &levels[..(known % 41) as usize],
            i: (shape % 5) as u32,
            target: target_of(shape, n, random),
            from: from_of(shape, n, random),
        },
    );
    random
}

fn main() {
    let mut counts = Counts::new();
    let mut seed = SEED;
    for _ in 0..QUESTIONS {
        seed = try_one(&mut counts, seed);
    }
    // No answer is above 4,095, so the sum is below 2^32.
    counts.write(
        0,
        &[
            b"questions ",
            b"with an answer ",
            b"with none ",
            b"sum of the answers modulo 2^32 ",
            b"answered otherwise by the engine ",
        ],
    );
}
