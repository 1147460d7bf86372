// Questions about a system with random stored states, and pairs, held against the table. Each is asked four times, in another order each time: no answer
// depends on it.
use super::places;
use super::places::PLACES;
use super::systems::Case;
use counts::Counts;
use question::Free;
use tables::Table;

// How many questions, and how many pairs, of step and as many of bad.
const TURNS: u64 = 4;

// How many states may be stored.
const STORED: usize = 16;

// In which order: nothing is woken and no wire tried first, all is, what matters to the list, or any.
#[derive(Clone, Copy, Debug, PartialEq, Eq)]
enum Order {
    None,
    All,
    List,
    Any,
}

const ORDERS: [Order; 4] = [Order::None, Order::All, Order::List, Order::Any];

impl Order {
    fn table(self, list: &[u64], w: u32, random: u64) -> [u64; order::TABLE] {
        match self {
            Order::None => [0; order::TABLE],
            Order::All => [u64::MAX; order::TABLE],
            Order::List => order::table(list, w),
            Order::Any => [random; order::TABLE],
        }
    }
}

// A question: the list that it is about; the state to step to, or none where a bad state is asked for; the level; where it begins; and the stored states
// with their levels.
#[derive(Clone, Copy, Debug)]
struct Query<'a> {
    list: &'a [u64],
    target: Option<u64>,
    i: u32,
    from: u64,
    states: &'a [u64],
    levels: &'a [u32],
}

impl<'a> Query<'a> {
    // Whether the table says of the state what is asked.
    fn holds(self, table: Table, s: u64) -> bool {
        match self.target {
            Some(t) => table.is_step(s as usize, t as usize),
            None => table.is_bad(s as usize),
        }
    }

    // Whether the state is in R(i).
    fn is_inside(self, table: Table, s: u64) -> bool {
        if self.i == 0 {
            table.is_start(s as usize)
        } else {
            !small_systems::is_stored(self.states, self.levels, self.i, s)
        }
    }

    // The least state not below `from` that the table says so of and that is in R(i).
    fn walk(self, table: Table) -> Option<u64> {
        (self.from..tables::size(table.n) as u64).find(|s| self.holds(table, *s)
            && self.is_inside(table, *s))
    }

    // What the engine says.
    fn ask(self, free: Free, order: &[u64; order::TABLE], start: &[u64]) -> Option<u64> {
        match self.target {
            Some(target) => question::step_in(
                free,
                order,
                start,
                self.list,
                self.states,
                self.levels,
                self.i,
                target,
                self.from,
            ),
            None => question::bad_in(
                free,
                order,
                start,
                self.list,
                self.states,
                self.levels,
                self.i,
                self.from,
            ),
        }
    }

    // The question and a pair, each asked four times. Numbers above the 32 low bits of both states of a pair say nothing.
    fn turns(self, counts: &mut Counts<PLACES>, case: Case, random: u64) {
        let s = case.s;
        let wanted = self.walk(case.table);
        let state = tables::low(s.n, random >> 32);
        let so = self.holds(case.table, state);
        let high = random >> 40;
        let pair = (state | high << 32, self.target.unwrap_or(0) | high << 40);
        for order in ORDERS {
            // the last time with more wires declared than there can be
            let free = Free {
                n: s.n,
                w: if order == Order::Any { s.w | 64 } else { s.w },
            };
            let order = order.table(self.list, s.w, random);
            let said = self.ask(free, &order, s.start);
            counts.count(places::FOUND, said.is_some());
            counts.count(places::QUESTIONS_WRONG, said != wanted);
            counts.stir(places::QUESTIONS, said.unwrap_or(u64::MAX));
            let said = question::some_true(free, &order, self.list, pair.0, pair.1);
            counts.count(places::TRUE, said);
            counts.count(places::QUESTIONS_WRONG, said != so);
            counts.stir(places::QUESTIONS, u64::from(said));
        }
    }
}

// Stored states and their levels, 0 to 4.
fn fill(n: u32, states: &mut [u64; STORED], levels: &mut [u32; STORED], seed: u64) {
    let mut random = seed;
    for (state, level) in states.iter_mut().zip(levels.iter_mut()) {
        random = small_systems::next(random);
        *state = tables::low(n, random >> 8);
        *level = ((random >> 20) % 5) as u32;
    }
}

// One question about step, or about bad, from the front parts of what is stored: at times with fewer levels than states, or more.
fn ask_one(counts: &mut Counts<PLACES>, case: Case, steps: bool, random: u64) {
    let s = case.s;
    let mut states = [0; STORED];
    let mut levels = [0; STORED];
    fill(s.n, &mut states, &mut levels, random);
    let stored = ((random >> 48) % 17) as usize;
    let known = ((random >> 52) % 17) as usize;
    let q = Query {
        list: if steps { s.step } else { s.bad },
        target: steps.then_some(tables::low(s.n, random >> 16)),
        i: ((random >> 4) % 4) as u32,
        from: if (random >> 8) % 2 == 0 {
            0
        } else {
            tables::low(s.n, random >> 24)
        },
        states: &states[..stored],
        levels: &levels[..known],
    };
    q.turns(counts, case, random);
}

// All questions about step, or about bad.
pub fn calls(counts: &mut Counts<PLACES>, case: Case, steps: bool, seed: u64) {
    let mut random = seed;
    for _ in 0..TURNS {
        random = small_systems::next(random);
        ask_one(counts, case, steps, random);
    }
}
