// Searches of small random systems, compared with a walk over all states, which shares no code with the search or the question. The file `stdout`
// is from `expected.py`, which makes the same systems, walks, and searches once more as the scope says; and so is `stdin`, the questions that a search
// with full rounds asks of each system.
#![tactic(auto)]

mod systems;
mod tally;

use call::Outcome;
use checks::{Check, Stores};
use counts::Counts;
use evidence::Checked;
use small_systems::Kind;
use tables::{System, Table};
use tally::{Known, Later, PLACES, Said, Seen};

// How many systems, and where the numbers start.
const SYSTEMS: u64 = 5440;

const SEED: u64 = 0x9E37_79B9_7F4A_7C15;

const START_SEED: u64 = 0xC2B2_AE3D_27D4_EB4F;

const STEP_SEED: u64 = 0x1656_67B1_9E37_79F9;

const BAD_SEED: u64 = 0xFF51_AFD7_ED55_8CCD;

// What the stores hold beforehand.
const FILLED: u64 = 9;

const FILLED_LEVEL: u32 = 9;

// The largest room.
const ROOM: usize = 1024;

// The entries of a table of 10 bits.
const ENTRIES: usize = 1050624;

// Whether all lent is zero that is not evidence, of k states.
fn is_cleared(check: Option<Check>, k: usize, stores: Stores) -> bool {
    let (excluded, stepped) = match check {
        Some(Check::Excluded) => (k, 0),
        Some(Check::Path) => (0, k),
        None => (0, 0),
    };
    stores.states.iter().skip(excluded).all(|x| *x == 0)
        && stores.levels.iter().all(|x| *x == 0)
        && stores.path.iter().skip(stepped).all(|x| *x == 0)
}

// What a call did, looked at from every side. Where nothing was said there is no evidence, and nothing to accept.
fn look(s: System, table: Table, outcome: Outcome, stores: Stores) -> Seen {
    let list = call::evidence(stores.states, stores.path, outcome);
    let check = Check::of(outcome);
    let number = call::number(outcome);
    let questions = call::questions(outcome);
    let head = u64::from(number % 16) | Check::number(check) << 4 | u64::from(questions) << 8;
    Seen {
        said: Said {
            number,
            check,
            length: list.len(),
            questions,
            digest: small_systems::digest(head, list),
        },
        check: check.is_none_or(|check| matches!(check.ask(s, list), Ok(Checked::Yes(_)))),
        walk: check.is_none_or(|check| check.holds(table, list))
            && small_systems::are_states(s.n, list),
        zero: is_cleared(check, list.len(), stores),
    }
}

// A call with so much room.
fn call(s: System, table: Table, room: usize, allowance: u32) -> Seen {
    let mut states = [FILLED; ROOM];
    let mut levels = [FILLED_LEVEL; ROOM];
    let mut path = [FILLED; ROOM + 2];
    let room = room.min(ROOM);
    let states = &mut states[..room];
    let levels = &mut levels[..room];
    let path = &mut path[..room + 2];
    let outcome = search::search(checks::system_of(s), states, levels, path, allowance);
    let stores = Stores {
        states,
        levels,
        path,
    };
    look(s, table, outcome, stores)
}

// The questions of the next system with full rounds: four bytes of standard input, the high one first. 0 where there are none left.
fn next_full() -> u32 {
    let mut bytes = [0; 4];
    if io::read_full(0, &mut bytes) < 4 {
        return 0;
    }
    u32::from_be_bytes(bytes)
}

// Whether some state comes after s.
fn goes_on(table: Table, s: usize) -> bool {
    (0..tables::size(table.n)).any(|t| table.is_step(s, t))
}

fn survey(table: Table, full: u32) -> Known {
    let mut doom = [None; 1024];
    small_systems::distances(table, true, &mut doom);
    let states = tables::size(table.n);
    Known {
        m: doom
            .iter()
            .take(states)
            .enumerate()
            .filter(|(s, steps)| steps.is_some() && !table.is_start(*s))
            .count(),
        steps: doom
            .iter()
            .take(states)
            .enumerate()
            .filter(|(s, _)| table.is_start(*s))
            .filter_map(|(_, steps)| *steps)
            .min(),
        starts: (0..states).filter(|s| table.is_start(*s)).count(),
        bads: (0..states).filter(|s| table.is_bad(*s)).count(),
        ends: (0..states).filter(|s| !goes_on(table, *s)).count(),
        full,
    }
}

// All calls of a system: the first, two that differ in their allowance, and some to find the least room that suffices.
fn calls(counts: &mut Counts<PLACES>, s: System, table: Table, k: Known) {
    let enough = tally::most(k.m);
    let seen = call(s, table, k.m, enough);
    let first = seen.said;
    tally::enter_first(counts, k, seen);
    let seen = call(s, table, k.m, first.questions);
    tally::enter_later(counts, Later::Again, first, seen);
    let seen = call(s, table, k.m, first.questions.wrapping_sub(1));
    tally::enter_later(counts, Later::OneLess, first, seen);
    // it lies between low and high
    let mut low = 0;
    let mut high = k.m;
    while low < high {
        let room = low + (high - low) / 2;
        let seen = call(s, table, room, enough);
        tally::enter_later(counts, Later::LessRoom, first, seen);
        if seen.said.number == 6 {
            low = room + 1;
        } else {
            high = room;
        }
    }
    counts.add(tally::ROOMS, high as u64);
}

// One system.
fn trial(counts: &mut Counts<PLACES>, s: System, kind: Kind, room: &mut [bool]) {
    let table = s.table(room);
    let k = survey(table, next_full());
    tally::enter_system(counts, s, kind, k);
    calls(counts, s, table, k);
}

// System number i.
fn system(counts: &mut Counts<PLACES>, i: u64, shape: u64, room: &mut [bool]) {
    let mut start = [0; 4096];
    let mut step = [0; 16384];
    let mut bad = [0; 4096];
    let n = systems::bits_of(i);
    let steps = systems::steps_of(n, i, shape >> 24);
    let starts = systems::states_beside(steps, shape >> 32);
    let bads = systems::states_beside(steps, shape >> 40);
    let s = System {
        n,
        w: 0,
        start: starts.fill(shape ^ START_SEED, &mut start),
        step: steps.fill(shape ^ STEP_SEED, &mut step),
        bad: bads.fill(shape ^ BAD_SEED, &mut bad),
    };
    trial(counts, s, steps.kind, room);
}

fn main() {
    let mut counts = Counts::new();
    let mut room = [false; ENTRIES];
    let mut seed = SEED;
    for i in 0..SYSTEMS {
        seed = small_systems::next(seed);
        system(&mut counts, i, seed, &mut room);
    }
    tally::write(&counts);
}
