// Searches of a system, held against the table.
use super::places;
use super::places::PLACES;
use super::systems::Case;
use call::Outcome;
use checks::{Check, Stores};
use counts::Counts;
use tables::Table;

// What the stores hold beforehand.
const FILLED: u64 = 9;

const FILLED_LEVEL: u32 = 9;

// The largest room.
const ROOM: usize = 32;

// Whether the evidence is right, by the table. Where nothing was said there is none.
fn is_right(check: Option<Check>, table: Table, list: &[u64]) -> bool {
    let right = match check {
        Some(check) => check.holds(table, list),
        None => list.is_empty(),
    };
    right && small_systems::are_states(table.n, list)
}

// What a search told, counted.
fn enter(counts: &mut Counts<PLACES>, outcome: Outcome, length: usize) {
    let check = Check::of(outcome);
    let number = call::number(outcome);
    counts.count(places::SAFE, check == Some(Check::Excluded));
    counts.count(places::UNSAFE, check == Some(Check::Path));
    counts.count(places::SPENT, number == 5);
    counts.count(places::NO_ROOM, number == 6);
    counts.count(places::NO_START, number == 14);
    counts.add(places::EVIDENCE, length as u64);
    counts.add(places::ASKED, u64::from(call::questions(outcome)));
}

// What a search told and left in the stores, held against the table, and its evidence given to the checks.
fn look(counts: &mut Counts<PLACES>, case: Case, outcome: Outcome, stores: Stores, seed: u64) {
    let list = call::evidence(stores.states, stores.path, outcome);
    let check = Check::of(outcome);
    let right = is_right(check, case.table, list) && stores.levels.iter().all(|level| *level == 0);
    let head = u64::from(call::number(outcome))
        | Check::number(check) << 8
        | u64::from(call::questions(outcome)) << 16;
    enter(counts, outcome, list.len());
    counts.count(places::SEARCHES_WRONG, !right);
    counts.stir(
        places::SEARCHES,
        small_systems::digest(small_systems::digest(head, stores.states), stores.path),
    );
    if check.is_some() {
        case.damages(counts, list, seed);
    }
}

// A search with so much room.
fn search(counts: &mut Counts<PLACES>, case: Case, room: usize, allowance: u32, seed: u64) {
    let mut states = [FILLED; ROOM];
    let mut levels = [FILLED_LEVEL; ROOM];
    let mut path = [FILLED; ROOM + 2];
    let room = room.min(ROOM);
    let states = &mut states[..room];
    let levels = &mut levels[..room];
    let path = &mut path[..room + 2];
    let outcome = search::search(checks::system_of(case.s), states, levels, path, allowance);
    let stores = Stores {
        states,
        levels,
        path,
    };
    look(counts, case, outcome, stores, seed);
}

// A search with room and leave enough, one with a small room, and one with a small allowance.
pub fn calls(counts: &mut Counts<PLACES>, case: Case, shape: u64) {
    let room = ((shape >> 44) % 4) as usize;
    let leave = ((shape >> 46) % 16) as u32;
    search(counts, case, ROOM, 100000, shape);
    search(counts, case, room, 100000, shape >> 1);
    search(counts, case, ROOM, leave, shape >> 2);
}
