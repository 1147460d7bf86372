// Right evidence for small systems, damaged in every single way and given to both checks. Their answers are compared with a walk over all states,
// which shares no code with them. The file `stdout` is from `expected.py`, which makes the same systems and damages and decides once more.
#![tactic(auto)]

mod answers;
mod damage;
mod found;
mod refusals;
mod tally;

use answers::Answer;
use checks::Check;
use damage::{Damage, WAYS};
use found::Found;
use small_systems::{Kind, Plan};
use tables::{System, Table};
use tally::Tally;

// How many systems, and where the numbers start.
const SYSTEMS: u64 = 128;

const SEED: u64 = 0x9E37_79B9_7F4A_7C15;

const START_SEED: u64 = 0xC2B2_AE3D_27D4_EB4F;

const STEP_SEED: u64 = 0x1656_67B1_9E37_79F9;

const BAD_SEED: u64 = 0xFF51_AFD7_ED55_8CCD;

// A damage of the evidence given to one check.
fn compare(tally: &mut Tally, check: Check, d: Damage, found: Found, s: System, table: Table) {
    let mut room = [0; 20];
    let list = d.done(found.list, &mut room);
    let said = check.ask(s, list);
    let wanted = Answer::wanted(check, table, list);
    tally.enter(check, found.own, d.way, said, wanted, list.len());
}

// Every damage of the evidence, given to both checks.
fn cases(tally: &mut Tally, found: Found, s: System, table: Table) {
    for way in WAYS {
        for place in 0..32 {
            for number in 0..32 {
                let d = Damage { way, place, number };
                if d.exists(s.n, found.list) {
                    compare(tally, Check::Excluded, d, found, s, table);
                    compare(tally, Check::Path, d, found, s, table);
                }
            }
        }
    }
}

fn try_evidence(tally: &mut Tally, second: bool, s: System, table: Table) {
    let mut room = [0; 20];
    let found = found::find(second, table, &mut room);
    tally.found(found.own);
    cases(tally, found, s, table);
}

fn both(tally: &mut Tally, s: System) {
    let mut room = [false; 288];
    let table = s.table(&mut room);
    try_evidence(tally, false, s, table);
    try_evidence(tally, true, s, table);
}

// The kind of start and bad lists: mostly some states.
fn kind_of(bits: u64) -> Kind {
    match bits % 16 {
        0 => Kind::Nothing,
        1 => Kind::Everything,
        2 => Kind::Clauses,
        _ => Kind::Part,
    }
}

// The kind of the steps.
fn step_kind(i: u64) -> Kind {
    match i % 16 {
        1 | 9 => Kind::Clauses,
        2 | 10 => Kind::Chain,
        3 | 11 => Kind::Loops,
        4 | 12 => Kind::Down,
        6 => Kind::Nothing,
        14 => Kind::Everything,
        _ => Kind::Part,
    }
}

// System number i.
fn system(tally: &mut Tally, i: u64, shape: u64) {
    let mut start = [0; 64];
    let mut step = [0; 1024];
    let mut bad = [0; 64];
    let n = (i % 4 + 1) as u32;
    let few = (shape >> 24) % 3 + 2;
    let many = (shape >> 28) % 4 + 2;
    let kind = step_kind(i >> 2);
    let steps = Plan {
        kind,
        density: if kind == Kind::Clauses {
            many * 4
        } else {
            many
        },
        n,
        w: 0,
        later: true,
    };
    let starts = Plan {
        kind: kind_of(shape >> 32),
        density: few,
        n,
        w: 0,
        later: false,
    };
    let bads = Plan {
        kind: kind_of(shape >> 40),
        ..starts
    };
    let s = System {
        n,
        w: 0,
        start: starts.fill(shape ^ START_SEED, &mut start),
        step: steps.fill(shape ^ STEP_SEED, &mut step),
        bad: bads.fill(shape ^ BAD_SEED, &mut bad),
    };
    both(tally, s);
}

fn main() {
    let mut tally = Tally::new();
    let mut seed = SEED;
    for i in 0..SYSTEMS {
        seed = small_systems::next(seed);
        system(&mut tally, i, seed);
    }
    tally.write();
    refusals::write();
}
