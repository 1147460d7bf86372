// Systems with wires, each tried by every call: searches, checks of their evidence, whole and damaged, lists of the states that step into one, questions,
// and pairs. Each answer is compared with a table that is made by trying all settings of the wires, and shares no code with the calls. The file `stdout`
// is from `expected.py`, which makes the same systems and answers once more.
#![tactic(auto)]

mod damages;
mod lists;
mod places;
mod questions;
mod refusals;
mod searches;
mod systems;

use counts::Counts;
use places::PLACES;
use systems::{Case, Wiring};
use tables::System;

// How many systems, and where the numbers start.
const SYSTEMS: u64 = 4000;

const SEED: u64 = 0x9E37_79B9_7F4A_7C15;

const START_SEED: u64 = 0xC2B2_AE3D_27D4_EB4F;

const STEP_SEED: u64 = 0x1656_67B1_9E37_79F9;

const BAD_SEED: u64 = 0xFF51_AFD7_ED55_8CCD;

// What is said of wires.
fn enter(counts: &mut Counts<PLACES>, wires: Wiring) {
    let steps = wires.in_step != 0;
    let bads = wires.in_bad != 0;
    counts.add(places::SYSTEMS, 1);
    counts.count(places::STEP_WIRES, steps && !bads);
    counts.count(places::BAD_WIRES, bads && !steps);
    counts.count(places::BOTH, steps && bads);
    counts.count(places::NEITHER, !steps && !bads);
    counts.count(places::BEYOND, wires.used() < wires.declared);
}

// Entry j of the table: a step or, behind the start states, a bad state. Whether it needs a wire at 1.
fn survey(counts: &mut Counts<PLACES>, case: Case, j: usize) {
    let s = case.s;
    let state = tables::low(s.n, j as u64);
    let row = j >> (s.n % 16);
    let size = tables::size(s.n);
    let true_of = case.table.at(state as usize, row);
    let pair = state | (row as u64) << 32;
    if row < size {
        counts.count(places::STEPS, true_of);
        counts.count(
            places::STEPS_BY_WIRE,
            true_of && !tables::list_holds(s.step, pair, 0),
        );
    }
    if row == size | 1 {
        counts.count(places::BADS, true_of);
        counts.count(
            places::BADS_BY_WIRE,
            true_of && !tables::list_holds(s.bad, state, 0),
        );
    }
}

// All calls of a system.
fn calls(counts: &mut Counts<PLACES>, case: Case, shape: u64) {
    searches::calls(counts, case, shape);
    lists::calls(counts, case);
    questions::calls(counts, case, true, shape);
    questions::calls(counts, case, false, shape >> 1);
}

// A system with wires from 0 on: its table is made, then its wires are shifted.
fn shift(counts: &mut Counts<PLACES>, wires: Wiring, s: System, shape: u64) {
    let mut room = [false; 1088];
    let mut step = [0; 256];
    let mut bad = [0; 128];
    let table = s.table(&mut room);
    for j in 0..(1usize << (s.n % 16 * 2)).wrapping_add(2 << (s.n % 16)) {
        survey(counts, Case { s, table }, j);
    }
    let shifted = System {
        n: s.n,
        w: wires.declared,
        start: s.start,
        step: wires.lifted(s.step, &mut step),
        bad: wires.lifted(s.bad, &mut bad),
    };
    calls(counts, Case { s: shifted, table }, shape);
}

// System number i.
fn system(counts: &mut Counts<PLACES>, i: u64, shape: u64) {
    let mut start = [0; 128];
    let mut step = [0; 256];
    let mut bad = [0; 128];
    let wires = Wiring::of(i, shape);
    let starts = wires.starts(shape >> 40);
    let steps = wires.steps(shape >> 32);
    let bads = wires.bads(shape >> 36);
    let s = System {
        n: wires.n,
        w: wires.used(),
        start: starts.fill(shape ^ START_SEED, &mut start),
        step: steps.fill(shape ^ STEP_SEED, &mut step),
        bad: bads.fill(shape ^ BAD_SEED, &mut bad),
    };
    enter(counts, wires);
    shift(counts, wires, s, shape);
}

fn main() {
    let mut counts = Counts::new();
    let mut seed = SEED;
    for i in 0..SYSTEMS {
        seed = small_systems::next(seed);
        system(&mut counts, i, seed);
    }
    places::write(&counts);
    refusals::write();
}
