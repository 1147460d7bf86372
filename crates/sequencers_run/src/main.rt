// The worked sequencers of the scope, and calls at the edge of each refusal, a line each: the number, the verdict, the questions, the evidence,
// and what the three stores hold afterwards. The file `stdout` is worked out by hand from the scope.
#![tactic(auto)]

use counts::write_number;
use system::System;

// Start {0} and bad {3}, of two bits. A clause has four masks: bits wanted 1, bits wanted 0, wires wanted 1, wires wanted 0.
const ZERO: [u64; 8] = [0, 1, 0, 0, 0, 2, 0, 0];

const THREE: [u64; 8] = [1, 0, 0, 0, 2, 0, 0, 0];

// 0→1→2→0, 3→3, in the clauses of the scope's example file.
const RING_STEPS: [u64; 24] = [
    0x2_0000_0000,
    0x0_0000_0001,
    0,
    0,
    0x0_0000_0001,
    0x2_0000_0000,
    0,
    0,
    0x1_0000_0003,
    0x0_0000_0000,
    0,
    0,
    0x1_0000_0000,
    0x0_0000_0003,
    0,
    0,
    0x0_0000_0001,
    0x1_0000_0002,
    0,
    0,
    0x0_0000_0002,
    0x1_0000_0001,
    0,
    0,
];

// As Ring, and 2→3: from 2 both later bits are the same.
const LATE_STEPS: [u64; 28] = [
    0x2_0000_0000,
    0x0_0000_0001,
    0,
    0,
    0x0_0000_0003,
    0x2_0000_0000,
    0,
    0,
    0x1_0000_0003,
    0x0_0000_0000,
    0,
    0,
    0x1_0000_0000,
    0x0_0000_0003,
    0,
    0,
    0x2_0000_0001,
    0x1_0000_0002,
    0,
    0,
    0x1_0000_0001,
    0x2_0000_0002,
    0,
    0,
    0x0_0000_0002,
    0x1_0000_0001,
    0,
    0,
];

// 0→0, 2→1→3→0: later bit 1 is 1 from 1 alone, later bit 0 from 1 and 2.
const CHAIN_STEPS: [u64; 28] = [
    0x2_0000_0002,
    0x0_0000_0001,
    0,
    0,
    0x0_0000_0001,
    0x2_0000_0000,
    0,
    0,
    0x0_0000_0000,
    0x2_0000_0002,
    0,
    0,
    0x1_0000_0002,
    0x0_0000_0001,
    0,
    0,
    0x1_0000_0001,
    0x0_0000_0002,
    0,
    0,
    0x0_0000_0003,
    0x1_0000_0000,
    0,
    0,
    0x0_0000_0000,
    0x1_0000_0003,
    0,
    0,
];

// A clause that no state fulfils.
const FALSE: [u64; 4] = [0; 4];

// The sequencers. What is not said of another system is as in Ring.
const RING: System<'static> = System {
    n: 2,
    w: 0,
    start: &ZERO,
    step: &RING_STEPS,
    bad: &THREE,
};

const LATE: System<'static> = System {
    step: &LATE_STEPS,
    ..RING
};

const CHAIN: System<'static> = System {
    step: &CHAIN_STEPS,
    ..RING
};

// What a call is lent: the lengths of its three stores, and how many questions it may ask.
#[derive(Clone, Copy)]
struct Lent {
    states: usize,
    levels: usize,
    path: usize,
    allowance: u32,
}

const USUAL: Lent = Lent {
    states: 4,
    levels: 4,
    path: 6,
    allowance: 1000,
};

// What the stores hold beforehand.
const FILLED: u64 = 9;

const FILLED_LEVEL: u32 = 9;

// The length of a whole store, longer than any that is lent.
const STORE: usize = 65540;

// A name and the numbers behind it, so many at most.
fn write_front<T: Copy + Into<u64>>(name: &[u8], numbers: &[T], most: usize) {
    io::write_all(1, name);
    for x in numbers.iter().take(most) {
        write_number(b" ", (*x).into());
    }
}

fn verdict(outcome: call::Outcome) -> &'static [u8] {
    match outcome {
        call::Outcome::Safe(_, _) => b" safe",
        call::Outcome::Unsafe(_, _) => b" unsafe",
        _ => b" neither",
    }
}

// What the line of a call has behind the name: of each store the front.
fn write_line(outcome: call::Outcome, states: &[u64], levels: &[u32], path: &[u64]) {
    write_number(b": ", u64::from(call::number(outcome)));
    io::write_all(1, verdict(outcome));
    write_number(b", questions ", u64::from(call::questions(outcome)));
    write_front(b", evidence", call::evidence(states, path, outcome), 6);
    write_front(b"; states", states, 4);
    write_front(b"; levels", levels, 4);
    write_front(b"; path", path, 6);
    io::write_all(1, b"\n");
}

// A search in these stores, and its line.
fn search(s: System, states: &mut [u64], levels: &mut [u32], path: &mut [u64], allowance: u32) {
    let outcome = search::search(s, states, levels, path, allowance);
    write_line(outcome, states, levels, path);
}

// A call and its line, behind the name.
fn lend(s: System, lent: Lent) {
    let mut states = [FILLED; STORE];
    let mut levels = [FILLED_LEVEL; STORE];
    let mut path = [FILLED; STORE];
    search(
        s,
        &mut states[..lent.states.min(STORE)],
        &mut levels[..lent.levels.min(STORE)],
        &mut path[..lent.path.min(STORE)],
        lent.allowance,
    );
}

fn call(name: &[u8], s: System, lent: Lent) {
    io::write_all(1, name);
    lend(s, lent);
}

// Stores that are as long as the room needs.
fn room(room: usize) -> Lent {
    Lent {
        states: room,
        levels: room,
        path: room.saturating_add(2),
        ..USUAL
    }
}

fn allowance(allowance: u32) -> Lent {
    Lent { allowance, ..USUAL }
}

fn sequencers() {
    call(b"Ring", RING, USUAL);
    call(b"Late", LATE, USUAL);
    call(b"Late, room 2", LATE, room(2));
    call(b"Late, room 1", LATE, room(1));
    call(b"Late, allowance 17", LATE, allowance(17));
    call(b"Late, allowance 16", LATE, allowance(16));
    call(b"Late, allowance 0", LATE, allowance(0));
}

// The last question is that of the last round, which stops behind it.
fn chains() {
    call(b"Chain", CHAIN, USUAL);
    call(b"Chain, room 3", CHAIN, room(3));
    call(b"Chain, room 2", CHAIN, room(2));
    call(b"Chain, allowance 21", CHAIN, allowance(21));
    call(b"Chain, allowance 20", CHAIN, allowance(20));
}

fn other_lists() {
    let all = System {
        start: &[],
        bad: &[],
        ..RING
    };
    let nowhere = System {
        start: &FALSE,
        ..RING
    };
    call(b"Ring, start and bad empty", all, USUAL);
    call(
        b"Ring, bad false",
        System {
            bad: &FALSE,
            ..RING
        },
        USUAL,
    );
    call(b"Ring, start false", nowhere, USUAL);
    call(b"Ring, start false, room 0", nowhere, room(0));
    call(b"Ring, start false, allowance 1", nowhere, allowance(1));
    call(b"Ring, start false, allowance 0", nowhere, allowance(0));
}

// Each state steps to each: from the least with this bit 0 to the least with it 1. With no bit, start and bad are a false clause each.
fn free(name: &[u8], n: u32, bit: u64) {
    let start = [0, bit, 0, 0];
    let bad = [bit, 0, 0, 0];
    let s = System {
        n,
        w: 0,
        start: &start,
        step: &[],
        bad: &bad,
    };
    call(name, s, USUAL);
}

fn sizes() {
    free(b"n = 1", 1, 1);
    free(b"n = 32", 32, 0x8000_0000);
    free(b"n = 0", 0, 0);
    free(b"n = 33", 33, 1);
}

// Ring with so many wires and another list of start, of step, or of bad.
// Stays: the three set a field each, which no parameter can name, and one function with a switch over the lists is longer than they are.
fn start(name: &[u8], w: u32, start: &[u64]) {
    call(name, System { w, start, ..RING }, USUAL);
}

fn step(name: &[u8], w: u32, step: &[u64]) {
    call(name, System { w, step, ..RING }, USUAL);
}

fn bad(name: &[u8], w: u32, bad: &[u64]) {
    call(name, System { w, bad, ..RING }, USUAL);
}

// Counts of masks that are no multiple of four.
fn wrong_counts() {
    start(b"one mask too few in start", 0, &ZERO[..7]);
    step(b"two masks too few in step", 0, &RING_STEPS[..22]);
    bad(b"three masks too few in bad", 0, &THREE[..1]);
}

// Lists of zero masks, all of whose clauses are false: there is no start state, no step, or no bad state.
fn many_clauses() {
    let zeros = [0; 16388];
    start(b"4096 start clauses", 0, &zeros[..16384]);
    start(b"4097 start clauses", 0, &zeros);
    step(b"4096 step clauses", 0, &zeros[..16384]);
    step(b"4097 step clauses", 0, &zeros);
    bad(b"4096 bad clauses", 0, &zeros[..16384]);
    bad(b"4097 bad clauses", 0, &zeros);
}

fn bits() {
    start(b"bit 2 in start", 0, &[0, 4, 0, 0]);
    start(b"later bit 0 in start", 0, &[0x1_0000_0000, 0, 0, 0]);
    step(b"bit 2 in step", 0, &[0, 4, 0, 0]);
    step(b"later bit 2 in step", 0, &[0x4_0000_0000, 0, 0, 0]);
    bad(b"later bit 0 in bad", 0, &[0x1_0000_0000, 0, 0, 0]);
}

// A wire that is wanted 1 can be: the clause says nothing, so every state is bad, or steps to every one.
fn wires() {
    call(b"Ring, w = 64", System { w: 64, ..RING }, USUAL);
    call(b"Ring, w = 65", System { w: 65, ..RING }, USUAL);
    start(b"wire 0 of 3 in start", 3, &[0, 0, 1, 0]);
    step(b"wire 2 of 3 in step", 3, &[0, 0, 4, 0]);
    step(b"wire 3 of 3 in step", 3, &[0, 0, 8, 0]);
    bad(b"wire 2 of 3 in bad", 3, &[0, 0, 4, 0]);
    bad(b"wire 3 of 3 in bad", 3, &[0, 0, 8, 0]);
}

// Ring with stores of these lengths, which stand behind the name.
fn stores(name: &[u8], states: usize, levels: usize, path: usize) {
    write_number(name, states as u64);
    write_number(b" ", levels as u64);
    write_number(b" ", path as u64);
    lend(
        RING,
        Lent {
            states,
            levels,
            path,
            ..USUAL
        },
    );
}

// A path store of two more than the room is enough, one more is not.
fn short_stores(name: &[u8]) {
    stores(name, 4, 4, 5);
    stores(name, 4, 3, 6);
    stores(name, 3, 4, 6);
    stores(name, 1, 1, 6);
    stores(name, 1, 1, 3);
    stores(name, 1, 1, 2);
    stores(name, 0, 0, 2);
    stores(name, 0, 0, 1);
}

// A room of 65,536 is the largest.
fn long_stores(name: &[u8]) {
    stores(name, 65536, 65536, 65538);
    stores(name, 65537, 65537, 65539);
}

// A bad list that uses bit 2, and a path store that is too short. Several refusals apply: the least is given.
fn order() {
    let lent = Lent { path: 5, ..USUAL };
    let third = System {
        bad: &[4, 0, 0, 0],
        ..RING
    };
    let second = System {
        start: &ZERO[..1],
        ..third
    };
    call(b"1, 2, 3 and 4", System { n: 0, ..second }, lent);
    call(b"2, 3 and 4", second, lent);
    call(b"3 and 4", third, lent);
}

fn main() {
    sequencers();
    chains();
    other_lists();
    sizes();
    wrong_counts();
    many_clauses();
    bits();
    wires();
    short_stores(b"Ring, stores ");
    long_stores(b"Ring, fronts of stores ");
    order();
}
