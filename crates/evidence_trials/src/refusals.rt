// Systems, or listed numbers, that both checks refuse.
use checks::Check;
use counts::write_number;
use tables::{List, System};

// What a check refuses, of a system and a listed number that is no state; 0 if it does not.
fn refusal(check: Check, s: System) -> u64 {
    match check.ask(s, &[1 << 33]) {
        Ok(_) => 0,
        Err(refusal) => u64::from(u32::from(refusal)),
    }
}

// A system with one list that is not empty, some masks of a clause, and how both checks refuse it.
fn write_refusal(n: u32, w: u32, wrong: List, masks: usize, clause: [u64; 4]) {
    let s = System::of_one(n, w, wrong, small_systems::front(&clause, masks));
    write_number(b"n ", n as u64);
    write_number(b", w ", w as u64);
    io::write_all(
        1,
        match wrong {
            List::Start => b", start ",
            List::Step => b", step  ",
            List::Bad => b", bad   ",
        },
    );
    write_number(b"with masks ", masks as u64);
    io::write_all(1, b" of");
    for mask in &clause {
        write_number(b" ", *mask);
    }
    write_number(b": refused with ", refusal(Check::Excluded, s));
    write_number(b" and ", refusal(Check::Path, s));
    io::write_all(1, b"\n");
}

// Refusal 1: too few or too many bits or wires.
fn sizes() {
    write_refusal(0, 0, List::Start, 0, [0; 4]);
    write_refusal(33, 0, List::Start, 0, [0; 4]);
    write_refusal(2, 64, List::Start, 0, [0; 4]);
    write_refusal(2, 65, List::Start, 0, [0; 4]);
}

// Refusal 2: a list of one, two or three masks.
fn mask_counts(wrong: List) {
    for masks in 1..4 {
        write_refusal(2, 0, wrong, masks, [1, 0, 0, 0]);
    }
}

// Refusal 3: a bit not below n, a later bit of start or bad.
fn bits() {
    write_refusal(2, 0, List::Start, 4, [4, 0, 0, 0]);
    write_refusal(2, 0, List::Step, 4, [4, 0, 0, 0]);
    write_refusal(2, 0, List::Step, 4, [0, 1 << 34, 0, 0]);
    write_refusal(2, 0, List::Bad, 4, [0, 4, 0, 0]);
    write_refusal(2, 0, List::Start, 4, [1 << 32, 0, 0, 0]);
    write_refusal(2, 0, List::Bad, 4, [1 << 32, 0, 0, 0]);
}

// Refusal 3: any wire of start, a wire of step or bad that is not below w. Wire w - 1 is right.
fn wires(wrong: List) {
    write_refusal(2, 3, wrong, 4, [0, 0, 4, 0]);
    write_refusal(2, 3, wrong, 4, [0, 0, 0, 4]);
    write_refusal(2, 3, wrong, 4, [0, 0, 8, 0]);
    write_refusal(2, 3, wrong, 4, [0, 0, 0, 8]);
    write_refusal(2, 0, wrong, 4, [0, 0, 0, 1]);
    write_refusal(2, 64, wrong, 4, [0, 0, 1 << 63, 0]);
    write_refusal(2, 63, wrong, 4, [0, 0, 1 << 63, 0]);
}

// Refusals 1, 2 and 3 come before 7, 1 before 2, 2 before 3. The last list is right.
pub fn write() {
    sizes();
    mask_counts(List::Start);
    mask_counts(List::Step);
    mask_counts(List::Bad);
    bits();
    wires(List::Start);
    wires(List::Step);
    wires(List::Bad);
    write_refusal(0, 0, List::Step, 1, [1, 0, 0, 0]);
    write_refusal(2, 65, List::Step, 3, [0, 0, 8, 0]);
    write_refusal(2, 0, List::Start, 1, [4, 0, 0, 0]);
    write_refusal(2, 3, List::Bad, 3, [0, 0, 8, 0]);
    write_refusal(2, 3, List::Step, 4, [1 << 33, 0, 0, 0]);
}
