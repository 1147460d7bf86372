// Systems that the search and the list of states refuse, at the edges of what wires may be.
use counts::write_number;
use tables::{List, System};

// What the search says of a system with room for two.
fn searched(s: System) -> u32 {
    let mut states = [0; 2];
    let mut levels = [0; 2];
    let mut path = [0; 4];
    call::number(search::search(
        checks::system_of(s),
        &mut states,
        &mut levels,
        &mut path,
        100,
    ))
}

// What the list of states that step into one says, given a number that is no state; 0 if it is not refused.
fn listed(s: System) -> u32 {
    let mut store = [0; 4];
    match into::list(checks::system_of(s), 4, &mut store) {
        Ok(_) => 0,
        Err(unlisted) => u32::from(unlisted.refusal),
    }
}

// An edge: how many wires are declared, and a list's masks, so many of a clause with these wires wanted 1 and 0.
#[derive(Clone, Copy, Debug)]
struct Edge(u32, usize, u64, u64);

const EDGES: [Edge; 12] = [
    Edge(3, 1, 8, 0),
    Edge(3, 2, 8, 0),
    Edge(3, 3, 8, 0),
    Edge(3, 4, 4, 0),
    Edge(3, 4, 0, 4),
    Edge(3, 4, 8, 0),
    Edge(3, 4, 0, 8),
    Edge(0, 4, 1, 0),
    Edge(63, 4, 0, 1 << 63),
    Edge(64, 4, 0, 1 << 63),
    Edge(65, 4, 0, 0),
    Edge(65, 3, 0, 0),
];

// A system with one list that is not empty, the one of this number.
fn line(number: u64, which: List, edge: Edge) {
    let Edge(w, masks, on, off) = edge;
    let clause = [0, 0, on, off];
    let s = System::of_one(2, w, which, small_systems::front(&clause, masks));
    write_number(b"w ", u64::from(w));
    write_number(b", list ", number);
    write_number(b" with masks ", masks as u64);
    write_number(b" of 0 0 ", on);
    write_number(b" ", off);
    write_number(b": ", u64::from(searched(s)));
    write_number(b" and ", u64::from(listed(s)));
    io::write_all(1, b"\n");
}

// The edges of one list.
fn lines(number: u64, which: List) {
    for edge in EDGES {
        line(number, which, edge);
    }
}

pub fn write() {
    lines(0, List::Start);
    lines(1, List::Step);
    lines(2, List::Bad);
}
