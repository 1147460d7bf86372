// Right evidence of a system, found by the walk over all states.
use checks::Check;
use tables::Table;

// Evidence found, and the check that it is for.
#[derive(Clone, Copy, Debug)]
pub struct Found<'a> {
    pub own: Check,
    pub list: &'a [u64],
}

// A state, and the steps from it to a bad one.
#[derive(Clone, Copy, Debug)]
struct Doomed {
    state: usize,
    steps: u32,
}

// The states that no way leads to; or else the others.
fn collect<'b>(
    n: u32,
    dist: &[Option<u32>; 16],
    never: bool,
    room: &'b mut [u64; 20],
) -> &'b [u64] {
    let all = dist.iter().enumerate().take(tables::size(n));
    let states = all.filter(|(_, d)| d.is_none() == never);
    let mut count = 0;
    for (k, (slot, (s, _))) in room.iter_mut().zip(states).enumerate() {
        *slot = s as u64;
        count = k + 1;
    }
    small_systems::front(room, count)
}

// Whether t can come after s, or at the beginning.
fn follows(table: Table, s: Option<usize>, t: usize) -> bool {
    match s {
        None => table.is_start(t),
        Some(s) => table.is_step(s, t),
    }
}

// The state after s, or at the beginning, from which a bad one is nearest, or farthest; the least of several.
fn choose(table: Table, doom: &[Option<u32>; 16], s: Option<usize>, far: bool) -> Option<Doomed> {
    let mut best: Option<Doomed> = None;
    for (state, steps) in doom.iter().enumerate() {
        if let Some(steps) = *steps {
            let better = match best {
                None => true,
                Some(b) => if far {
                    b.steps < steps
                } else {
                    steps < b.steps
                },
            };
            if better && follows(table, s, state) {
                best = Some(Doomed { state, steps });
            }
        }
    }
    best
}

// A path from the state to a bad one: after a few detours, the shortest.
fn walk<'b>(
    table: Table,
    doom: &[Option<u32>; 16],
    detours: usize,
    first: Doomed,
    room: &'b mut [u64; 20],
) -> &'b [u64] {
    let mut next = Some(first);
    let mut k = 0;
    for (j, x) in room.iter_mut().enumerate() {
        if let Some(here) = next {
            *x = here.state as u64;
            k = j + 1;
            let away = j < detours;
            next = if away || here.steps != 0 {
                choose(table, doom, Some(here.state), away)
            } else {
                None
            };
        }
    }
    small_systems::front(room, k)
}

// The first evidence is the shortest path, or the states that lead to a bad one; the second a longer path, or the states that are never reached.
pub fn find<'b>(second: bool, table: Table, room: &'b mut [u64; 20]) -> Found<'b> {
    let mut dist = [None; 16];
    small_systems::distances(table, true, &mut dist);
    if let Some(first) = choose(table, &dist, None, second) {
        let detours = if second { 3 } else { 0 };
        return Found {
            own: Check::Path,
            list: walk(table, &dist, detours, first, room),
        };
    }
    if second {
        small_systems::distances(table, false, &mut dist);
    }
    Found {
        own: Check::Excluded,
        list: collect(table.n, &dist, second, room),
    }
}
