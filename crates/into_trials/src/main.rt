// The states that step into a given one, listed for small random systems in stores of every length near the right one, and compared with a walk over
// all states, which shares no code with the call. The file `stdout` is from `expected.py`, which makes the same systems and lists once more.
#![tactic(auto)]

mod entered;
mod refused;
mod systems;

use base::Refusal;
use counts::Counts;
use entered::{FILLED, PLACES};
use into::{Listing, Unlisted};
use small_systems::{Kind, Plan};
use systems::{Given, NO_STATES};
use tables::System;

// How many systems, and where the numbers start.
const SYSTEMS: u64 = 2048;

const SEED: u64 = 0x9E37_79B9_7F4A_7C15;

const START_SEED: u64 = 0xC2B2_AE3D_27D4_EB4F;

const STEP_SEED: u64 = 0x1656_67B1_9E37_79F9;

const BAD_SEED: u64 = 0xFF51_AFD7_ED55_8CCD;

// A system, and the number that it is given.
#[derive(Clone, Copy, Debug)]
struct Call<'a> {
    s: System<'a>,
    state: u64,
}

impl<'a> Call<'a> {
    // The states that step to the given one, from 0 up.
    fn walk<'b>(self, room: &'b mut [u64; 1024]) -> &'b [u64] {
        let Call { s, state } = self;
        let all = 0..tables::size(s.n) as u64;
        let found = all.filter(|from| tables::list_holds(s.step, *from | state << 32, 0));
        let mut count = 0;
        for (k, (slot, from)) in room.iter_mut().zip(found).enumerate() {
            *slot = from;
            count = k + 1;
        }
        small_systems::front(room, count)
    }

    // A call, held against what it has to tell and against the list of the walk, and counted.
    fn ask(
        self,
        counts: &mut Counts<PLACES>,
        store: &mut [u64],
        list: &[u64],
        wanted: Result<Listing, Unlisted>,
    ) {
        let said = into::list(checks::system_of(self.s), self.state, store);
        entered::enter(counts, said, wanted, store, list);
    }

    // A call that is refused before a question. The store, of a few numbers, has to stay as it is.
    fn refuse(self, counts: &mut Counts<PLACES>, refusal: Refusal, random: u64) {
        let mut store = [FILLED; 16];
        let room = ((random >> 48) % 17) as usize;
        let wanted = Err(Unlisted {
            refusal,
            questions: 0,
        });
        self.ask(counts, &mut store[..room], &[], wanted);
    }

    // A call with a store of this length, which is at most two more than the number of states.
    fn lend(self, counts: &mut Counts<PLACES>, list: &[u64], length: usize) {
        let mut store = [FILLED; 1026];
        let room = length.min(1026);
        let right = list.len();
        let wanted = if right <= room {
            Ok(Listing {
                count: right,
                questions: right.wrapping_add(1),
            })
        } else {
            Err(Unlisted {
                refusal: Refusal::Store,
                questions: room.wrapping_add(1),
            })
        };
        self.ask(counts, &mut store[..room], list, wanted);
    }

    // A store of each length: none, and from two less than the right one to two more.
    fn lengths(self, counts: &mut Counts<PLACES>) {
        let mut room = [0; 1024];
        let list = self.walk(&mut room);
        self.lend(counts, list, 0);
        for more in 1..6 {
            let length = list.len().saturating_add(more).saturating_sub(3);
            self.lend(counts, list, length);
        }
    }
}

// Some given states, and as many numbers that are none.
fn targets(counts: &mut Counts<PLACES>, s: System, seed: u64) {
    let mut random = seed;
    for given in NO_STATES {
        random = small_systems::next(random);
        let right = Call {
            s,
            state: Given::State.number(s.n, random >> 8),
        };
        right.lengths(counts);
        let wrong = Call {
            s,
            state: given.number(s.n, random),
        };
        wrong.refuse(counts, Refusal::Given, random);
    }
}

// System number i.
fn system(counts: &mut Counts<PLACES>, i: u64, shape: u64) {
    let mut start = [0; 128];
    let mut step = [0; 2048];
    let mut bad = [0; 128];
    let n = systems::bits_of(i);
    counts.add(entered::SYSTEMS, 1);
    let kind = systems::kind_of(n, shape >> 24);
    let steps = Plan {
        kind,
        density: systems::density(kind, n, shape >> 32),
        n,
        w: 0,
        later: true,
    };
    let states = Plan {
        kind: Kind::Clauses,
        density: (shape >> 56) % 32,
        n,
        w: 0,
        later: false,
    };
    let s = System {
        n,
        w: 0,
        start: states.fill(shape ^ START_SEED, &mut start),
        step: steps.fill(shape ^ STEP_SEED, &mut step),
        bad: states.fill(shape ^ BAD_SEED, &mut bad),
    };
    targets(counts, s, shape);
    refused::calls(counts, n, shape);
}

fn main() {
    let mut counts = Counts::new();
    let mut seed = SEED;
    for i in 0..SYSTEMS {
        seed = small_systems::next(seed);
        system(&mut counts, i, seed);
    }
    entered::write(&counts);
}
