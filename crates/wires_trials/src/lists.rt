// The states that step into each state of a system, listed and held against the table.
use super::places;
use super::places::PLACES;
use super::systems::Case;
use base::Refusal;
use counts::Counts;
use into::{Listing, Unlisted};
use tables::Table;

// What a store holds beforehand.
const FILLED: u64 = 9;

// Room for all states, and one more.
const ROOM: usize = 33;

// The states that step to t, by the table, from 0 up.
fn row_of<'b>(table: Table, t: usize, room: &'b mut [u64; ROOM]) -> &'b [u64] {
    let states = (0..32).filter(|s| table.is_step(*s, t));
    let mut count = 0;
    for (k, (slot, s)) in room.iter_mut().zip(states).enumerate() {
        *slot = s as u64;
        count = k + 1;
    }
    small_systems::front(room, count)
}

// What a call told, as a number: of the refusal, of the states and of the questions.
// Stays: `number` of into_trials shifts otherwise, which the printed digests fix, and no crate below both programs knows `Listing` but the tested one.
fn number(said: Result<Listing, Unlisted>) -> u64 {
    match said {
        Ok(listing) => (listing.count as u64) << 8 | (listing.questions as u64) << 16,
        Err(unlisted) => u64::from(u32::from(unlisted.refusal)) | (unlisted.questions as u64) << 16,
    }
}

// What a call told and left in the store, held against the row: it has the row in front and zeros behind, or, if there is no room for it, zeros alone.
fn enter(counts: &mut Counts<PLACES>, said: Result<Listing, Unlisted>, store: &[u64], row: &[u64]) {
    let fits = row.len() <= store.len();
    let list = small_systems::front(row, if fits { row.len() } else { 0 });
    let questions = row.len().min(store.len()).wrapping_add(1);
    let wanted = if fits {
        Ok(Listing {
            count: row.len(),
            questions,
        })
    } else {
        Err(Unlisted {
            refusal: Refusal::Store,
            questions,
        })
    };
    let left = store
        .iter()
        .enumerate()
        .all(|(j, x)| *x == list.get(j).copied().unwrap_or(0));
    match said {
        Ok(listing) => {
            counts.add(places::LISTED, 1);
            counts.add(places::WRITTEN, listing.count as u64);
        }
        Err(unlisted) => counts.count(places::LISTS_REFUSED, unlisted.refusal == Refusal::Store),
    }
    counts.count(places::LISTS_WRONG, said != wanted || !left);
    counts.stir(places::LISTS, small_systems::digest(number(said), store));
}

// One state. There is room for all states; for every fourth state room for two.
fn list(counts: &mut Counts<PLACES>, case: Case, t: usize) {
    let mut row = [0; ROOM];
    let mut store = [FILLED; ROOM];
    let length = if t % 4 == 3 { 2 } else { ROOM };
    let store = &mut store[..length];
    let said = into::list(checks::system_of(case.s), t as u64, store);
    enter(counts, said, store, row_of(case.table, t, &mut row));
}

// Every state.
pub fn calls(counts: &mut Counts<PLACES>, case: Case) {
    for t in 0..tables::size(case.s.n) {
        list(counts, case, t);
    }
}
