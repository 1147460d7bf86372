// Each call held against what it has to do, counted and written.
use base::Refusal;
use counts::Counts;
use into::{Listing, Unlisted};

// What a store holds beforehand.
pub const FILLED: u64 = 0x0123_4567_89AB_CDEF;

// What is counted, by its place: systems and calls; the calls that list; those that are refused with 1, 2, 3, 29, 30 and any other number; the states
// written; a digest of all calls in turn; and the calls that are not as they have to be.
pub const PLACES: usize = 12;

pub const SYSTEMS: usize = 0;

const CALLS: usize = 1;

const LISTED: usize = 2;

const REFUSED_1: usize = 3;

const REFUSED_2: usize = 4;

const REFUSED_3: usize = 5;

const REFUSED_29: usize = 6;

const REFUSED_30: usize = 7;

const REFUSED_OTHERWISE: usize = 8;

const WRITTEN: usize = 9;

const DIGEST: usize = 10;

const DIFFER: usize = 11;

// Where a refusal is counted.
fn place_of(refusal: Refusal) -> usize {
    match refusal {
        Refusal::Size => REFUSED_1,
        Refusal::Masks => REFUSED_2,
        Refusal::Bits => REFUSED_3,
        Refusal::Given => REFUSED_29,
        Refusal::Store => REFUSED_30,
        _ => REFUSED_OTHERWISE,
    }
}

// What entry j has to hold: the list and zeros behind it, zero, or what it held.
fn entry(wanted: Result<Listing, Unlisted>, list: &[u64], j: usize) -> u64 {
    match wanted {
        Ok(_) => list.get(j).copied().unwrap_or(0),
        Err(unlisted) if unlisted.refusal == Refusal::Store => 0,
        Err(_) => FILLED,
    }
}

// What a call told, as a number: of the refusal, of the states and of the questions.
// Stays: `number` of wires_trials shifts otherwise, which the printed digests fix, and no crate below both programs knows `Listing` but the tested one.
fn number(said: Result<Listing, Unlisted>) -> u64 {
    match said {
        Ok(listing) => (listing.count as u64) << 8 | (listing.questions as u64) << 32,
        Err(unlisted) => u64::from(u32::from(unlisted.refusal)) | (unlisted.questions as u64) << 32,
    }
}

// A call entered: what it told and what it had to tell, and its store, in front of which the list has to stand if it lists.
pub fn enter(
    counts: &mut Counts<PLACES>,
    said: Result<Listing, Unlisted>,
    wanted: Result<Listing, Unlisted>,
    store: &[u64],
    list: &[u64],
) {
    let stored = store
        .iter()
        .enumerate()
        .all(|(j, x)| *x == entry(wanted, list, j));
    counts.stir(DIGEST, number(said));
    for x in store {
        counts.stir(DIGEST, *x);
    }
    counts.add(CALLS, 1);
    match said {
        Ok(listing) => {
            counts.add(LISTED, 1);
            counts.add(WRITTEN, listing.count as u64);
        }
        Err(unlisted) => counts.add(place_of(unlisted.refusal), 1),
    }
    counts.count(DIFFER, !stored || said != wanted);
}

pub fn write(counts: &Counts<PLACES>) {
    counts.write(
        19,
        &[
            b"systems",
            b"calls",
            b"listed",
            b"refused with 1",
            b"refused with 2",
            b"refused with 3",
            b"refused with 29",
            b"refused with 30",
            b"refused otherwise",
            b"states written",
            b"digest",
            b"differ",
        ],
    );
}
