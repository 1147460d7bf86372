// Evidence, whole and damaged, given to both checks and held against the table.
use super::places::PLACES;
use super::systems::Case;
use super::{places, systems};
use base::Refusal;
use checks::Check;
use counts::Counts;
use evidence::Checked;
use tables::Table;

// How many damages of one list are tried.
const DAMAGES: u64 = 6;

// Room for a damaged list.
const ROOM: usize = 36;

// What a check said, as a number: which answer it was, and in front of it the count of questions or the number of the refusal.
fn number(said: Result<Checked, Refusal>) -> u64 {
    match said {
        Ok(Checked::Yes(asked)) => (asked as u64) << 2,
        Ok(Checked::No(asked)) => (asked as u64) << 2 | 1,
        Err(refusal) => u64::from(u32::from(refusal)) << 2 | 2,
    }
}

// Where an answer is counted.
fn place_of(said: Result<Checked, Refusal>) -> usize {
    match said {
        Ok(Checked::Yes(_)) => places::YES,
        Ok(Checked::No(_)) => places::NO,
        Err(_) => places::REFUSED,
    }
}

// Whether a check said what it must say, by the table.
fn is_right(said: Result<Checked, Refusal>, check: Check, table: Table, list: &[u64]) -> bool {
    let are_states = small_systems::are_states(table.n, list);
    match said {
        Ok(Checked::Yes(_)) => are_states && check.holds(table, list),
        Ok(Checked::No(_)) => are_states && !check.holds(table, list),
        Err(_) => !are_states,
    }
}

// The list in front of zeros, with a number put at a place.
fn copy(list: &[u64], place: usize, number: u64) -> [u64; ROOM] {
    let mut out = [0; ROOM];
    for (j, x) in out.iter_mut().enumerate() {
        *x = if j == place {
            number
        } else {
            list.get(j).copied().unwrap_or(0)
        };
    }
    out
}

impl<'a> Case<'a> {
    // A list given to both checks.
    fn both(self, counts: &mut Counts<PLACES>, list: &[u64]) {
        for check in [Check::Excluded, Check::Path] {
            let said = check.ask(self.s, list);
            counts.add(place_of(said), 1);
            counts.count(
                places::CHECKS_WRONG,
                !is_right(said, check, self.table, list),
            );
            counts.stir(places::CHECKS, number(said));
        }
    }

    // One damage: a number up to 2^n at some place, or at the one behind the last; and the last one cut off, or kept, or one more.
    fn damage(self, counts: &mut Counts<PLACES>, list: &[u64], random: u64) {
        let ends = list.len().wrapping_add(1);
        let place = systems::below(ends as u64, random >> 8) as usize;
        let number = systems::below(tables::size(self.s.n) as u64 | 1, random >> 16);
        let cut = ends.wrapping_sub((random >> 24) as usize % 3);
        let made = copy(list, place, number);
        let length = if list.is_empty() { 1 } else { cut };
        self.both(counts, small_systems::front(&made, length));
    }

    // The list itself, and some damages.
    pub fn damages(self, counts: &mut Counts<PLACES>, list: &[u64], seed: u64) {
        self.both(counts, list);
        let mut random = seed;
        for _ in 0..DAMAGES {
            random = small_systems::next(random);
            self.damage(counts, list, random);
        }
    }
}
