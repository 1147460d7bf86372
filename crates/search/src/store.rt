// The lent stores, and the store in them: `count` entries in order of first storing, an entry's state in the state store and, at the same index, its
// level in the level store. Entries are stored anew behind the others or raised in place, and none is taken out. Nothing is refused: a full store and a
// walk that finds nothing say `None`. Every method requires that the entries lie within the lent stores, which holds for a search that was not refused.
ghost use Rattle.std.specs.Prelude.{◌≡◌, ◌≤◌, ◌↔◌, IsTrue, position, length, take};
ghost use Rattle.std.specs.List.{Any};
ghost use Rattle.search.specs.Inner.{SameSlices, Holds, Walks, Judges, First, KeptAs, LeastGap, FrontOf};

// All the memory that a search has: the state store, the level store and the path store.
#[derive(Drop)]
pub(super) struct Lent<'a> {
    pub(super) states: &'a mut [u64],
    pub(super) levels: &'a mut [u32],
    pub(super) path: &'a mut [u64],
}

// The first index at which x stands.
fn place_of<T: PartialEq>(xs: &[T], x: &T) -> Option<usize>
    ensures { result ≡ position (λ y. T.eq y x.now) xs.now }
{
    xs.iter().position(|y| y == x)
}

impl Lent<'_> {
    // The entry that has the state s.
    fn entry_of(&self, count: usize, s: u64) -> Option<usize>
        requires { Holds count self.now.states.now self.now.levels.now }
        ensures { First self.now.states.now 0 count s result }
    {
        place_of(&self.states[..count], &s)
    }

    // s gets level k: its level is raised in place, or it is stored anew behind all others. The number stored then, if there was room.
    pub(super) fn store(&mut self, count: usize, s: u64, k: u32) -> Option<usize>
        requires { Holds count self.old.states.now self.old.levels.now }
        ensures kept_as { KeptAs self.old.states.now self.old.levels.now count s k self.new.states.now self.new.levels.now result }
        ensures path { self.new.path.now ≡ self.old.path.now }
        ensures slices { SameSlices self.old self.new }
    {
        if let Some(j) = self.entry_of(count, s) {
            self.levels[j] = k;
            return Some(count);
        }
        if count < self.states.len() {
            self.states[count] = s;
            self.levels[count] = k;
            return Some(count + 1);
        }
        None
    }

    // The first entry from j on that sits at level i exactly.
    pub(super) fn next_at(&self, count: usize, j: usize, i: u32) -> Option<usize>
        requires { Walks self.now.levels.now count j }
        ensures { First self.now.levels.now j count i result }
    {
        let further = place_of(&self.levels[j..count], &i)?;
        Some(j + further)
    }

    // Whether an entry before j sits at level i exactly. Of those that a round has tested the last is the likeliest to sit there still.
    pub(super) fn sits_before(&self, j: usize, i: u32) -> bool
        requires { j ≤ length self.now.levels.now }
        ensures { IsTrue result ↔ Any (λ l. l ≡ i) (take j self.now.levels.now) }
    {
        self.levels[..j].iter().rev().any(|level| *level == i)
    }

    // The smallest level from 1 up to below N at which no stored state sits exactly, or N.
    pub(super) fn gap(&self, count: usize, N: u32) -> u32
        requires { Judges self.now.levels.now count N }
        ensures { LeastGap self.now.levels.now count N result }
    {
        let mut i: u32 = 1;
        // Stays: the request names this form for this place: a loop over levels, with a walk inside that is left by label, yields the level (decision 140).
        let level = 'levels: loop {
            if i == N {
                break N;
            }
            let mut j = 0;
            loop {
                if j == count {
                    break 'levels i;
                }
                if self.levels[j] == i {
                    break;
                }
                j += 1;
            }
            i += 1;
        };
        level
    }

    // The states stored with a level of i or more come to the front, in their order; their number.
    pub(super) fn keep(&mut self, count: usize, i: u32) -> usize
        requires { Holds count self.old.states.now self.old.levels.now }
        ensures front { FrontOf self.old.states.now self.old.levels.now count i self.new.states.now result }
        ensures levels { self.new.levels.now ≡ self.old.levels.now }
        ensures path { self.new.path.now ≡ self.old.path.now }
        ensures slices { SameSlices self.old self.new }
    {
        let mut kept = 0;
        for j in 0..count {
            if i <= self.levels[j] {
                self.states[kept] = self.states[j];
                kept += 1;
            }
        }
        kept
    }
}
