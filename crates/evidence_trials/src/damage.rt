// The ways to damage a list of states. A state is removed at each place, or replaced by each other number up to 2^n; each number up to 2^n is
// added at each place; two neighbours are swapped at each place; the list is reversed; each state is listed twice; all are removed.
#[derive(Clone, Copy, Debug, PartialEq, Eq)]
pub enum Way {
    Kept,
    Removed,
    Replaced,
    Added,
    Swapped,
    Reversed,
    Twice,
    Empty,
}

pub const WAYS: [Way; 8] = [
    Way::Kept,
    Way::Removed,
    Way::Replaced,
    Way::Added,
    Way::Swapped,
    Way::Reversed,
    Way::Twice,
    Way::Empty,
];

impl Way {
    pub fn name(self) -> &'static [u8] {
        match self {
            Way::Kept => b"kept",
            Way::Removed => b"removed",
            Way::Replaced => b"replaced",
            Way::Added => b"added",
            Way::Swapped => b"swapped",
            Way::Reversed => b"reversed",
            Way::Twice => b"twice",
            Way::Empty => b"empty",
        }
    }
}

// One damage: the way, the place, and the number put there.
#[derive(Clone, Copy, Debug)]
pub struct Damage {
    pub way: Way,
    pub place: usize,
    pub number: u64,
}

impl Damage {
    // Whether the list has this damage.
    pub fn exists(self, n: u32, list: &[u64]) -> bool {
        let none = self.number == 0;
        let allowed = self.number <= tables::size(n) as u64;
        match self.way {
            Way::Kept | Way::Reversed | Way::Empty => none & (self.place == 0),
            Way::Removed | Way::Twice => none & (self.place < list.len()),
            Way::Swapped => none & (self.place.saturating_add(1) < list.len()),
            Way::Replaced => match list.get(self.place) {
                Some(old) => allowed & (self.number != *old),
                None => false,
            },
            Way::Added => (self.place <= list.len()) & allowed,
        }
    }

    // How long a list of k states is then.
    fn length(self, k: usize) -> usize {
        match self.way {
            Way::Removed => k.saturating_sub(1),
            Way::Added | Way::Twice => k.saturating_add(1),
            Way::Empty => 0,
            _ => k,
        }
    }

    // Where entry j of the damaged list stood among k states.
    fn source(self, k: usize, j: usize) -> usize {
        let up = j.wrapping_add(1);
        let down = j.wrapping_sub(1);
        match self.way {
            Way::Reversed => k.wrapping_sub(up),
            Way::Removed if self.place <= j => up,
            Way::Swapped if self.place == j => up,
            Way::Swapped if self.place == down => down,
            Way::Added | Way::Twice if self.place < j => down,
            _ => j,
        }
    }

    // Entry j of the damaged list.
    fn entry(self, list: &[u64], j: usize) -> u64 {
        match self.way {
            Way::Replaced | Way::Added if self.place == j => self.number,
            _ => list.get(self.source(list.len(), j)).copied().unwrap_or(0),
        }
    }

    // The damaged list, in front of the room.
    pub fn done<'b>(self, list: &[u64], room: &'b mut [u64; 20]) -> &'b [u64] {
        for (j, x) in room.iter_mut().enumerate() {
            *x = self.entry(list, j);
        }
        small_systems::front(room, self.length(list.len()))
    }
}
