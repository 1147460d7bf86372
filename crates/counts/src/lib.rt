// What a trial counts: N numbers, each at its place, and the lines that say them. A place that is none of the N holds 0 and takes nothing.
#![tactic(auto)]

ghost use Rattle.std.specs.Prelude.{◌≡◌, ℕ, ◌+◌, ◌%◌, ◌^◌, ◌<◌, ◌≢◌, IsTrue, List, bit_xor, false, replicate, slice_index};
ghost use Rattle.small_systems.specs.Random.{next_of};

use std::marker::Model;

// The numbers, by their places.
#[derive(Debug, Drop)]
pub struct Counts<const N: usize> {
    numbers: [u64; N],
}

// Clauses see the numbers.
impl<const N: usize> Model for Counts<N> {
    ghost Value = { List ℕ };

    ghost view = { λ c. c.numbers };
}

impl<const N: usize> Counts<N> {
    pub fn new() -> Counts<N>
        ensures { result ≡ replicate N 0 }
    {
        Counts { numbers: [0; N] }
    }

    // The number at the place.
    pub fn at(&self, place: usize) -> u64
        ensures { result ≡ slice_index self.now place }
    {
        self.numbers.get(place).copied().unwrap_or(0)
    }

    pub fn add(&mut self, place: usize, more: u64)
        ensures there { place < N → slice_index self.new place ≡ (slice_index self.old place + more) % 2 ^ 64 }
        ensures others { (k : ℕ) → k ≢ place → slice_index self.new k ≡ slice_index self.old k }
    {
        if place < N {
            self.numbers[place] = self.numbers[place].wrapping_add(more);
        }
    }

    // One more, if it is so.
    pub fn count(&mut self, place: usize, so: bool)
        ensures there { IsTrue so → place < N → slice_index self.new place ≡ (slice_index self.old place + 1) % 2 ^ 64 }
        ensures others { (k : ℕ) → k ≢ place → slice_index self.new k ≡ slice_index self.old k }
        ensures not { so ≡ false → self.new ≡ self.old }
    {
        if so {
            self.add(place, 1);
        }
    }

    // The digest at the place, with one number more.
    pub fn stir(&mut self, place: usize, number: u64)
        ensures there { place < N → slice_index self.new place ≡ next_of (bit_xor (slice_index self.old place) number) }
        ensures others { (k : ℕ) → k ≢ place → slice_index self.new k ≡ slice_index self.old k }
    {
        if place < N {
            self.numbers[place] = small_systems::next(self.numbers[place] ^ number);
        }
    }

    // A line for each number, in their order: its name, filled up with spaces to the width, in front of it.
    pub fn write(&self, width: usize, names: &[&[u8]]) {
        for (name, number) in names.iter().zip(&self.numbers) {
            write_name(name, width);
            io::print_decimal(1, *number);
            io::write_all(1, b"\n");
        }
    }
}

// A name, filled up with spaces to the width.
pub fn write_name(name: &[u8], width: usize) {
    io::write_all(1, name);
    for _ in name.len()..width {
        io::write_all(1, b" ");
    }
}

// A name, and a number behind it.
pub fn write_number(name: &[u8], number: u64) {
    io::write_all(1, name);
    io::print_decimal(1, number);
}
