// In which order a question looks at clauses and tries bits. No answer depends on it, only time: so nothing is promised of a table, and any numbers are
// right. The clauses of a list stand in 64 blocks. A look goes through those that wait, and a bit that is settled wakes those in which it can force another
// bit or fail.
#![tactic(auto)]

// far is far.rt: which wires are tried first.
mod far;

ghost use Rattle.std.specs.Prelude.{◌≡◌, ◌+◌, ◌/◌, ◌≤◌};

use far::first;
use masks::Mask;

// A number for each bit of a pair, the blocks that want it 1; 64 further on those that want it 0; the same for the wires; and at the end the wires that are
// tried first.
pub const TABLE: usize = 257;

// How many of so many clauses a block has; the last one has fewer.
pub fn size(count: usize) -> usize
    ensures { result ≡ count / 64 + 1 }
{
    count / 64 + 1
}

// The lowest position of a mask; 64 if it has none.
fn lowest(mask: u64) -> usize
    ensures { result ≤ 64 }
{
    u64::trailing_zeros(mask) as usize
}

// Adds a block at each position of a mask, in the part of the table that begins at `part`.
fn mark(table: &mut [u64; TABLE], part: usize, mask: u64, block: u64)
    requires { part ≤ 192 }
{
    let mut left = mask;
    while 0 < left {
        let at = part + lowest(left);
        table[at] |= block;
        left &= left - 1;
    }
}

// Writes the table of a list, of w wires, over zeros.
fn fill(list: &[u64], w: u32, table: &mut [u64; TABLE]) {
    let count = list.len() / 4;
    let size = size(count);
    for j in 0..count {
        let block = masks::power((j / size) as u32);
        mark(table, 0, list[4 * j], block);
        mark(table, 64, list[4 * j + 1], block);
        mark(table, 128, list[4 * j + 2], block);
        mark(table, 192, list[4 * j + 3], block);
    }
    table[256] = first(list, w);
}

// The table of a list, of w wires.
pub fn table(list: &[u64], w: u32) -> [u64; TABLE] {
    let mut made = [0; TABLE];
    fill(list, w, &mut made);
    made
}

// The blocks of one part and the next that a bit wakes.
fn woken_of(table: &[u64; TABLE], part: usize, bit: u64, value: u64) -> u64
    requires { part ≤ 128 }
{
    let at = part + lowest(bit);
    if value == 0 {
        table[at]
    } else {
        table[at + 64]
    }
}

// The blocks that a bit wakes when it is settled at 0 or at the bit itself: those that want the other value.
pub fn woken(table: &[u64; TABLE], bit: Mask, value: Mask) -> u64 {
    if bit.wires == 0 {
        return woken_of(table, 0, bit.pair, value.pair);
    }
    woken_of(table, 128, bit.wires, value.wires)
}
