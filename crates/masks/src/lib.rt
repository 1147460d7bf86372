// Functions on masks. Every 64-bit number is a mask and every number a position, so each function answers for every argument. A mask over a pair and the
// wires is two words; what is done with it is done with one number of 128 positions, so that a fact about masks is shown once for both words.
#![tactic(auto)]

ghost use Rattle.std.specs.Prelude.{true, ◌↔◌, ◌≡◌, ◌-◌, ◌%◌, ◌^◌, eqb};
ghost use Rattle.std.specs.Int.Bits.{bit_and, bit_or};
ghost use Rattle.masks.specs.Word.{width, word_of, OneBit};

// Positions of a pair, the state's bits in its low half and the same bits one step later in its high half; and of the wires.
#[derive(Clone, Copy, Debug, PartialEq, Eq)]
pub struct Mask {
    pub pair: u64,
    pub wires: u64,
}

// The mask with a 1 at position i alone; 0 if there is no such position in 64 bits.
pub fn power(i: u32) -> u64
    ensures { result ≡ 2 ^ i % 2 ^ 64 }
{
    if i < 64 { 1u64 << i } else { 0 }
}

// The positions of both.
pub fn and(a: Mask, b: Mask) -> Mask
    ensures { word_of result ≡ bit_and (word_of a) (word_of b) }
{
    Mask {
        pair: a.pair & b.pair,
        wires: a.wires & b.wires,
    }
}

// The positions of either.
pub fn or(a: Mask, b: Mask) -> Mask
    ensures { word_of result ≡ bit_or (word_of a) (word_of b) }
{
    Mask {
        pair: a.pair | b.pair,
        wires: a.wires | b.wires,
    }
}

// The positions of `a` that `b` has not.
pub fn without(a: Mask, b: Mask) -> Mask
    ensures { word_of result ≡ bit_and (word_of a) (2 ^ width - 1 - word_of b) }
{
    Mask {
        pair: a.pair & !b.pair,
        wires: a.wires & !b.wires,
    }
}

// Whether two masks have the same positions.
// Stays beside `==`: its promise is of masks as one number, and two must-fail edits are of it, `same_by_the_pair_alone` and `same_with_the_words_exchanged`.
pub fn same(a: Mask, b: Mask) -> bool
    ensures { result ≡ eqb (word_of a) (word_of b) }
{
    a == b
}

// Whether a mask has no position.
pub fn is_empty(m: Mask) -> bool
    ensures { result ≡ eqb (word_of m) 0 }
{
    m.pair | m.wires == 0
}

// Whether a word has one 1 alone.
fn is_power(x: u64) -> bool
    ensures { (result ≡ true) ↔ OneBit 64 x }
{
    if x == 0 {
        return false;
    }
    x == 1u64 << u64::trailing_zeros(x)
}

// Whether a mask has one position alone.
pub fn is_single(m: Mask) -> bool
    ensures { (result ≡ true) ↔ OneBit width (word_of m) }
{
    if m.wires == 0 {
        return is_power(m.pair);
    }
    if m.pair != 0 {
        return false;
    }
    is_power(m.wires)
}
