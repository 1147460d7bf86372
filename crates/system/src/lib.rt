// Systems of the scope: whether a clause and a list are true of a word, a pair and a setting of the wires, and refusals 1 to 3. A clause is tested by
// whole masks, never bit by bit. Each public function takes every argument: a list whose count of masks is no multiple of four too, of which `refusal`
// says that it is wrong.
#![tactic(auto)]

ghost use Rattle.std.specs.Prelude.{◌≡◌, ◌^◌, ◌≤◌, leb};
ghost use Rattle.system.specs.System.{clause_true, four_true, list_true, wrong_size, wrong_count, wrong_counts, wrong_mask, wrong_clause, wrong_bit, wrong_bits, refusal_of};
ghost use Rattle.system.specs.Lent.{system_in, clause_by};
ghost use Rattle.base.specs.Numbers.{code_of};

use base::Refusal;
use masks::Mask;

// A system of n state bits and w wires, whose lists are lent.
#[derive(Clone, Copy)]
pub struct System<'a> {
    pub n: u32,
    pub w: u32,
    pub start: &'a [u64],
    pub step: &'a [u64],
    pub bad: &'a [u64],
}

// A clause: the bits and wires wanted 1, and those wanted 0.
#[derive(Clone, Copy)]
pub struct Clause {
    pub ones: Mask,
    pub zeros: Mask,
}

impl Clause {
    // Of four masks in the order of a list.
    pub fn new(ones: u64, zeros: u64, wire_ones: u64, wire_zeros: u64) -> Clause
        ensures { result ≡ clause_by ones zeros wire_ones wire_zeros }
    {
        Clause {
            ones: Mask {
                pair: ones,
                wires: wire_ones,
            },
            zeros: Mask {
                pair: zeros,
                wires: wire_zeros,
            },
        }
    }
}

// Whether two masks are true of a word: a position wanted 1 is 1, or one wanted 0 is 0.
fn masks_true(ones: u64, zeros: u64, word: u64) -> bool
    ensures { result ≡ clause_true ones zeros word }
{
    if ones & word != 0 {
        return true;
    }
    zeros & word != zeros
}

// Whether the clause is true of a pair and a setting of the wires.
pub fn clause_true(c: Clause, word: Mask) -> bool
    ensures { result ≡ four_true c.ones.pair c.zeros.pair c.ones.wires c.zeros.wires word.pair word.wires }
{
    let Clause { ones, zeros } = c;
    masks_true(ones.pair, zeros.pair, word.pair) || masks_true(ones.wires, zeros.wires, word.wires)
}

// Whether each clause of the list is true of a pair and a setting of the wires. Fewer than four masks at its end say nothing.
pub fn list_true(list: &[u64], word: Mask) -> bool
    ensures { result ≡ list_true list.now word.pair word.wires }
{
    let mut left = list;
    while let [a, b, c, d, rest @ ..] = left {
        if !clause_true(Clause::new(*a, *b, *c, *d), word) {
            return false;
        }
        left = rest;
    }
    true
}

// Refusal 1. The parentheses are the definition's.
fn wrong_size(n: u32, w: u32) -> bool
    ensures { result ≡ wrong_size n w }
{
    n == 0 || (32 < n || 64 < w)
}

// Refusal 2, for one list.
fn wrong_count(list: &[u64]) -> bool
    ensures { result ≡ wrong_count list.now }
{
    list.len() % 4 != 0 || base::MOST_CLAUSES < list.len() / 4
}

// Refusal 2. The parentheses are the definition's.
fn wrong_counts(start: &[u64], step: &[u64], bad: &[u64]) -> bool
    ensures { result ≡ wrong_counts start.now step.now bad.now }
{
    wrong_count(start) || (wrong_count(step) || wrong_count(bad))
}

// A mask's low half is what remains by 2^32, its high half the quotient.
const HALF: u64 = 1 << 32;

// Whether a word has a bit from position k on, that is, whether it is not below 2^k.
fn reaches(k: u32, x: u64) -> bool
    requires { k ≤ 64 }
    ensures { result ≡ leb (2 ^ k) x }
{
    k < 64 && masks::power(k) <= x
}

// What a list may use: bits below `low`, later ones below `high`, and wires below `wires`.
#[derive(Clone, Copy)]
struct Limits {
    low: u32,
    high: u32,
    wires: u32,
    ghost in_range: { (low ≤ 32) × (high ≤ 32) × (wires ≤ 64) },
}

impl Limits {
    fn of(low: u32, high: u32, wires: u32) -> Limits
        requires { (low ≤ 32) × (high ≤ 32) × (wires ≤ 64) }
        ensures low { result.low ≡ low }
        ensures high { result.high ≡ high }
        ensures wires { result.wires ≡ wires }
    {
        Limits { low, high, wires }
    }

    // Refusal 3, for one mask of the pair.
    fn wrong_mask(self, x: u64) -> bool
        ensures { result ≡ wrong_mask self.low self.high x }
    {
        reaches(self.low, x % HALF) || reaches(self.high, x / HALF)
    }

    // Refusal 3, for one clause.
    fn wrong_clause(self, a: u64, b: u64, c: u64, d: u64) -> bool
        ensures { result ≡ wrong_clause self.low self.high self.wires a b c d }
    {
        self.wrong_mask(a)
            || (self.wrong_mask(b) || (reaches(self.wires, c) || reaches(self.wires, d)))
    }

    // Refusal 3, for one list.
    fn wrong_bit(self, list: &[u64]) -> bool
        ensures { result ≡ wrong_bit self.low self.high self.wires list.now }
    {
        let mut left = list;
        while let [a, b, c, d, rest @ ..] = left {
            if self.wrong_clause(*a, *b, *c, *d) {
                return true;
            }
            left = rest;
        }
        false
    }
}

// Refusal 3. Start uses the state's bits alone, bad no later bit.
fn wrong_bits(n: u32, w: u32, start: &[u64], step: &[u64], bad: &[u64]) -> bool
    requires { (n ≤ 32) × (w ≤ 64) }
    ensures { result ≡ wrong_bits n w start.now step.now bad.now }
{
    let of_start = Limits::of(n, 0, 0);
    let of_step = Limits::of(n, n, w);
    let of_bad = Limits::of(n, 0, w);
    of_start.wrong_bit(start) || (of_step.wrong_bit(step) || of_bad.wrong_bit(bad))
}

impl<'a> System<'a> {
    // The first refusal, 1 to 3, that applies to the system.
    pub fn refusal(self) -> Result<(), Refusal>
        ensures { code_of result ≡ refusal_of (system_in self.entry) }
    {
        let System {
            n,
            w,
            start,
            step,
            bad,
        } = self;
        if wrong_size(n, w) {
            return Err(Refusal::Size);
        }
        if wrong_counts(start, step, bad) {
            return Err(Refusal::Masks);
        }
        if wrong_bits(n, w, start, step, bad) {
            return Err(Refusal::Bits);
        }
        Ok(())
    }
}
