// The question: the least state of R(i), not below a given number, that is bad, or that can step to a given state, by some setting of the wires. A word is a
// pair, the state in its low half and the same bits one step later in its high half, and the wires; what is no free bit or wire is settled from the start.
// The engine finds some word; a walk above it goes over the bits of a front, today the state's, and ends at a word whose front is least. Bits outside the
// front may stay open. What is forced before any bit is tried stays settled throughout the walk.
//
// Every question is lent a table, in which order to look and to try (`order::table`, once for a list). No answer depends on it.
#![tactic(auto)]

// engine is engine.rt: some word, or nothing and why.
mod engine;
// trail is trail.rt: forced bits and their reasons.
mod trail;

ghost use Rattle.std.specs.Prelude.{◌≡◌, ◌+◌, ◌-◌, ◌%◌, ◌^◌, min, ◌<◌, ltb};
ghost use Rattle.masks.specs.Word.{width};
ghost use Rattle.system.specs.System.{some_true, pair};
ghost use Rattle.look.specs.Look.{setting};
ghost use Rattle.look.specs.Condition.{fulfils};
ghost use Rattle.question.specs.Question.{answered, bad_in, step_in};
ghost use Rattle.question.specs.Reason.{open_of};
ghost use Rattle.question.specs.Asked.{asked_in, asked, Block};
ghost use Rattle.question.specs.Engine.{condition_of, asked_of, Valid, Few, Starts, Comes, GoesOn, Walks, LeastFront};

use engine::{Asked, NONE, settle_at, top_open};
use look::{ALL, HALF, Region, STATE, Settled};
use masks::Mask;
use order::{TABLE, woken};
use trail::Entry;

// A state has 32 bits at most, and there are 64 wires at most; no bit is noted twice.
const MOST_OPEN: usize = 96;

// A trail with nothing noted on it.
const TRAIL: [Entry; MOST_OPEN] = [Entry {
    reason: NONE,
    bit: NONE,
}; MOST_OPEN];

// What a question leaves free: n bits of the state and w wires.
#[derive(Clone, Copy)]
pub struct Free {
    pub n: u32,
    pub w: u32,
}

// Where the walk to the least front stands: what it has settled, and a word that agrees with it.
#[derive(Clone, Copy)]
struct Descent {
    settled: Settled,
    word: Mask,
}

// Whether the walk has not settled all of the front.
fn is_open(front: u64, d: Descent) -> bool
    ensures { result ≡ ltb 0 (open_of width front (setting d.settled)) }
{
    0 < front & !d.settled.bits.pair
}

// The number of states of n bits; more than 32 count as 32.
fn size(n: u32) -> u64
    ensures { result ≡ 2 ^ min n 32 }
{
    if n < 32 { 1u64 << n } else { HALF }
}

// All positions of 64 but the n lowest: what is settled while these are open.
fn beyond(n: u32) -> u64
    ensures { result ≡ 2 ^ 64 - 2 ^ min n 64 }
{
    if n < 64 { !((1u64 << n) - 1) } else { 0 }
}

// How many bits are open in the largest block that begins at `at`: as many as it ends in zeros, and no more than a state has.
fn open_bits(n: u32, at: u64) -> u32
    requires { at < 2 ^ min n 32 }
    ensures { Block n at result }
{
    at.trailing_zeros().min(n.min(32))
}

impl Asked<'_> {
    // One bit of the walk, the highest of the front that it has not settled: 0 if the word in hand or another has a 0 there, else 1.
    fn descend(&self, front: u64, d: Descent, trail: &mut [Entry; MOST_OPEN]) -> Descent
        requires { GoesOn (asked_of self.now) front d × Few d.settled }
        ensures { Walks (asked_of self.now) front d result }
    {
        let Descent { settled: s, word } = d;
        let bit = top_open(front, s);
        let zero = settle_at(s, bit, NONE);
        if masks::is_empty(masks::and(word, bit)) {
            return Descent {
                settled: zero,
                word,
            };
        }
        let waiting = woken(self.table, bit, NONE);
        let looked = s.bits.pair;
        match self.settle(zero, waiting, looked, trail) {
            Ok(lower) => Descent {
                settled: zero,
                word: lower,
            },
            Err(_) => Descent {
                settled: settle_at(s, bit, bit),
                word,
            },
        }
    }

    // What the walked bit forces stays settled with it. With a word in hand nothing fails.
    fn at_rest(&self, before: Settled, d: Descent) -> Descent
        requires { Valid d.settled }
        ensures { (result.word ≡ d.word) × Comes (asked_of self.now) d.settled result.settled }
    {
        let Descent { settled: s, word } = d;
        let bit = masks::without(s.bits, before.bits);
        let value = masks::without(s.values, before.values);
        let waiting = woken(self.table, bit, value);
        let settled = self.rest(s, waiting, before.bits.pair).unwrap_or(s);
        Descent { settled, word }
    }

    // A word whose front is least, or the settled bits that a failure rests on: what is forced before any bit is tried stays settled; then, with a word in
    // hand, a walk over the open bits of the front from the highest down.
    fn least(&self, front: u64, s: Settled, trail: &mut [Entry; MOST_OPEN]) -> Result<Mask, Mask>
        requires { Starts s }
        ensures { LeastFront (asked_of self.now) front s result }
    {
        let Some(settled) = self.rest(s, ALL, 0) else {
            return Err(s.bits);
        };
        let Ok(word) = self.settle(settled, 0, settled.bits.pair, trail) else {
            return Err(s.bits);
        };
        let mut d = Descent { settled, word };
        while is_open(front, d) {
            let before = d.settled;
            let walked = self.descend(front, d, trail);
            d = self.at_rest(before, walked);
        }
        Ok(d.word)
    }

    // The least state of a block whose pair, with `later` one step later, fulfils the condition by some setting of the wires.
    fn ask_block(
        &self,
        free: Free,
        later: u64,
        at: u64,
        k: u32,
        trail: &mut [Entry; MOST_OPEN],
    ) -> Option<u64>
        requires { Block 32 at k }
        ensures { answered result ≡ asked_in at (at + 2 ^ k) free.w (condition_of self.now) later }
    {
        let s = Settled {
            bits: Mask {
                pair: beyond(k),
                wires: beyond(free.w),
            },
            values: Mask {
                pair: at + HALF * (later % HALF),
                wires: 0,
            },
        };
        self.least(STATE, s, trail)
            .ok()
            .map(|word| word.pair % HALF)
    }

    // The least state not below `from` whose pair, with `later` one step later, fulfils the condition by some setting of the wires. From 0 on all states are
    // one block; from another number on each block is larger than the one before it, so there are at most n.
    fn ask(&self, free: Free, later: u64, from: u64) -> Option<u64>
        ensures { answered result ≡ asked free.n free.w (condition_of self.now) later from }
    {
        let mut trail = TRAIL;
        let end = size(free.n);
        let mut at = from;
        while at < end {
            let k = open_bits(free.n, at);
            match self.ask_block(free, later, at, k, &mut trail) {
                Some(state) => return Some(state),
                None => at += size(k),
            }
        }
        None
    }
}

// The least state of R(i) that steps to the target and is not below `from`. R(0) is what `start` is true of; above, it is all but the states that are
// stored with a level of i or more. A state with no level beside it counts as stored with every level.
// Stays: the lists apart, here and in `bad_in`: a struct of them is no plainer, since a caller would build one for each call of lists that it holds apart.
pub fn step_in(
    free: Free,
    table: &[u64; TABLE],
    start: &[u64],
    step: &[u64],
    states: &[u64],
    levels: &[u32],
    i: u32,
    target: u64,
    from: u64,
) -> Option<u64>
    ensures { answered result ≡ step_in free.n free.w start.now step.now states.now levels.now i target from }
{
    let within = if i == 0 { start } else { states };
    let asked = Asked {
        table,
        region: Region { within, levels, i },
        whole: step,
    };
    asked.ask(free, target, from)
}

// The least state of R(i) that is bad and not below `from`: the list is asked of the state's pair, with a later half of 0.
pub fn bad_in(
    free: Free,
    table: &[u64; TABLE],
    start: &[u64],
    bad: &[u64],
    states: &[u64],
    levels: &[u32],
    i: u32,
    from: u64,
) -> Option<u64>
    ensures { answered result ≡ bad_in free.n free.w start.now bad.now states.now levels.now i from }
{
    step_in(free, table, start, bad, states, levels, i, 0, from)
}

// Whether some setting of the wires makes the list true of s, with t one step later. Of both the low 32 bits count. No state is asked for: s is a block of
// its own.
pub fn some_true(free: Free, table: &[u64; TABLE], list: &[u64], s: u64, t: u64) -> bool
    ensures { result ≡ some_true free.w list.now (pair (s % 2 ^ 32) (t % 2 ^ 32)) }
{
    // R(1) with nothing stored is every state.
    let asked = Asked {
        table,
        region: Region {
            within: &list[..0],
            levels: &[],
            i: 1,
        },
        whole: list,
    };
    let mut trail = TRAIL;
    let answer = asked.ask_block(free, t, s % HALF, 0, &mut trail);
    answer.is_some()
}
