// Looks at clauses and at excluded states against settled bits: what has failed, and which bit is forced. A clause is one test of whole masks. To
// say that nothing is forced promises nothing, since a whole word is tested in the end.
#![tactic(auto)]

ghost use Rattle.std.specs.Prelude.{List, ◌≡◌, ℕ, ◌/◌, ◌%◌, ◌^◌, ◌≤◌, leb, length, get_or};
ghost use Rattle.masks.specs.Word.{word_of};
ghost use Rattle.look.specs.Excluded.{excluded};
ghost use Rattle.look.specs.Condition.{state_of, word_true, allowed, region, lent, outside, fulfils};
ghost use Rattle.look.specs.Look.{clause_of, StateSettled, Scanned};

use masks::Mask;
use system::Clause;

// Settled bits, and their values. What is asked has its values within the bits, a bit that is open being 0 among them; a look takes any two masks.
#[derive(Clone, Copy)]
pub struct Settled {
    pub bits: Mask,
    pub values: Mask,
}

// What a look at clauses or excluded states says: nothing is forced; or one has failed, for these settled bits; or its one open bit is forced to
// `value`, since the other value fails for `reason`, and these blocks of clauses wait still.
#[derive(Clone, Copy)]
pub enum Look {
    Rest,
    Failed(Mask),
    Forced {
        reason: Mask,
        bit: Mask,
        value: Mask,
        waiting: u64,
    },
}

// R(i): for R(0) `within` is the start list, and above it holds the stored states, of which those with a level of i or more are excluded. A state with no
// level beside it counts as stored with every level.
#[derive(Clone, Copy)]
pub struct Region<'a> {
    pub within: &'a [u64],
    pub levels: &'a [u32],
    pub i: u32,
}

// The low half of a pair is what remains by 2^32.
pub const HALF: u64 = 1 << 32;

// The positions of the state, the low half.
pub const STATE: u64 = 0xFFFF_FFFF;

// All positions of a word.
pub const ALL: u64 = 0xFFFF_FFFF_FFFF_FFFF;

// One clause against the settled bits: true, or failed, or with one open bit, or none of these yet.
fn clause(c: Clause, s: Settled, waiting: u64) -> Look
    ensures { Scanned (clause_of c) s result }
{
    let Clause { ones, zeros } = c;
    let Settled { bits, values } = s;
    if !masks::same(masks::and(zeros, values), masks::and(zeros, bits)) {
        return Look::Rest;
    }
    if !masks::is_empty(masks::and(ones, values)) {
        return Look::Rest;
    }
    let want_1 = masks::without(ones, bits);
    let want_0 = masks::without(zeros, bits);
    let open = masks::or(want_1, want_0);
    let reason = masks::or(ones, zeros);
    if masks::is_empty(open) {
        return Look::Failed(reason);
    }
    if !masks::is_single(open) {
        return Look::Rest;
    }
    if masks::same(want_1, want_0) {
        return Look::Rest;
    }
    Look::Forced {
        reason,
        bit: open,
        value: want_1,
        waiting,
    }
}

// The clauses of a list. Where one says something, these blocks wait still: `waiting`, with clauses left behind it, or `others`.
fn scan_part(list: &[u64], s: Settled, waiting: u64, others: u64) -> Look
    ensures { Scanned (word_true list.now) s result }
{
    let mut left = list;
    while let [ones, zeros, wire_ones, wire_zeros, rest @ ..] = left {
        let c = Clause {
            ones: Mask {
                pair: *ones,
                wires: *wire_ones,
            },
            zeros: Mask {
                pair: *zeros,
                wires: *wire_zeros,
            },
        };
        left = rest;
        let look = clause(c, s, if left.is_empty() { others } else { waiting });
        let Look::Rest = look else {
            return look;
        };
    }
    Look::Rest
}

// The clauses of the blocks that wait, from the lowest on.
fn scan(list: &[u64], waiting: u64, s: Settled) -> Look
    ensures { Scanned (word_true list.now) s result }
{
    let count = list.len() / 4;
    let size = order::size(count);
    let mut left = waiting;
    while 0 < left {
        let from = size * left.trailing_zeros() as usize;
        if count <= from {
            return Look::Rest;
        }
        let end = count.min(from + size);
        let others = left & (left - 1);
        let look = scan_part(&list[4 * from..4 * end], s, left, others);
        let Look::Rest = look else {
            return look;
        };
        left = others;
    }
    Look::Rest
}

// All clauses of a list.
pub fn scan_all(list: &[u64], s: Settled) -> Look
    ensures { Scanned (word_true list.now) s result }
{
    scan_part(list, s, 0, 0)
}

// The part of a mask that is the state's.
fn low_part(m: Mask) -> Mask
    ensures { word_of result ≡ word_of m % 2 ^ 32 }
{
    Mask {
        pair: m.pair % HALF,
        wires: 0,
    }
}

// The clauses of a list that speaks of the state alone: the later half and the wires count as settled to 0, and are no part of a reason.
fn scan_low(list: &[u64], s: Settled) -> Look
    ensures { Scanned (λ w. word_true list.now (state_of w)) s result }
{
    let above = Mask {
        pair: ALL - STATE,
        wires: ALL,
    };
    let lowered = Settled {
        bits: masks::or(s.bits, above),
        values: low_part(s.values),
    };
    match scan_all(list, lowered) {
        Look::Rest => Look::Rest,
        Look::Failed(reason) => Look::Failed(low_part(reason)),
        Look::Forced {
            reason,
            bit,
            value,
            waiting,
        } => Look::Forced {
            reason: low_part(reason),
            bit,
            value,
            waiting,
        },
    }
}

impl Region<'_> {
    // Whether entry j is stored with a level of i or more.
    fn at_level(&self, j: usize) -> bool
        ensures { result ≡ leb self.now.i (get_or self.now.levels.now j self.now.i) }
    {
        let i = self.i;
        self.levels.get(j).is_none_or(|level| i <= *level)
    }

    // With the whole state settled: a failure at an excluded state rests on the state's bits alone. With no bit open at all the word is tested next, the
    // excluded states first.
    fn scan_state(&self, s: Settled) -> Look
        requires { StateSettled s }
        ensures { Scanned (allowed self.now.within.now self.now.levels.now self.now.i) s result }
    {
        if is_excluded(self, s.values.pair % HALF) {
            return Look::Failed(Mask {
                pair: STATE,
                wires: 0,
            });
        }
        Look::Rest
    }

    // The excluded states. Each is a clause that some bit of the state differs; it uses all of them, so it says nothing while two are open.
    fn scan_states(&self, s: Settled) -> Look
        ensures { Scanned (allowed self.now.within.now self.now.levels.now self.now.i) s result }
    {
        let open = !s.bits.pair % HALF;
        if open == 0 {
            return self.scan_state(s);
        }
        if open & (open - 1) != 0 {
            return Look::Rest;
        }
        for (j, state) in self.within.iter().enumerate() {
            if *state < HALF && self.at_level(j) {
                let c = Clause {
                    ones: Mask {
                        pair: STATE - *state,
                        wires: 0,
                    },
                    zeros: Mask {
                        pair: *state,
                        wires: 0,
                    },
                };
                let look = clause(c, s, 0);
                let Look::Rest = look else {
                    return look;
                };
            }
        }
        Look::Rest
    }

    // What R(i) says: the start list for R(0), else the excluded states.
    fn scan(&self, s: Settled) -> Look
        ensures { (whole : List ℕ) → Scanned (fulfils (region self.now.within.now whole self.now.levels.now self.now.i)) s result }
    {
        if self.i == 0 {
            return scan_low(self.within, s);
        }
        self.scan_states(s)
    }
}

// Whether the state s is stored with a level of i or more.
pub fn is_excluded(r: &Region, s: u64) -> bool
    ensures { result ≡ excluded r.now.i r.now.within.now r.now.levels.now s }
{
    r.within
        .iter()
        .enumerate()
        .any(|(j, state)| *state == s && r.at_level(j))
}

// What is forced next: the blocks that wait come to rest before R(i) is looked at, and it is not where the state's bits are those at which it was looked at
// last, nor where no bit is open and the word is tested next.
pub fn forced(r: &Region, whole: &[u64], s: Settled, waiting: u64, looked: u64) -> Look
    ensures { Scanned (fulfils (lent r.now whole.entry)) s result }
{
    let look = scan(whole, waiting, s);
    let Look::Rest = look else {
        return look;
    };
    let bits = s.bits;
    if bits.pair == looked || bits.pair & bits.wires == ALL {
        return Look::Rest;
    }
    r.scan(s)
}

// Whether the state is none of R(i).
pub fn is_outside(r: &Region, s: u64) -> bool
    ensures { (whole : List ℕ) → result ≡ outside (region r.now.within.now whole r.now.levels.now r.now.i) (s % 2 ^ 32) }
{
    let state = s % HALF;
    if r.i == 0 {
        return !system::list_true(
            r.within,
            Mask {
                pair: state,
                wires: 0,
            },
        );
    }
    is_excluded(r, state)
}
