// The engine: `settle` settles forced bits and `attempt` tries an open one, each by the other. They answer some word that fulfils the condition, or
// nothing and the settled bits that this rests on; a tried bit that is not among them is not tried the other way. Only a tried bit takes a call.
ghost use Rattle.std.specs.Prelude.{◌≡◌, ◌<◌};
ghost use Rattle.masks.specs.Word.{width, word_of};
ghost use Rattle.look.specs.Reason.{Open, more};
ghost use Rattle.look.specs.Look.{setting};
ghost use Rattle.question.specs.Reason.{open_of, TopOpen};
ghost use Rattle.question.specs.Engine.{asked_of, Valid, Unfull, OneOf, Begins, HasOpen, Full, Solved, Says, Rests};

use crate::trail::{Entry, resolve_along};
use look::{ALL, Look, Region, STATE, Settled, forced, is_outside, scan_all};
use masks::Mask;
use order::{TABLE, woken};

// What is asked of a word: the list `whole`, with its table, and that the word's state is one of the region.
#[derive(Clone, Copy)]
pub(crate) struct Asked<'a> {
    pub table: &'a [u64; TABLE],
    pub region: Region<'a>,
    pub whole: &'a [u64],
}

// What a look, a test or a try says of settled bits: some word that agrees with them fulfils the condition; or none does, for these of them; or an open
// bit is forced to `value`, since the other value fails for `reason`, and these blocks of clauses wait still.
#[derive(Clone, Copy)]
enum Said {
    Word(Mask),
    Failed(Mask),
    Forced {
        reason: Mask,
        bit: Mask,
        value: Mask,
        waiting: u64,
    },
}

// One bit more is settled, at 0 or at the bit itself.
// Stays: that a setting is valid is a clause, and no ghost field: a look takes any `Settled`, and a type of this crate's own would be no plainer, since it
// would ask of each bit here that it is open.
pub(crate) fn settle_at(s: Settled, bit: Mask, value: Mask) -> Settled
    ensures { setting result ≡ more (setting s) (word_of bit) (word_of value) }
{
    let Settled { bits, values } = s;
    Settled {
        bits: masks::or(bits, bit),
        values: masks::or(values, value),
    }
}

// No position: the value of a bit that is settled at 0.
pub(crate) const NONE: Mask = Mask { pair: 0, wires: 0 };

// The highest open bit of the front, positions of the pair, as a mask of its own.
pub(crate) fn top_open(front: u64, s: Settled) -> Mask
    requires { 0 < open_of width front (setting s) }
    ensures { TopOpen width front (setting s) (word_of result) }
{
    let open = front & !s.bits.pair;
    Mask {
        pair: 1 << (63 - open.leading_zeros()),
        wires: 0,
    }
}

// The lowest open wire of a mask, as a mask of its own.
fn lowest_wire(wires: u64) -> Mask
    requires { 0 < wires }
    ensures { OneOf wires (word_of result) }
{
    Mask {
        pair: 0,
        wires: 1 << wires.trailing_zeros(),
    }
}

// The bit to try: of the wires that are tried first the lowest, then of the pair's bits the highest, then of the other wires the lowest. Any open bit is
// right.
fn pick(first: u64, s: Settled) -> Mask
    requires { Unfull s }
    ensures { Open width (setting s) (word_of result) }
{
    let bits = s.bits;
    let near = first & !bits.wires;
    if near != 0 {
        return lowest_wire(near);
    }
    if bits.pair != ALL {
        return top_open(ALL, s);
    }
    lowest_wire(!bits.wires)
}

impl Asked<'_> {
    // With no bit open: the word that the values are, or nothing. A failure in R(i) rests on the state's bits alone, and one in the list on a clause's:
    // blocks that should have waited and did not cost no more than that.
    fn test(&self, s: Settled) -> Said
        requires { Full s }
        ensures { Says (asked_of self.now) s result }
    {
        let Settled { bits, values } = s;
        if is_outside(&self.region, values.pair) {
            return Said::Failed(Mask {
                pair: STATE,
                wires: 0,
            });
        }
        if system::list_true(self.whole, values) {
            return Said::Word(values);
        }
        let look = scan_all(self.whole, s);
        let Look::Failed(reason) = look else {
            return Said::Failed(bits);
        };
        Said::Failed(reason)
    }

    // Settles forced bits until none is found, before any bit is tried: where they came to rest, or nothing passes. What fails then fails for all that was
    // given, so no trail is kept.
    pub(crate) fn rest(&self, s: Settled, waiting: u64, looked: u64) -> Option<Settled>
        requires { Valid s }
        ensures { Rests (asked_of self.now) s result }
    {
        let mut r = s;
        let mut waits = waiting;
        loop {
            match forced(&self.region, self.whole, r, waits, looked) {
                Look::Rest => {
                    return Some(r);
                }
                Look::Failed(_) => {
                    return None;
                }
                Look::Forced {
                    reason: _,
                    bit,
                    value,
                    waiting: still,
                } => {
                    r = settle_at(r, bit, value);
                    waits = still | woken(self.table, bit, value);
                }
            }
        }
    }

    // Settles forced bits, and notes each on the trail; with none forced it tries an open bit, and with none open it tests the word. Some word, or the settled
    // bits that a failure rests on: these were settled before, so its reason is resolved along the trail.
    #[cycle(attempt_settle)]
    pub(crate) fn settle(
        &self,
        s: Settled,
        waiting: u64,
        looked: u64,
        trail: &mut [Entry],
    ) -> Result<Mask, Mask>
        requires { Begins s trail.old }
        ensures { Solved (asked_of self.now) s result }
    {
        let mut r = s;
        let mut waits = waiting;
        let mut seen = looked;
        // Stays: a count beside the trail, of which the part behind it is lent to a try; there is no heap.
        let mut noted = 0;
        loop {
            let said = match forced(&self.region, self.whole, r, waits, seen) {
                Look::Failed(reason) => Said::Failed(reason),
                Look::Forced {
                    reason,
                    bit,
                    value,
                    waiting: still,
                } => Said::Forced {
                    reason,
                    bit,
                    value,
                    waiting: still,
                },
                Look::Rest => {
                    let bits = r.bits;
                    seen = bits.pair;
                    if bits.pair & bits.wires == ALL {
                        self.test(r)
                    } else {
                        self.attempt(r, &mut trail[noted..])
                    }
                }
            };
            match said {
                Said::Word(word) => {
                    return Ok(word);
                }
                Said::Failed(reason) => {
                    return Err(resolve_along(&trail[..noted], reason));
                }
                Said::Forced {
                    reason,
                    bit,
                    value,
                    waiting: still,
                } => {
                    trail[noted] = Entry { reason, bit };
                    noted += 1;
                    r = settle_at(r, bit, value);
                    waits = still | woken(self.table, bit, value);
                }
            }
        }
    }

    // Tries an open bit at 0. Refuted, it is forced to 1, unless the reason does without it: then 1 fails for the same.
    #[cycle(attempt_settle)]
    fn attempt(&self, s: Settled, trail: &mut [Entry]) -> Said
        requires { HasOpen s trail.old }
        ensures { Says (asked_of self.now) s result }
    {
        let bit = pick(self.table[256], s);
        let bits = s.bits;
        let f = self.settle(
            settle_at(s, bit, NONE),
            woken(self.table, bit, NONE),
            bits.pair,
            trail,
        );
        match f {
            Ok(word) => Said::Word(word),
            Err(reason) => {
                if masks::is_empty(masks::and(reason, bit)) {
                    return Said::Failed(reason);
                }
                Said::Forced {
                    reason,
                    bit,
                    value: bit,
                    waiting: 0,
                }
            }
        }
    }
}
