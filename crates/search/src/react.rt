// Where a search stands, and what an answer leads to: one function for each case of the definition's `react` and for the rounds of steps 4 and 5.
// Each moves as the definition does, from where the search stands, c, whose phase it follows; the stores are the lent ones. Nothing is asked and nothing
// refused here; each function requires that its indices lie within the stores, which the shape of a configuration gives.
ghost use Rattle.std.specs.Prelude.{suc, ◌-◌, ◌<◌, ◌≡◌, length, get_or};
ghost use Rattle.std.specs.declared.ops.ControlFlow.TheVariants.{Continue};
ghost use Rattle.ic3.specs.Search as ic3;
ghost use Rattle.ic3.specs.Shape.{Tidy};
ghost use Rattle.call.specs.Call.{Stores, rounds, why_number};
ghost use Rattle.search.specs.Lent.{stores_of, store_of, store_in, duties, config, why_of};
ghost use Rattle.search.specs.Inner.{SameSlices, Opens, Blocks, Judges, Enters, Tests, Moves, tested_from};

use super::store::Lent;
use std::ops::ControlFlow::{self, Break, Continue};

// What the awaited question is asked for: step 2 (or 1); step 3 for the duty of level k + 1; step 4 at level i for entry j.
// The open duties stand in the path store: index k holds the state of the open duty of level k, from the lowest that is open up to N. So a state
// found in R(0) and written at index 0 makes the front of the path store the path.
#[derive(Clone, Copy)]
pub(super) enum Phase {
    Look,
    Settle(u32),
    Raise(u32, usize),
}

// Where a search stands: N, the number of stored states, and the phase. The rest stands in the lent stores.
#[derive(Clone, Copy)]
pub(super) struct Config {
    pub(super) N: u32,
    pub(super) count: usize,
    pub(super) phase: Phase,
}

// Why a search gives up: no room for a further state, the allowance used up, or no start state.
#[derive(Clone, Copy)]
pub(super) enum Why {
    NoRoom,
    Spent,
    NoStart,
}

// Its number.
impl From<Why> for u32 {
    ghost from_gives = { λ why n. n ≡ why_number (why_of why) };

    fn from(why: Why) -> u32 {
        match why {
            Why::Spent => 5,
            Why::NoRoom => 6,
            Why::NoStart => 14,
        }
    }
}

// How a search ends: safe, with the level from which on states are excluded and the number stored; unsafe, with the path's length; or given up.
#[derive(Clone, Copy)]
pub(super) enum Verdict {
    Safe(u32, usize),
    Unsafe(usize),
    GaveUp(Why),
}

// What an answer leads to: where the search goes on, or how it ends.
pub(super) type Move = ControlFlow<Verdict, Config>;

// A number as wide as an index.
pub(super) fn wide(k: u32) -> usize
    ensures { result ≡ k }
{
    k as usize
}

impl Config {
    // The search goes on at `phase`.
    fn at(self, phase: Phase) -> Move
        ensures { result ≡ Continue (config self.N self.count phase) }
    {
        Continue(Config { phase, ..self })
    }

    // A duty for level k + 1 is settled: the duty above it again, or step 2 if it was the last.
    fn settled(self, k: u32) -> Move
        requires { k < self.N }
        ensures { (s : Stores) → Moves result s (ic3.go (ic3.settled self.N (store_of self.count s.states s.levels) k (duties self.N k s.path))) }
    {
        if k + 1 < self.N {
            return self.at(Phase::Settle(k + 1));
        }
        self.at(Phase::Look)
    }
}

impl Lent<'_> {
    // A bad state of R(N): the path, or the duty for level N.
    pub(super) fn found(&mut self, c: Config, s: u64) -> Move
        requires { c.N < length self.old.path.now }
        ensures moves { Moves result (stores_of self.new) (ic3.found c.N (store_in c self.old) s) }
        ensures slices { SameSlices self.old self.new }
    {
        self.path[wide(c.N)] = s;
        if c.N == 0 {
            return Break(Verdict::Unsafe(1));
        }
        c.at(Phase::Settle(c.N - 1))
    }

    // Step 3, a state t of R(k) steps to the state of the duty for level k + 1.
    pub(super) fn deeper(&mut self, c: Config, k: u32, t: u64) -> Move
        requires { Opens c.N k self.old.path.now }
        ensures moves { Moves result (stores_of self.new)
            (ic3.deeper c.N (store_in c self.old) k (get_or self.old.path.now (suc k) 0) (duties c.N k self.old.path.now) t) }
        ensures slices { SameSlices self.old self.new }
    {
        self.path[wide(k)] = t;
        if k == 0 {
            return Break(Verdict::Unsafe(wide(c.N) + 1));
        }
        c.at(Phase::Settle(k - 1))
    }

    // Step 3, no state of R(k) steps to s: it gets level k + 1.
    pub(super) fn blocked(&mut self, c: Config, k: u32, s: u64) -> Move
        requires { Blocks c.N k c.count self.old.states.now self.old.levels.now }
        ensures moves { Moves result (stores_of self.new)
            (ic3.kept (length self.old.states.now) c.N (ic3.put (store_in c self.old) s (suc k)) k (duties c.N k self.old.path.now)) }
        ensures slices { SameSlices self.old self.new }
    {
        match self.store(c.count, s, k + 1) {
            Some(count) => Config { count, ..c }.settled(k),
            None => Break(Verdict::GaveUp(Why::NoRoom)),
        }
    }

    // Step 5.
    fn judge(&self, c: Config) -> Move
        requires { Judges self.now.levels.now c.count c.N }
        ensures { Moves result (stores_of self.now) (ic3.judge c.N (c.N - 1) 1 (store_in c self.now)) }
    {
        let i = self.gap(c.count, c.N);
        if i < c.N {
            return Break(Verdict::Safe(i, c.count));
        }
        c.at(Phase::Look)
    }

    // Step 4 comes to level i: to its first entry, or, with no level left below N or no entry at this one, to step 5.
    pub(super) fn round(&self, c: Config, i: u32) -> Move
        requires { Enters self.now.levels.now c.N c.count i }
        ensures { Moves result (stores_of self.now) (ic3.round rounds c.N (c.N - i) i (store_in c self.now)) }
    {
        if i == c.N {
            return self.judge(c);
        }
        if let Some(first) = self.next_at(c.count, 0, i) {
            return c.at(Phase::Raise(i, first));
        }
        self.judge(c)
    }

    // Step 4 at level i from entry j on. Where no entry is left to be tested, it goes on if one of those before j still sits there, and else step 5
    // decides.
    pub(super) fn tested(&self, c: Config, i: u32, j: usize) -> Move
        requires { Tests self.now.levels.now c.N c.count i j }
        ensures { Tidy (store_in c self.now)
            → Moves result (stores_of self.now) (tested_from c.N c.count i j self.now.states.now self.now.levels.now) }
    {
        if let Some(next) = self.next_at(c.count, j, i) {
            return c.at(Phase::Raise(i, next));
        }
        if self.sits_before(j, i) {
            return self.round(c, i + 1);
        }
        self.judge(c)
    }
}
