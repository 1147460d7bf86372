// The questions of a search: for a start state, then turn after turn, one question, asked and taken in. A turn requires the shape of a configuration
// and nothing of what the levels mean, and keeps it; so a run can go on from any configuration that has the shape, in any system. Each phase has its
// function, thin over a question and over what the answer leads to. Nothing is refused here.
ghost use Rattle.std.specs.Prelude.{◌≡◌, ◌-◌, ◌^◌, min, length, take};
ghost use Rattle.ic3.specs.Model.{least};
ghost use Rattle.ic3.specs.Search as ic3;
ghost use Rattle.system.specs.System.{list_true, model};
ghost use Rattle.system.specs.Lent.{system_in};
ghost use Rattle.question.specs.Question.{answered, bad_in, step_in};
ghost use Rattle.call.specs.Call.{rounds};
ghost use Rattle.search.specs.declared.react.Phase.TheVariants.{Look, Settle, Raise};
ghost use Rattle.search.specs.Lent.{stores_of, config, config_of};
ghost use Rattle.search.specs.Inner.{SameSlices, Holds, Lends, Ready, Raises, Moves, Begins, Ends};

use super::react::{Config, Move, Phase, Verdict, Why, wide};
use super::store::Lent;
use order::TABLE;
use question::Free;
use std::ops::ControlFlow::{Break, Continue};
use system::System;

// How a search ended, and the questions asked.
#[derive(Clone, Copy)]
pub(super) struct Ending {
    pub(super) verdict: Verdict,
    pub(super) questions: u32,
}

// A system, and for its steps and its bad states in which order their lists are looked at.
#[derive(Clone, Copy)]
pub(super) struct Tabled<'a> {
    pub(super) system: System<'a>,
    pub(super) step_table: &'a [u64; TABLE],
    pub(super) bad_table: &'a [u64; TABLE],
}

// The question for a start state: a state of R(0) of which an empty list is true.
fn start_state(n: u32, table: &[u64; TABLE], start: &[u64]) -> Option<u64>
    ensures { answered result ≡ least (2 ^ min n 32) (λ s. list_true start.now s 0) }
{
    question::bad_in(Free { n, w: 0 }, table, start, &[], &[], &[], 0, 0)
}

impl Tabled<'_> {
    // What a question leaves free.
    fn free(&self) -> Free
        ensures { result ≡ record { n = self.now.system.n; w = self.now.system.w } }
    {
        Free {
            n: self.system.n,
            w: self.system.w,
        }
    }

    // The question for a bad state of R(i), over the stored states.
    fn bad_state(&self, lent: &Lent, count: usize, i: u32) -> Option<u64>
        requires { Holds count lent.now.states.now lent.now.levels.now }
        ensures { answered result
            ≡ bad_in self.now.system.n self.now.system.w self.now.system.start.now self.now.system.bad.now
            (take count lent.now.states.now) (take count lent.now.levels.now) i 0 }
    {
        let y = self.system;
        question::bad_in(
            self.free(),
            self.bad_table,
            y.start,
            y.bad,
            &lent.states[..count],
            &lent.levels[..count],
            i,
            0,
        )
    }

    // The question for a state of R(i) that steps to s, over the stored states.
    fn step_state(&self, lent: &Lent, count: usize, i: u32, s: u64) -> Option<u64>
        requires { Holds count lent.now.states.now lent.now.levels.now }
        ensures { answered result
            ≡ step_in self.now.system.n self.now.system.w self.now.system.start.now self.now.system.step.now
            (take count lent.now.states.now) (take count lent.now.levels.now) i s 0 }
    {
        let y = self.system;
        question::step_in(
            self.free(),
            self.step_table,
            y.start,
            y.step,
            &lent.states[..count],
            &lent.levels[..count],
            i,
            s,
            0,
        )
    }

    // Step 2 (or 1).
    fn look(&self, lent: &mut Lent, c: Config) -> Move
        requires { Ready self.now.system.n (length lent.old.states.now) (config c.N c.count Look) (stores_of lent.old) }
        ensures moves { Moves result (stores_of lent.new)
            (ic3.next rounds (model (system_in self.now.system)) (length lent.old.states.now)
            (config_of (config c.N c.count Look) (stores_of lent.old))) }
        ensures slices { SameSlices lent.old lent.new }
    {
        match self.bad_state(lent, c.count, c.N) {
            Some(s) => lent.found(c, s),
            None => lent.round(Config { N: c.N + 1, ..c }, 1),
        }
    }

    // Step 3 for the duty of level k + 1, whose state stands at index k + 1 of the path store.
    fn settle(&self, lent: &mut Lent, c: Config, k: u32) -> Move
        requires { Ready self.now.system.n (length lent.old.states.now) (config c.N c.count (Settle k)) (stores_of lent.old) }
        ensures moves { Moves result (stores_of lent.new)
            (ic3.next rounds (model (system_in self.now.system)) (length lent.old.states.now)
            (config_of (config c.N c.count (Settle k)) (stores_of lent.old))) }
        ensures slices { SameSlices lent.old lent.new }
    {
        let s = lent.path[wide(k) + 1];
        match self.step_state(lent, c.count, k, s) {
            Some(t) => lent.deeper(c, k, t),
            None => lent.blocked(c, k, s),
        }
    }

    // Step 4 at level i for entry j: its level is raised in place.
    fn raise(&self, lent: &mut Lent, c: Config, i: u32, j: usize) -> Move
        requires { Raises self.now.system.n c.N c.count i j lent.old.states.now lent.old.levels.now }
        ensures moves { Moves result (stores_of lent.new)
            (ic3.next rounds (model (system_in self.now.system)) (length lent.old.states.now)
            (config_of (config c.N c.count (Raise i j)) (stores_of lent.old))) }
        ensures slices { SameSlices lent.old lent.new }
    {
        let s = lent.states[j];
        if let None = self.step_state(lent, c.count, i, s) {
            lent.levels[j] = i + 1;
        }
        lent.tested(c, i, j + 1)
    }

    // One question, asked and taken in.
    fn one_turn(&self, lent: &mut Lent, c: Config) -> Move
        requires { Ready self.now.system.n (length lent.old.states.now) c (stores_of lent.old) }
        ensures moves { Moves result (stores_of lent.new)
            (ic3.next rounds (model (system_in self.now.system)) (length lent.old.states.now)
            (config_of c (stores_of lent.old))) }
        ensures slices { SameSlices lent.old lent.new }
    {
        match c.phase {
            Phase::Look => self.look(lent, c),
            Phase::Settle(k) => self.settle(lent, c, k),
            Phase::Raise(i, j) => self.raise(lent, c, i, j),
        }
    }

    // Turn after turn from c, which `asked` questions led to, until one is the last or the allowance is used up.
    fn all_turns(&self, lent: &mut Lent, mut c: Config, asked: u32, allowance: u32) -> Ending
        requires { Begins self.now.system.n (length lent.old.states.now) c asked allowance (stores_of lent.old) }
        ensures ends { Ends self.now.system.n (length lent.old.states.now)
            (ic3.search_from rounds (allowance - asked) (model (system_in self.now.system))
            (length lent.old.states.now) (config_of c (stores_of lent.old)) asked)
            result.verdict result.questions (stores_of lent.new) }
        ensures slices { SameSlices lent.old lent.new }
    {
        for before in asked..allowance {
            match self.one_turn(lent, c) {
                Continue(d) => {
                    c = d;
                }
                Break(verdict) => {
                    return Ending {
                        verdict,
                        questions: before + 1,
                    };
                }
            }
        }
        Ending {
            verdict: Verdict::GaveUp(Why::Spent),
            questions: allowance,
        }
    }

    // The whole search: the question for a start state, then turn after turn from step 1 on.
    pub(super) fn searched(&self, lent: &mut Lent, allowance: u32) -> Ending
        requires { Lends self.now.system.n (length lent.old.states.now) (stores_of lent.old) }
        ensures ends { Ends self.now.system.n (length lent.old.states.now)
            (ic3.searched rounds (model (system_in self.now.system)) (length lent.old.states.now) allowance)
            result.verdict result.questions (stores_of lent.new) }
        ensures slices { SameSlices lent.old lent.new }
    {
        if allowance == 0 {
            return Ending {
                verdict: Verdict::GaveUp(Why::Spent),
                questions: 0,
            };
        }
        let y = self.system;
        let Some(_) = start_state(y.n, self.step_table, y.start) else {
            return Ending {
                verdict: Verdict::GaveUp(Why::NoStart),
                questions: 1,
            };
        };
        let first = Config {
            N: 0,
            count: 0,
            phase: Phase::Look,
        };
        self.all_turns(lent, first, 1, allowance)
    }
}
