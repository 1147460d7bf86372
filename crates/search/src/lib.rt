// The public call: the search of the scope over lent stores. It takes every input: it refuses with 1 to 4 by what `system` and `call` say and
// leaves the stores untouched, or it asks for a start state and runs the turns from step 1 on, gives up with 5, 6 or 14 where they do, and leaves the
// stores with the evidence alone. The three lent slices are all the memory there is: the state store and the level store hold the stored states
// (store.rt), the path store the open duties (react.rt), so that a path is in place when it is found; turn.rt asks the questions.
#![tactic(auto)]

mod react;
mod store;
mod turn;

ghost use Rattle.std.specs.Prelude.{◌≡◌, take};
ghost use Rattle.system.specs.Lent.{system_in};
ghost use Rattle.call.specs.Call.{leaves};
ghost use Rattle.call.specs.Promise.{stores, Promised};
ghost use Rattle.search.specs.Lent.{stores_of};
ghost use Rattle.search.specs.Inner.{SameSlices, Finishes, Closing, Closes};

use base::Refusal;
use react::Verdict;
use store::Lent;
use system::System;
use turn::{Ending, Tabled};

impl Lent<'_> {
    // The stores as they are left: the states start with `front` of their numbers and the path with `len` of its own, and everything else is zero.
    fn finish(&mut self, front: usize, len: usize)
        requires { Finishes front len (stores_of self.old) }
        ensures left { stores_of self.new
            ≡ leaves (stores_of self.old) (take front self.old.states.now) (take len self.old.path.now) }
        ensures slices { SameSlices self.old self.new }
    {
        stores::clear_behind(self.states, front);
        stores::clear(self.levels);
        stores::clear_behind(self.path, len);
    }

    // The stores are left with the evidence alone.
    fn close(&mut self, ending: Ending) -> call::Outcome
        requires { Closing ending.verdict (stores_of self.old) }
        ensures closes { Closes (stores_of self.old) ending.verdict ending.questions result (stores_of self.new) }
        ensures slices { SameSlices self.old self.new }
    {
        let questions = ending.questions;
        match ending.verdict {
            Verdict::Safe(i, count) => {
                let front = self.keep(count, i);
                self.finish(front, 0);
                call::Outcome::Safe(front, questions)
            }
            Verdict::Unsafe(len) => {
                self.finish(0, len);
                call::Outcome::Unsafe(len, questions)
            }
            Verdict::GaveUp(why) => {
                self.finish(0, 0);
                call::Outcome::GaveUp(why.into(), questions)
            }
        }
    }
}

// The call of the scope.
pub fn search(
    system: System,
    states: &mut [u64],
    levels: &mut [u32],
    path: &mut [u64],
    allowance: u32,
) -> call::Outcome
    ensures { Promised (system_in system.entry)
        (stores states.old levels.old path.old) allowance
        result (stores states.new levels.new path.new) }
{
    if let Err(refusal) = system.refusal() {
        return call::Outcome::Refused(refusal.into());
    }
    if call::wrong_stores(states, levels, path) {
        return call::Outcome::Refused(Refusal::Stores.into());
    }
    let step_table = order::table(system.step, system.w);
    let bad_table = order::table(system.bad, system.w);
    let tabled = Tabled {
        system,
        step_table: &step_table,
        bad_table: &bad_table,
    };
    let mut lent = Lent {
        states,
        levels,
        path,
    };
    let ending = tabled.searched(&mut lent, allowance);
    lent.close(ending)
}
