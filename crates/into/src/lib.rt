// Every state that steps into a given one, written into a lent store in rising order: a question for the next one, until there is none.
#![tactic(auto)]

ghost use Rattle.std.specs.Prelude.{◌≡◌, ◌&&◌, ◌^◌, ◌≤◌};
ghost use Rattle.ic3.specs.Model.{least};
ghost use Rattle.question.specs.Question.{not_below, answered};
ghost use Rattle.base.specs.Numbers.{code_of};
ghost use Rattle.system.specs.System.{some_true, pair};
ghost use Rattle.system.specs.Lent.{system_in};
ghost use Rattle.into.specs.Into.{refused};
ghost use Rattle.into.specs.Promise.{Promised, Filled};

use base::Refusal;
use order::TABLE;
use question::Free;
use system::System;

// A list: how many states the store starts with, and how many questions were asked.
#[derive(Clone, Copy, Debug, PartialEq, Eq)]
pub struct Listing {
    pub count: usize,
    pub questions: usize,
}

// No list: why there is none, and how many questions were asked.
#[derive(Clone, Copy, Debug, PartialEq, Eq)]
pub struct Unlisted {
    pub refusal: Refusal,
    pub questions: usize,
}

// The refusals in the order 1, 2, 3, 29.
fn refusal(system: System, state: u64) -> Result<(), Refusal>
    ensures { code_of result ≡ refused (system_in system.entry) state }
{
    system.refusal()?;
    if state < masks::power(system.n) {
        Ok(())
    } else {
        Err(Refusal::Given)
    }
}

// The least state not below `from` that steps to the given one: R(1) with nothing stored is every state.
fn next(free: Free, table: &[u64; TABLE], step: &[u64], state: u64, from: u64) -> Option<u64>
    requires { free.n ≤ 32 }
    ensures { answered result ≡ least (2 ^ free.n) (λ s. not_below from s && some_true free.w step.now (pair s state)) }
{
    question::step_in(free, table, &[], step, &[], &[], 1, state, from)
}

// Writes state after state. With one more than the store holds, it is all zero again.
fn fill(
    free: Free,
    table: &[u64; TABLE],
    step: &[u64],
    state: u64,
    store: &mut [u64],
) -> Result<Listing, Unlisted>
    requires { free.n ≤ 32 }
    ensures { Filled (2 ^ free.n) (λ s. some_true free.w step.now (pair s state)) store.old result store.new }
{
    let mut count = 0;
    let mut from = 0;
    loop {
        let answer = next(free, table, step, state, from);
        let Some(s) = answer else {
            stores::clear_behind(store, count);
            return Ok(Listing {
                count,
                questions: count + 1,
            });
        };
        if count == store.len() {
            stores::clear(store);
            return Err(Unlisted {
                refusal: Refusal::Store,
                questions: count + 1,
            });
        }
        store[count] = s;
        count += 1;
        from = s + 1;
    }
}

// Every state that steps into the given one.
pub fn list(system: System, state: u64, store: &mut [u64]) -> Result<Listing, Unlisted>
    ensures { Promised (system_in system.entry) state store.old result store.new }
{
    if let Err(refusal) = refusal(system, state) {
        return Err(Unlisted {
            refusal,
            questions: 0,
        });
    }
    let System { n, w, step, .. } = system;
    let table = order::table(step, w);
    fill(Free { n, w }, &table, step, state, store)
}
