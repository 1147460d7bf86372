// The evidence check: whether excluded states, or a path, are right. It trusts nothing that a search has said.
#![tactic(auto)]

ghost use Rattle.std.specs.Prelude.{true, not, ◌≡◌, ◌^◌, ◌≤◌, ◌<◌, ltb, length};
ghost use Rattle.base.specs.Numbers.{code_of};
ghost use Rattle.question.specs.Question.{answered};
ghost use Rattle.system.specs.System.{list_true, some_true, pair};
ghost use Rattle.system.specs.Lent.{system_in};
ghost use Rattle.evidence.specs.Check.{each, refused, outside, closed_from, leads_on};
ghost use Rattle.evidence.specs.Told.{told_of, checked_of};
ghost use Rattle.evidence.specs.Promise.{ExcludedChecked, PathChecked};

use base::Refusal;
use masks::Mask;
use order::TABLE;
use question::Free;
use system::System;

// Yes or no, with the count of questions asked.
#[derive(Clone, Copy, Debug, PartialEq, Eq)]
pub enum Checked {
    Yes(usize),
    No(usize),
}

// Whether each listed state is below 2^n.
fn all_below(n: u32, states: &[u64]) -> bool
    requires { n ≤ 32 }
    ensures { result ≡ each (λ x. ltb x (2 ^ n)) states.now }
{
    let end = masks::power(n);
    for s in states {
        if end <= *s {
            return false;
        }
    }
    true
}

// The refusals in the order 1, 2, 3, 7.
fn refusal(system: System, states: &[u64]) -> Result<(), Refusal>
    ensures { code_of result ≡ refused (system_in system.entry) states.now }
{
    system.refusal()?;
    if all_below(system.n, states) {
        Ok(())
    } else {
        Err(Refusal::Evidence)
    }
}

// Whether s is a start state.
fn is_start(start: &[u64], s: u64) -> bool
    ensures { result ≡ list_true start.now s 0 }
{
    system::list_true(start, Mask { pair: s, wires: 0 })
}

// Whether no listed state is a start state.
fn start_free(start: &[u64], states: &[u64]) -> bool
    ensures { result ≡ each (λ x. not (list_true start.now x 0)) states.now }
{
    for s in states {
        if is_start(start, *s) {
            return false;
        }
    }
    true
}

// Stays: that n is at most 32 is asked here and in two functions below; a question takes any `Free`, and one with that bound would ask more of callers.
// The least bad state that is not listed. A state with no level beside it is excluded from every R(i) above R(0).
fn bad_outside(free: Free, table: &[u64; TABLE], bad: &[u64], states: &[u64]) -> Option<u64>
    requires { free.n ≤ 32 }
    ensures { answered result ≡ outside (2 ^ free.n) states.now (some_true free.w bad.now) }
{
    question::bad_in(free, table, &[], bad, states, &[], 1, 0)
}

// The least state that is not listed and steps to t.
fn step_outside(
    free: Free,
    table: &[u64; TABLE],
    step: &[u64],
    states: &[u64],
    t: u64,
) -> Option<u64>
    requires { free.n ≤ 32 }
    ensures { answered result ≡ outside (2 ^ free.n) states.now (λ s. some_true free.w step.now (pair s t)) }
{
    question::step_in(free, table, &[], step, states, &[], 1, t, 0)
}

// Whether no state outside the list steps into it: a question for each listed state, until one has an answer. One question was asked before.
fn closed(free: Free, table: &[u64; TABLE], step: &[u64], states: &[u64]) -> Checked
    requires { free.n ≤ 32 }
    ensures { told_of result ≡ closed_from (2 ^ free.n) (λ s t. some_true free.w step.now (pair s t)) states.now states.now 1 }
{
    let mut asked = 1;
    for t in states {
        let answer = step_outside(free, table, step, states, *t);
        asked += 1;
        if let Some(_) = answer {
            return Checked::No(asked);
        }
    }
    Checked::Yes(asked)
}

// ExcludedChecked states: yes exactly if no start state is listed, every bad state is listed, and no state outside the list steps into it.
pub fn check_excluded(system: System, states: &[u64]) -> Result<Checked, Refusal>
    ensures { ExcludedChecked (system_in system.entry) states.now (checked_of result) }
{
    refusal(system, states)?;
    let System {
        n,
        w,
        start,
        step,
        bad,
    } = system;
    if !start_free(start, states) {
        return Ok(Checked::No(0));
    }
    let free = Free { n, w };
    let bad_table = order::table(bad, w);
    let answer = bad_outside(free, &bad_table, bad, states);
    if let Some(_) = answer {
        return Ok(Checked::No(1));
    }
    let step_table = order::table(step, w);
    Ok(closed(free, &step_table, step, states))
}

// Whether each state steps to the next, and the last is bad, each by some setting of the wires. The states are given, so no question is asked.
fn leads_on(free: Free, step: &[u64], bad: &[u64], path: &[u64]) -> bool
    requires { (0 < length path.now) × (each (λ x. ltb x (2 ^ 32)) path.now ≡ true) }
    ensures { result ≡ leads_on (λ s t. some_true free.w step.now (pair s t)) (some_true free.w bad.now) path.now }
{
    let step_table = order::table(step, free.w);
    let bad_table = order::table(bad, free.w);
    let mut left = path;
    while let [s, t, ..] = left {
        if !question::some_true(free, &step_table, step, *s, *t) {
            return false;
        }
        left = &left[1..];
    }
    question::some_true(free, &bad_table, bad, left[0], 0)
}

// Path: yes exactly if it is not empty, begins with a start state, each state steps to the next, and the last is bad. Its length is not judged.
pub fn check_path(system: System, path: &[u64]) -> Result<Checked, Refusal>
    ensures { PathChecked (system_in system.entry) path.now (checked_of result) }
{
    refusal(system, path)?;
    let System {
        n,
        w,
        start,
        step,
        bad,
    } = system;
    if path.len() == 0 {
        return Ok(Checked::No(0));
    }
    if !is_start(start, path[0]) {
        return Ok(Checked::No(0));
    }
    if leads_on(Free { n, w }, step, bad, path) {
        return Ok(Checked::Yes(0));
    }
    Ok(Checked::No(0))
}
