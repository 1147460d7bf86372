// What a call of the search returns: the outcome, refusal 4, and the evidence.
#![tactic(auto)]

ghost use Rattle.std.specs.Prelude.{◌≡◌};
ghost use Rattle.call.specs.Call.{wrong_stores};
ghost use Rattle.call.specs.Promise.{stores, number_of, questions_of, HandedBack};

// How a call ended: safe or unsafe, with the number of evidence states; given up, with 5, 6 or 14; or refused, with 1 to 4. What was searched has the
// count of questions asked behind it.
// Stays: the number of a refusal, or of giving up, is any, since `number` answers for every outcome, and a narrower type would ask more of its callers.
#[derive(Clone, Copy)]
pub enum Outcome {
    Safe(usize, u32),
    Unsafe(usize, u32),
    GaveUp(u32, u32),
    Refused(u32),
}

// The number of an outcome, 0 with a verdict.
pub fn number(outcome: Outcome) -> u32
    ensures { result ≡ number_of outcome }
{
    match outcome {
        Outcome::Safe(_, _) => 0,
        Outcome::Unsafe(_, _) => 0,
        Outcome::GaveUp(number, _) => number,
        Outcome::Refused(number) => number,
    }
}

// The count of questions asked, 0 with a refusal.
pub fn questions(outcome: Outcome) -> u32
    ensures { result ≡ questions_of outcome }
{
    match outcome {
        Outcome::Safe(_, questions) => questions,
        Outcome::Unsafe(_, questions) => questions,
        Outcome::GaveUp(_, questions) => questions,
        Outcome::Refused(_) => 0,
    }
}

// Refusal 4.
// Stays: states and levels are two slices, since the scope lends two stores; this is the refusal of two that do not fit.
pub fn wrong_stores(states: &[u64], levels: &[u32], path: &[u64]) -> bool
    ensures { result ≡ wrong_stores (stores states.now levels.now path.now) }
{
    if states.len() != levels.len() {
        return true;
    }
    if states.len() > base::MOST_STORED {
        return true;
    }
    path.len() < states.len() + 2
}

// The evidence: the front part of the state store after safe, of the path store after unsafe, and else the empty front of the state store.
pub fn evidence<'a>(states: &'a [u64], path: &'a [u64], outcome: Outcome) -> &'a [u64]
    ensures { HandedBack outcome states.entry path.entry result }
{
    match outcome {
        Outcome::Safe(count, _) => {
            if count <= states.len() {
                &states[..count]
            } else {
                states
            }
        }
        Outcome::Unsafe(count, _) => {
            if count <= path.len() {
                &path[..count]
            } else {
                path
            }
        }
        Outcome::GaveUp(_, _) => &states[..0],
        Outcome::Refused(_) => &states[..0],
    }
}
