// What the walk knows of a system and what a call did, counted and written.
use checks::Check;
use counts::Counts;
use small_systems::Kind;
use tables::System;

// What is counted, by its place: systems by their bits, less 1, and by the kind of their steps; systems with something special; what was said; sums; how
// the calls ended; a digest of all calls in turn; and what is not as the walk says or as it must be.
pub const PLACES: usize = 49;

const KINDS: usize = 10;

const NO_START: usize = 18;

const NO_BAD: usize = 19;

const ALL_BAD: usize = 20;

const NOT_REACHED: usize = 21;

const DEAD_ENDS: usize = 22;

const SAFE: usize = 23;

const UNSAFE: usize = 24;

const EXCLUDED: usize = 25;

const STEPPED: usize = 26;

const DOOMED: usize = 27;

const QUESTIONS: usize = 28;

const FULL: usize = 29;

const FEWER: usize = 30;

pub const ROOMS: usize = 31;

const LONGEST: usize = 32;

const CALLS: usize = 33;

const ANSWERED: usize = 34;

const SPENT: usize = 35;

const NO_ROOM: usize = 36;

const WITHOUT: usize = 37;

const DIGEST: usize = 38;

const GAVE_UP: usize = 39;

const VERDICT: usize = 40;

const SHORTEST: usize = 41;

const TOO_MANY: usize = 42;

const NOT_FULL: usize = 43;

const CHECK: usize = 44;

const WALK: usize = 45;

const NOT_ZERO: usize = 46;

const OTHER: usize = 47;

const NUMBER: usize = 48;

// What the walk knows of a system: how many states are no start state and lead to a bad one, the fewest steps from a start state to a bad one, and
// how many states are start states, bad, and without a next state; and, told from outside, the questions that a search with full rounds asks.
#[derive(Clone, Copy, Debug)]
pub struct Known {
    pub m: usize,
    pub steps: Option<u32>,
    pub starts: usize,
    pub bads: usize,
    pub ends: usize,
    pub full: u32,
}

// What a call came to: its number, the check of its evidence, the length of that, the questions, and a digest of all.
#[derive(Clone, Copy, Debug, PartialEq, Eq)]
pub struct Said {
    pub number: u32,
    pub check: Option<Check>,
    pub length: usize,
    pub questions: u32,
    pub digest: u64,
}

// What a call came to, and whether the evidence check and the walk accept its evidence and all else that was lent is zero.
#[derive(Clone, Copy, Debug)]
pub struct Seen {
    pub said: Said,
    pub check: bool,
    pub walk: bool,
    pub zero: bool,
}

// A later call of a system: with the allowance that the first one used, with one less, or with less room.
#[derive(Clone, Copy, Debug)]
pub enum Later {
    Again,
    OneLess,
    LessRoom,
}

impl Later {
    // Whether the call must be the first again. Without a start state no room is too small.
    fn is_again(self, first: Said, said: Said) -> bool {
        match self {
            Later::Again => true,
            Later::OneLess => said.number == 0,
            Later::LessRoom => said.number == 0 || first.number == 14,
        }
    }

    // Whether a call that is not the first again ends as it must: with one question less, with 5, or with less room, with 6.
    fn ends_right(self, first: Said, said: Said) -> bool {
        match self {
            Later::Again => true,
            Later::OneLess => said.number == 5 && first.questions.wrapping_sub(said.questions) == 1,
            Later::LessRoom => said.number == 6,
        }
    }
}

// 3(m+2)(m+2).
pub fn most(m: usize) -> u32 {
    let side = (m % 1025 + 2) as u32;
    3 * side * side
}

// Where a kind of steps is counted.
fn place_of(kind: Kind) -> usize {
    let number = match kind {
        Kind::Nothing | Kind::Gates | Kind::Barred => 0,
        Kind::Everything => 1,
        Kind::Part => 2,
        Kind::Clauses => 3,
        Kind::Chain => 4,
        Kind::Loops => 5,
        Kind::Down => 6,
        Kind::Counter => 7,
    };
    KINDS + number
}

// What is special about a system.
pub fn enter_system(counts: &mut Counts<PLACES>, s: System, kind: Kind, k: Known) {
    counts.add(s.n.wrapping_sub(1) as usize, 1);
    counts.add(place_of(kind), 1);
    counts.count(NO_START, k.starts == 0);
    counts.count(NO_BAD, k.bads == 0);
    counts.count(ALL_BAD, k.bads == tables::size(s.n));
    counts.count(NOT_REACHED, k.bads != 0 && k.steps.is_none());
    counts.count(DEAD_ENDS, k.ends != 0);
    counts.add(DOOMED, k.m as u64);
}

// What each call adds.
fn enter_call(counts: &mut Counts<PLACES>, seen: Seen) {
    counts.add(CALLS, 1);
    counts.count(SPENT, seen.said.number == 5);
    counts.count(NO_ROOM, seen.said.number == 6);
    counts.count(WITHOUT, seen.said.number == 14);
    counts.count(CHECK, !seen.check);
    counts.count(WALK, !seen.walk);
    counts.count(NOT_ZERO, !seen.zero);
    counts.stir(DIGEST, seen.said.digest);
}

// Its questions beside those of a search with full rounds: fewer only if it is safe, and never more.
fn enter_full(counts: &mut Counts<PLACES>, full: u32, said: Said) {
    let fewer = said.questions < full;
    let right = said.questions == full || fewer && said.check == Some(Check::Excluded);
    counts.add(FULL, u64::from(full));
    counts.count(FEWER, fewer);
    counts.count(NOT_FULL, !right);
}

// The verdict of the first call of a system with a start state.
fn enter_verdict(counts: &mut Counts<PLACES>, k: Known, said: Said) {
    let wanted = match k.steps {
        Some(_) => Check::Path,
        None => Check::Excluded,
    };
    counts.count(GAVE_UP, said.number != 0);
    counts.count(VERDICT, said.check != Some(wanted));
    if said.check == Some(Check::Path) {
        let shortest = k.steps.map(|steps| u64::from(steps) + 1);
        let more = (said.length as u64).saturating_sub(counts.at(LONGEST));
        counts.add(UNSAFE, 1);
        counts.add(STEPPED, said.length as u64);
        counts.count(SHORTEST, shortest != Some(said.length as u64));
        counts.add(LONGEST, more);
    } else {
        counts.add(SAFE, 1);
        counts.add(EXCLUDED, said.length as u64);
    }
}

// The first call of a system, with room m and allowance 3(m+2)(m+2), against the walk. Without a start state it ends with 14 after one question.
pub fn enter_first(counts: &mut Counts<PLACES>, k: Known, seen: Seen) {
    let said = seen.said;
    enter_call(counts, seen);
    counts.add(QUESTIONS, u64::from(said.questions));
    counts.count(ANSWERED, said.number == 0);
    counts.count(TOO_MANY, most(k.m) < said.questions);
    enter_full(counts, k.full, said);
    if k.starts != 0 {
        enter_verdict(counts, k, said);
    } else {
        let right = said.number == 14 && said.check.is_none() && said.questions == 1;
        counts.count(VERDICT, !right);
    }
}

// A later call of the system.
pub fn enter_later(counts: &mut Counts<PLACES>, later: Later, first: Said, seen: Seen) {
    let said = seen.said;
    enter_call(counts, seen);
    if later.is_again(first, said) {
        counts.count(OTHER, first != said);
    } else {
        counts.count(
            NUMBER,
            !later.ends_right(first, said) || said.check.is_some(),
        );
    }
}

pub fn write(counts: &Counts<PLACES>) {
    counts.write(
        25,
        &[
            b"systems of 1 bit",
            b"systems of 2 bits",
            b"systems of 3 bits",
            b"systems of 4 bits",
            b"systems of 5 bits",
            b"systems of 6 bits",
            b"systems of 7 bits",
            b"systems of 8 bits",
            b"systems of 9 bits",
            b"systems of 10 bits",
            b"no steps",
            b"all steps",
            b"some steps",
            b"steps by short clauses",
            b"steps to the next",
            b"to the next and itself",
            b"steps down",
            b"a counter's steps",
            b"no start state",
            b"no bad state",
            b"all states bad",
            b"bad states not reached",
            b"states without a next",
            b"safe",
            b"unsafe",
            b"states excluded",
            b"states in paths",
            b"sum of m",
            b"sum of questions",
            b"sum with full rounds",
            b"fewer than with those",
            b"sum of rooms used",
            b"longest path",
            b"calls",
            b"room m sufficed",
            b"calls that gave 5",
            b"calls that gave 6",
            b"calls that gave 14",
            b"digest of all calls",
            b"gave up with room m",
            b"verdict differs",
            b"path length differs",
            b"too many questions",
            b"not as with full rounds",
            b"evidence check refuses",
            b"walk refuses",
            b"store not zero",
            b"other answer",
            b"number not 5 or 6",
        ],
    );
}
