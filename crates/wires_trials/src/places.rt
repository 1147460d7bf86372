// What is counted, by its place, and the lines that say so.
use counts::Counts;

pub const PLACES: usize = 33;

// Systems: all; those with wires in use in step alone, in bad alone, in both, in neither; those that declare a wire beyond; the steps and the bad states
// that there are, and those that need some wire at 1.
pub const SYSTEMS: usize = 0;

pub const STEP_WIRES: usize = 1;

pub const BAD_WIRES: usize = 2;

pub const BOTH: usize = 3;

pub const NEITHER: usize = 4;

pub const BEYOND: usize = 5;

pub const STEPS: usize = 6;

pub const STEPS_BY_WIRE: usize = 7;

pub const BADS: usize = 8;

pub const BADS_BY_WIRE: usize = 9;

// Searches: safe, unsafe, given up with 5, 6 and 14, evidence states, questions, a digest, and those that are not right.
pub const SAFE: usize = 10;

pub const UNSAFE: usize = 11;

pub const SPENT: usize = 12;

pub const NO_ROOM: usize = 13;

pub const NO_START: usize = 14;

pub const EVIDENCE: usize = 15;

pub const ASKED: usize = 16;

pub const SEARCHES: usize = 17;

pub const SEARCHES_WRONG: usize = 18;

// Checks: yes, no, refused; a digest; and those that are not right.
pub const YES: usize = 19;

pub const NO: usize = 20;

pub const REFUSED: usize = 21;

pub const CHECKS: usize = 22;

pub const CHECKS_WRONG: usize = 23;

// Lists of states that step into one: listed, refused, the states written, a digest, and those that are not right.
pub const LISTED: usize = 24;

pub const LISTS_REFUSED: usize = 25;

pub const WRITTEN: usize = 26;

pub const LISTS: usize = 27;

pub const LISTS_WRONG: usize = 28;

// Questions and pairs: those with an answer, and the pairs that some setting makes true; a digest; and those that are answered otherwise.
pub const FOUND: usize = 29;

pub const TRUE: usize = 30;

pub const QUESTIONS: usize = 31;

pub const QUESTIONS_WRONG: usize = 32;

pub fn write(counts: &Counts<PLACES>) {
    counts.write(
        25,
        &[
            b"systems",
            b"wires in step alone",
            b"wires in bad alone",
            b"wires in both",
            b"wires in neither",
            b"more wires declared",
            b"steps",
            b"steps that need a wire",
            b"bad states",
            b"bad that need a wire",
            b"searches safe",
            b"searches unsafe",
            b"searches that gave 5",
            b"searches that gave 6",
            b"searches that gave 14",
            b"states in evidence",
            b"sum of questions",
            b"digest of searches",
            b"searched otherwise",
            b"checks that said yes",
            b"checks that said no",
            b"checks refused with 7",
            b"digest of checks",
            b"checked otherwise",
            b"states listed into",
            b"lists refused with 30",
            b"states written",
            b"digest of lists",
            b"listed otherwise",
            b"questions with an answer",
            b"pairs true by a setting",
            b"digest of answers",
            b"answered otherwise",
        ],
    );
}
