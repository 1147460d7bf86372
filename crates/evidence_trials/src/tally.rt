// What is counted, and the lines that say so.
use super::answers::{ANSWERS, Answer, asks_right};
use super::damage::{WAYS, Way};
use base::Refusal;
use checks::Check;
use counts::Counts;
use evidence::Checked;

// How often each answer was given on each line: for each way, of excluded states, then of paths, then of either given to the other check.
const PLACES: usize = 96;

// The lists of evidence, the questions of all yes, a digest of all answers in turn, the answers that the walk would not give, and the counts of questions
// that are not right.
const TOTALS: usize = 6;

const SAFE: usize = 0;

const UNSAFE: usize = 1;

const QUESTIONS: usize = 2;

const DIGEST: usize = 3;

const DIFFER: usize = 4;

const QUESTIONS_WRONG: usize = 5;

#[derive(Debug, Drop)]
pub struct Tally {
    answers: Counts<PLACES>,
    totals: Counts<TOTALS>,
}

// What was damaged: evidence for the check of excluded states, for that of paths, or, of either kind, for the other check.
#[derive(Clone, Copy, Debug)]
enum Given {
    Excluded,
    Path,
    Other,
}

impl Given {
    fn to(check: Check, own: Check) -> Given {
        if check != own {
            return Given::Other;
        }
        match own {
            Check::Excluded => Given::Excluded,
            Check::Path => Given::Path,
        }
    }

    fn name(self) -> &'static [u8] {
        match self {
            Given::Excluded => b"excluded states",
            Given::Path => b"path",
            Given::Other => b"the other check",
        }
    }
}

// Where an answer is counted.
fn place_of(given: Given, way: Way, answer: Answer) -> usize {
    given as usize * 32 + way as usize * 4 + answer as usize
}

impl Tally {
    pub fn new() -> Tally {
        Tally {
            answers: Counts::new(),
            totals: Counts::new(),
        }
    }

    // A list of evidence.
    pub fn found(&mut self, own: Check) {
        let place = match own {
            Check::Excluded => SAFE,
            Check::Path => UNSAFE,
        };
        self.totals.add(place, 1);
    }

    // What a check said of k states, damaged in this way.
    pub fn enter(
        &mut self,
        check: Check,
        own: Check,
        way: Way,
        said: Result<Checked, Refusal>,
        wanted: Answer,
        k: usize,
    ) {
        let answer = Answer::of(said);
        self.answers
            .add(place_of(Given::to(check, own), way, answer), 1);
        self.totals.count(DIFFER, answer != wanted);
        self.totals
            .count(QUESTIONS_WRONG, !asks_right(check, said, k));
        self.totals.stir(DIGEST, answer as u64);
        if let Ok(Checked::Yes(asked)) = said {
            self.totals.add(QUESTIONS, asked as u64);
        }
    }

    pub fn write(&self) {
        io::write_all(
            1,
            b"                         yes, no, refused with 7, refused otherwise\n",
        );
        for given in [Given::Excluded, Given::Path, Given::Other] {
            for way in WAYS {
                counts::write_name(given.name(), 16);
                counts::write_name(way.name(), 8);
                for answer in ANSWERS {
                    counts::write_number(b" ", self.answers.at(place_of(given, way, answer)));
                }
                io::write_all(1, b"\n");
            }
        }
        self.totals.write(
            22,
            &[
                b"safe evidence",
                b"unsafe evidence",
                b"questions of all yes",
                b"digest of all answers",
                b"answered otherwise",
                b"wrong question counts",
            ],
        );
    }
}
