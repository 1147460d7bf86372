// What a check says, and whether that is right.
use base::Refusal;
use checks::Check;
use evidence::Checked;
use tables::Table;

// The four answers.
#[derive(Clone, Copy, Debug, PartialEq, Eq)]
pub enum Answer {
    Yes,
    No,
    StateRefused,
    Refused,
}

pub const ANSWERS: [Answer; 4] = [
    Answer::Yes,
    Answer::No,
    Answer::StateRefused,
    Answer::Refused,
];

impl Answer {
    pub fn of(said: Result<Checked, Refusal>) -> Answer {
        match said {
            Ok(Checked::Yes(_)) => Answer::Yes,
            Ok(Checked::No(_)) => Answer::No,
            Err(Refusal::Evidence) => Answer::StateRefused,
            Err(_) => Answer::Refused,
        }
    }

    // What the check must say, by the walk.
    pub fn wanted(check: Check, table: Table, list: &[u64]) -> Answer {
        if !small_systems::are_states(table.n, list) {
            return Answer::StateRefused;
        }
        if check.holds(table, list) {
            Answer::Yes
        } else {
            Answer::No
        }
    }
}

// Whether the count of questions is right. A path takes none. Of k excluded states a yes takes k + 1, a no at most as many.
pub fn asks_right(check: Check, said: Result<Checked, Refusal>, k: usize) -> bool {
    let most = match check {
        Check::Excluded => k.saturating_add(1),
        Check::Path => 0,
    };
    match said {
        Ok(Checked::Yes(asked)) => asked == most,
        Ok(Checked::No(asked)) => asked <= most,
        Err(_) => true,
    }
}
