// Lines that are read again, since there may be any number of them: start values of latches, and literals that stand alone in a line, which are outputs,
// bad-state lines and constraints one behind the other. Their form is right, so each line has its numbers.
ghost use Rattle.std.specs.Prelude.{◌≤◌, length};
ghost use Rattle.aiger.specs.Inner.{flattened, Small, RightStarts, Watches, Sees};

use super::clauses::{no_literal, with_literal};
use super::find::is_known;
use super::part::read_line;
use super::read::Header;
use super::table::{Rows, Singles};
use system::Clause;

// The clause that one of them is 1, and where they end.
#[derive(Clone, Copy)]
struct Watched {
    clause: Clause,
    at: usize,
}

// The clause of the bad-state lines, or of the outputs where there are none; and where the constraints begin.
#[derive(Clone, Copy)]
pub(super) struct Seen {
    pub(super) watched: Clause,
    pub(super) constraints: usize,
}

// The first of so many latches whose start value is neither 0 nor 1 nor its own literal.
pub(super) fn wrong_start(text: &[u8], from: usize, count: u64) -> Option<u64>
    requires { from ≤ length text.now }
    ensures { RightStarts text.now from count result }
{
    let mut at = from;
    for k in 0..count {
        let line = read_line(text, at);
        let row = line.row;
        let start = row.third;
        if 1 < start && start != row.literal {
            return Some(k);
        }
        at = line.end;
    }
    None
}

// Lines of one literal, read again, if all of them are known.
fn watch(s: Singles, rows: Rows) -> Option<Watched>
    ensures { Watches s.entry.text.now s.entry.at s.entry.count (flattened rows.entry.all.now) rows.entry.latch_count result }
{
    let mut at = s.at;
    let mut clause = no_literal();
    for _ in 0..s.count {
        let line = read_line(s.text, at);
        let l = line.row.literal;
        if !is_known(rows.all, l) {
            return None;
        }
        clause = with_literal(rows, clause, l / 2, l % 2);
        at = line.end;
    }
    Some(Watched { clause, at })
}

// All lines of one literal, from this index on, if all of them are known.
pub(super) fn see(text: &[u8], h: Header, at: usize, rows: Rows) -> Option<Seen>
    requires { Small h × (at ≤ length text.now) }
    ensures { Sees text.now h at (flattened rows.entry.all.now) rows.entry.latch_count result }
{
    let outputs = Singles {
        text,
        at,
        count: h.outputs,
    };
    let output = watch(outputs, rows)?;
    let bads = Singles {
        text,
        at: output.at,
        count: h.bads,
    };
    let bad = watch(bads, rows)?;
    let constraints = Singles {
        text,
        at: bad.at,
        count: h.constraints,
    };
    watch(constraints, rows)?;
    let watched = if h.bads == 0 {
        output.clause
    } else {
        bad.clause
    };
    Some(Seen {
        watched,
        constraints: bad.at,
    })
}
