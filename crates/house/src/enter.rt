// What was read: the code's record holds counts, and each list is the front of its lent store. A line is parsed and what it says entered: the size,
// a clause behind its list, or the end. Refused here: 12, clause line number 1,025 or no room; 13, count wrong; and what the line is refused with by
// itself. Every function that takes stores requires that the lists lie in them with zeros behind, and leaves them so unless it refuses: after a
// refusal nothing but the stores' lengths is promised, since the reader clears them.
ghost use Rattle.std.specs.Prelude.{◌≡◌, Ok};
ghost use Rattle.stores.specs.Lies.{Lies};
ghost use Rattle.line.specs.Says.{Clause};
ghost use Rattle.line.specs.Told.{number_of, said_of};
ghost use Rattle.house.specs.Inner.{lists_of, Keeps, PutAs, Lie, one_more, Enters, Takes};

use base::Refusal;
use line::{Line, List, parse};

// The three lent stores.
#[derive(Drop)]
pub(super) struct Lent<'a> {
    pub(super) start: &'a mut [u64],
    pub(super) step: &'a mut [u64],
    pub(super) bad: &'a mut [u64],
}

// What was read so far: the stage, n, the count of clause lines, and each list's count of masks.
// Stays: the stage is the number that `parse` takes, and a count stands beside each lent store, since there is no heap.
#[derive(Clone, Copy)]
pub(super) struct Reading {
    pub(super) stage: u32,
    pub(super) n: u32,
    pub(super) clauses: u32,
    pub(super) start: usize,
    pub(super) step: usize,
    pub(super) bad: usize,
}

// A clause's four masks behind the list in front of the store, if there is room. The wires' two are 0, as all behind the list is.
fn put(store: &mut [u64], count: usize, ones: u64, zeros: u64) -> bool
    requires { Lies count store.old }
    ensures { PutAs store.old count ones zeros result store.new }
{
    if store.len() < 4 {
        return false;
    }
    if store.len() - 4 < count {
        return false;
    }
    store[count] = ones;
    store[count + 1] = zeros;
    true
}

// A clause more, with these counts of masks. Refusal 12: clause line number 1,025, or no room.
fn one_more(
    room: bool,
    stage: u32,
    r: Reading,
    start: usize,
    step: usize,
    bad: usize,
) -> Result<Reading, Refusal>
    ensures { result ≡ one_more room stage r start step bad }
{
    if base::MOST_CLAUSE_LINES <= r.clauses {
        return Err(Refusal::Room);
    }
    if !room {
        return Err(Refusal::Room);
    }
    Ok(Reading {
        stage,
        n: r.n,
        clauses: r.clauses + 1,
        start,
        step,
        bad,
    })
}

// A clause: its list has four masks more.
fn enter_clause(
    r: Reading,
    list: List,
    ones: u64,
    zeros: u64,
    into: &mut Lent,
) -> Result<Reading, Refusal>
    requires { Lie r (lists_of into.old) }
    ensures lists { Enters r (Clause (number_of list) ones zeros)
        (lists_of into.old)
        result (lists_of into.new) }
    ensures kept { Keeps into.old into.new }
{
    match list {
        List::Start => {
            let room = put(&mut *into.start, r.start, ones, zeros);
            one_more(room, 1, r, r.start + 4, r.step, r.bad)
        }
        List::Step => {
            let room = put(&mut *into.step, r.step, ones, zeros);
            one_more(room, 2, r, r.start, r.step + 4, r.bad)
        }
        List::Bad => {
            let room = put(&mut *into.bad, r.bad, ones, zeros);
            one_more(room, 3, r, r.start, r.step, r.bad + 4)
        }
    }
}

// What a line says is entered. Refusal 13: count wrong.
fn enter(r: Reading, said: Line, into: &mut Lent) -> Result<Reading, Refusal>
    requires { Lie r (lists_of into.old) }
    ensures lists { Enters r (said_of (Ok said))
        (lists_of into.old)
        result (lists_of into.new) }
    ensures kept { Keeps into.old into.new }
{
    match said {
        Line::Size(n) => Ok(Reading {
            stage: 1,
            n,
            clauses: r.clauses,
            start: r.start,
            step: r.step,
            bad: r.bad,
        }),
        Line::Clause { list, ones, zeros } => enter_clause(r, list, ones, zeros, into),
        Line::Count(count) => {
            if count != r.clauses {
                return Err(Refusal::Count);
            }
            Ok(Reading {
                stage: 16,
                n: r.n,
                clauses: r.clauses,
                start: r.start,
                step: r.step,
                bad: r.bad,
            })
        }
    }
}

// A line, parsed and entered.
pub(super) fn take_line(line: &[u8], r: Reading, into: &mut Lent) -> Result<Reading, Refusal>
    requires { Lie r (lists_of into.old) }
    ensures lists { Takes r line.now (lists_of into.old) result (lists_of into.new) }
    ensures kept { Keeps into.old into.new }
{
    let said = parse(line, r.stage)?;
    enter(r, said, into)
}
