// House files: a text is read into three lent clause stores, line after line, as a reader's place moves. It takes every text and every store. It
// answers n and the counts of masks, with each list in front of its store and zeros behind it; or it refuses with 8 to 13 and the line, and leaves
// the stores all zero. A line by itself is the crate `line`, what it does to what was read is enter.rt; here are the loop, the refusal of a file that
// stops early, and the zeros.
#![tactic(auto)]

mod enter;

ghost use Rattle.std.specs.Prelude.{◌≡◌, []};
ghost use Rattle.stores.specs.Lists.{lists, filled};
ghost use Rattle.house.specs.Promise.{Reads};
ghost use Rattle.house.specs.Told.{report_of};
ghost use Rattle.house.specs.Inner.{lists_of, Keeps, Lie, nothing, Took};

use base::{Fault, Refusal};
use enter::{Lent, Reading, take_line};
use text::Reader;

// What a file says: n and the counts of masks.
#[derive(Clone, Copy, Debug, PartialEq, Eq)]
pub struct House {
    pub n: u32,
    pub start: usize,
    pub step: usize,
    pub bad: usize,
}

// All lines of the text, into stores that are all zero. A reader keeps the text and its place in it, and its place moves by a line a turn. Refusal 10: the
// file stops before 0F.
fn take_lines(text: &[u8], into: &mut Lent) -> Result<Reading, Fault>
    requires { Lie nothing (lists_of into.old) }
    ensures lists { Took text.now (lists_of into.old) result (lists_of into.new) }
    ensures kept { Keeps into.old into.new }
{
    let mut r = Reader::new(text);
    let mut reading = Reading {
        stage: 0,
        n: 0,
        clauses: 0,
        start: 0,
        step: 0,
        bad: 0,
    };
    let mut line = 1;
    while r.at < text.len() {
        let at = r.at;
        r = r.next_line();
        let taken = take_line(&text[at..r.at], reading, into);
        match taken {
            Ok(next) => {
                reading = next;
            }
            Err(refusal) => {
                return Err(Fault { refusal, line });
            }
        }
        line += 1;
    }
    if reading.stage != 16 {
        return Err(Fault {
            refusal: Refusal::Kind,
            line,
        });
    }
    Ok(reading)
}

// All three stores become zero.
fn clear(into: &mut Lent)
    ensures lists { lists_of into.new ≡ filled (lists_of into.old) [] [] [] }
    ensures kept { Keeps into.old into.new }
{
    stores::clear(&mut *into.start);
    stores::clear(&mut *into.step);
    stores::clear(&mut *into.bad);
}

// A house file, into the three stores.
fn read_into(text: &[u8], into: &mut Lent) -> Result<House, Fault>
    ensures lists { Reads text.now (lists_of into.old) (report_of result) (lists_of into.new) }
    ensures kept { Keeps into.old into.new }
{
    clear(into);
    match take_lines(text, into) {
        Ok(r) => Ok(House {
            n: r.n,
            start: r.start,
            step: r.step,
            bad: r.bad,
        }),
        Err(fault) => {
            clear(into);
            Err(fault)
        }
    }
}

// A house file: its n and lists, or the first refusal and its line. After a refusal the stores are all zero; else all behind each list is zero.
pub fn read(
    text: &[u8],
    start: &mut [u64],
    step: &mut [u64],
    bad: &mut [u64],
) -> Result<House, Fault>
    ensures { Reads text.now
        (lists start.old step.old bad.old)
        (report_of result) (lists start.new step.new bad.new) }
{
    let mut into = Lent { start, step, bad };
    read_into(text, &mut into)
}
