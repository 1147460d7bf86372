// AIGER, ASCII, first edition and newer: a circuit is read from a text into three lent clause stores. It takes every text and every store. It answers n,
// w and the counts of masks, with each list in front of its store and zeros behind it; or it refuses, with a line, and leaves the stores
// untouched. So nothing is written before the last refusal. The text is read by its form in read.rt, line by line in part.rt and numbers.rt; lines of
// which there may be any number are read again in again.rt; variables are found in find.rt, clauses written in clauses.rt; here are the refusals in
// their order. The first edition is the newer one with nothing further, so both readers are one function.
#![tactic(auto)]

mod again;
mod clauses;
mod find;
mod numbers;
mod part;
mod read;
mod table;

ghost use Rattle.std.specs.Prelude.{◌≡◌};
ghost use Rattle.stores.specs.Lists.{lists};
ghost use Rattle.aiger.specs.Text.{first_edition, newer_edition};
ghost use Rattle.base.specs.Numbers.{code_of};
ghost use Rattle.aiger.specs.Promise.{Imports, report_of};
ghost use Rattle.aiger.specs.Inner.{flattened, latch_rows, newer_in, Small, too_few, header_refusal, FaultOf, OfHeader, Held, wrong_rows, short, last_refusal, Enters, Judges};

use again::{see, wrong_start};
use base::{Fault, Refusal};
use clauses::{enter_bad, enter_start, enter_step, fixed_starts};
use find::{all_known, defined_twice, loop_free};
use read::{Edition, Header, Reading, read};
use system::Clause;
use table::{ROWS, Row, Rows, Singles};

// n, w and the counts of masks.
#[derive(Clone, Copy, Debug, PartialEq, Eq)]
pub struct Imported {
    pub n: u32,
    pub w: u32,
    pub start: usize,
    pub step: usize,
    pub bad: usize,
}

const EMPTY: Row = Row {
    literal: 0,
    second: 0,
    third: 0,
};

// A refusal that a start value is not the reason of: the header's, which is line 1, or no line's.
fn fault_of(refusal: Refusal) -> Fault
    ensures { FaultOf refusal result }
{
    let line = match refusal {
        Refusal::TooFew | Refusal::Latches | Refusal::Wires | Refusal::Watched => 1,
        _ => 0,
    };
    Fault { refusal, line }
}

// Refusal 21.
// Stays: `Small h` is no ghost field of `Header`: `header_by`, by which the public promise reads a header, builds one of any numbers, of which it does not
// hold. With counts of u32 each term of this sum, and of every other sum of counts, would be cast first.
fn too_few(h: Header) -> bool
    requires { Small h }
    ensures { result ≡ too_few h }
{
    h.m < h.inputs + h.latches + h.gates
}

// Refusals 22 and 23.
fn header_refusal(h: Header) -> Result<(), Refusal>
    requires { Small h }
    ensures { code_of result ≡ header_refusal h }
{
    if h.latches == 0 || 32 < h.latches {
        return Err(Refusal::Latches);
    }
    if 64 < h.inputs + h.gates {
        return Err(Refusal::Wires);
    }
    Ok(())
}

// Refusal 32: a store is shorter than its list, of which that of start has so many masks.
fn too_short(h: Header, first: usize, start: usize, step: usize, bad: usize) -> bool
    requires { Small h }
    ensures { result ≡ short h first start step bad }
{
    let latches = h.latches as usize;
    let shared = 3 * h.gates as usize + h.constraints as usize;
    start < first || (step < 4 * (2 * latches + shared) || bad < 4 * (1 + shared))
}

// Refusals from 26 on: 26, 32, and of the system's own the only one that can come, a list that is too long.
fn last_refusal(h: Header, rows: Rows, start: usize, step: usize, bad: usize) -> Result<(), Refusal>
    requires { Small h }
    ensures { code_of result ≡ last_refusal h (latch_rows rows.entry) start step bad }
{
    if h.outputs == 0 && h.bads == 0 {
        return Err(Refusal::Watched);
    }
    if too_short(h, 4 * fixed_starts(rows.latches()), start, step, bad) {
        return Err(Refusal::ClauseStore);
    }
    if 4096 < 2 * h.latches + (3 * h.gates + h.constraints) {
        return Err(Refusal::Masks);
    }
    Ok(())
}

// The lists, each in front of its store and zeros behind it.
// Stays: start, step and bad as one struct of three `&mut` would be taken apart at once in each of the three functions that lend it on, and no contract of
// the callers, `import` and `import_newer`, could name it: it is no plainer.
fn enter(
    c: Singles,
    rows: Rows,
    h: Header,
    watched: Clause,
    start: &mut [u64],
    step: &mut [u64],
    bad: &mut [u64],
) -> Imported
    requires { OfHeader h rows }
    ensures { Enters c.entry (flattened rows.entry.all.now) h watched (lists start.old step.old bad.old)
        result (lists start.new step.new bad.new) }
{
    let i = enter_start(rows, start);
    let t = enter_step(c, rows, step);
    let b = enter_bad(c, rows, watched, bad);
    Imported {
        n: h.latches as u32,
        w: (h.inputs + h.gates) as u32,
        start: i,
        step: t,
        bad: b,
    }
}

// Refusal 24: a variable is defined twice, or used by a latch or a gate and not defined.
fn wrong_rows(rows: Rows) -> bool
    ensures { result ≡ wrong_rows (flattened rows.entry.all.now) rows.entry.latch_count rows.entry.first_gate }
{
    defined_twice(rows.all)
        || (!all_known(rows.all, rows.latches()) || !all_known(rows.all, rows.gates()))
}

// Refusals from 24 on, where the header is right; the lists where there is none.
fn judge(
    text: &[u8],
    r: Reading,
    rows: &[Row],
    start: &mut [u64],
    step: &mut [u64],
    bad: &mut [u64],
) -> Result<Imported, Refusal>
    requires { Held text.now r rows.now }
    ensures { Judges text.now r rows.now (lists start.old step.old bad.old)
        result (lists start.new step.new bad.new) }
{
    let h = r.header;
    let rows = Rows {
        all: rows,
        latch_count: h.latches as usize,
        first_gate: (h.latches + h.inputs) as usize,
    };
    if wrong_rows(rows) {
        return Err(Refusal::Variables);
    }
    let Some(seen) = see(text, h, r.singles, rows) else {
        return Err(Refusal::Variables);
    };
    if !loop_free(rows) {
        return Err(Refusal::Loop);
    }
    last_refusal(h, rows, start.len(), step.len(), bad.len())?;
    let constraints = Singles {
        text,
        at: seen.constraints,
        count: h.constraints,
    };
    Ok(enter(constraints, rows, h, seen.watched, start, step, bad))
}

// A circuit of this edition.
fn import_as(
    edition: Edition,
    text: &[u8],
    start: &mut [u64],
    step: &mut [u64],
    bad: &mut [u64],
) -> Result<Imported, Fault>
    ensures { Imports (newer_in edition) text.now (lists start.old step.old bad.old)
        (report_of result) (lists start.new step.new bad.new) }
{
    let mut rows = [EMPTY; ROWS];
    let r = read(edition, text, &mut rows)?;
    let h = r.header;
    if too_few(h) {
        return Err(fault_of(Refusal::TooFew));
    }
    if let Some(k) = wrong_start(text, r.latches, h.latches) {
        let line = (2 + h.inputs + k) as usize;
        return Err(Fault {
            refusal: Refusal::StartValue,
            line,
        });
    }
    header_refusal(h).map_err(fault_of)?;
    let count = (h.latches + h.inputs + h.gates) as usize;
    judge(text, r, &rows[..count], start, step, bad).map_err(fault_of)
}

// A circuit of the first edition: its n, w and lists, or the first refusal and its line. After a refusal the stores are untouched; else all behind each
// list is zero.
pub fn import(
    text: &[u8],
    start: &mut [u64],
    step: &mut [u64],
    bad: &mut [u64],
) -> Result<Imported, Fault>
    ensures { Imports first_edition text.now (lists start.old step.old bad.old)
        (report_of result) (lists start.new step.new bad.new) }
{
    import_as(Edition::First, text, start, step, bad)
}

// The same of the newer edition; what the first takes it reads alike.
pub fn import_newer(
    text: &[u8],
    start: &mut [u64],
    step: &mut [u64],
    bad: &mut [u64],
) -> Result<Imported, Fault>
    ensures { Imports newer_edition text.now (lists start.old step.old bad.old)
        (report_of result) (lists start.new step.new bad.new) }
{
    import_as(Edition::Newer, text, start, step, bad)
}
