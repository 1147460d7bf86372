// Lines of one form, one after the other: each gives a row of three numbers, which are written into a lent store as far as it reaches.
ghost use Rattle.std.specs.Prelude.{◌≡◌, ◌+◌, ◌≤◌, ◌<◌, ◌^◌, length};
ghost use Rattle.aiger.specs.Inner.{count_fits, Fine, PutsRow, ReadsLine, TakesLine, wrong_form, Begins, Takes};

use super::numbers::numbers;
use super::table::Row;
use base::{Fault, Refusal};

// What a line has to be: how many literals it has, whether a start value may stand behind them, whether the first defines a variable, and the largest
// literal.
#[derive(Clone, Copy)]
pub(super) struct Form {
    pub(super) width: usize,
    pub(super) starts: bool,
    pub(super) defines: bool,
    pub(super) most: u64,
}

// A line that was read: how many numbers it has, if it is numbers and not more than three, these, and where it ends.
#[derive(Clone, Copy)]
pub(super) struct Line {
    pub(super) count: Option<usize>,
    pub(super) row: Row,
    pub(super) end: usize,
}

// So many lines of one form, the first of which has this number; and where its row is to stand.
#[derive(Clone, Copy)]
pub(super) struct Lines {
    pub(super) form: Form,
    pub(super) count: u64,
    pub(super) first: usize,
    pub(super) row: usize,
}

impl Form {
    // Whether a line of this form can have so many numbers.
    fn has(self, count: usize) -> bool
        requires { self.width ≤ 3 }
        ensures { result ≡ count_fits self count }
    {
        count == self.width || (self.starts && count == self.width + 1)
    }

    // Whether a line is of this form. Numbers behind its last are 0, and a start value may be any.
    fn takes(self, line: Line) -> bool
        requires { Fine self }
        ensures { TakesLine self line result }
    {
        let Some(count) = line.count else {
            return false;
        };
        if !self.has(count) {
            return false;
        }
        let row = line.row;
        if self.defines && (row.literal % 2 != 0 || row.literal == 0) {
            return false;
        }
        let most = self.most;
        row.literal <= most
            && (self.width < 2 || row.second <= most)
            && (self.width < 3 || row.third <= most)
    }
}

impl Lines {
    // The number of the line behind the last.
    pub(super) fn behind(self) -> usize
        requires { self.first + self.count < 2 ^ 62 }
        ensures { result ≡ self.first + self.count }
    {
        self.first + self.count as usize
    }
}

// A line that is missing or wrong.
pub(super) fn wrong_form(line: usize) -> Fault
    ensures { result ≡ wrong_form line }
{
    Fault {
        refusal: Refusal::Form,
        line,
    }
}

// A row at this index, if the store reaches so far.
fn put_row(rows: &mut [Row], at: usize, row: Row)
    ensures { PutsRow at row rows.old rows.new }
{
    if at < rows.len() {
        rows[at] = row;
    }
}

// The line at this index; where the text has ended it is empty, and so no numbers.
pub(super) fn read_line(text: &[u8], at: usize) -> Line
    requires { at ≤ length text.now }
    ensures { ReadsLine text.now at result }
{
    let end = at + text::line_length(text, at);
    let mut found = [0u64; 3];
    let count = numbers(&text[at..end], &mut found);
    let row = Row {
        literal: found[0],
        second: found[1],
        third: found[2],
    };
    Line { count, row, end }
}

// All these lines from this index on: where they end, or the first that is missing or wrong.
pub(super) fn take_part(
    text: &[u8],
    from: usize,
    lines: Lines,
    rows: &mut [Row],
) -> Result<usize, Fault>
    requires { Begins text.now from lines }
    ensures { Takes text.now lines from rows.old result rows.new }
{
    let mut at = from;
    for k in 0..lines.count {
        let line = read_line(text, at);
        if !lines.form.takes(line) {
            return Err(wrong_form(lines.first + k as usize));
        }
        put_row(rows, lines.row + k as usize, line.row);
        at = line.end;
    }
    Ok(at)
}
