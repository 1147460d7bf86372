// The whole text by its form: the header, then the parts in their order. The rows of latches, inputs and gates are kept in this order, which is that
// of the positions in a setting; lines of one literal, of which there may be any number, are read again from their place, and so are latches, since
// a start value is tested before their number is.
ghost use Rattle.std.specs.Prelude.{◌≡◌, ◌≤◌, length, drop};
ghost use Rattle.text.specs.Lines.{lines};
ghost use Rattle.aiger.specs.Text.{most_counts, parts_of, behind_header, tells};
ghost use Rattle.aiger.specs.Inner.{newer_in, HeadOf, Small, ReadAs};

use super::numbers::numbers;
use super::part::{Form, Lines, take_part, wrong_form};
use super::table::{ROWS, Row};
use base::{Fault, Refusal};

// The first edition takes the fewer counts, and no start values.
#[derive(Clone, Copy)]
pub(super) enum Edition {
    First,
    Newer,
}

// The counts of the header, and whether it was read in the newer edition.
#[derive(Clone, Copy)]
pub(super) struct Header {
    pub(super) newer: bool,
    pub(super) m: u64,
    pub(super) inputs: u64,
    pub(super) latches: u64,
    pub(super) outputs: u64,
    pub(super) gates: u64,
    pub(super) bads: u64,
    pub(super) constraints: u64,
    pub(super) justice: u64,
    pub(super) fairness: u64,
}

// The counts, and where the latches and the lines of one literal begin.
#[derive(Clone, Copy)]
pub(super) struct Reading {
    pub(super) header: Header,
    pub(super) latches: usize,
    pub(super) singles: usize,
}

impl Edition {
    fn is_newer(self) -> bool
        ensures { result ≡ newer_in self }
    {
        matches!(self, Edition::Newer)
    }

    // The most counts of a header.
    fn most_counts(self) -> usize
        ensures { result ≡ most_counts (newer_in self) }
    {
        match self {
            Edition::First => 5,
            Edition::Newer => 9,
        }
    }
}

// The first line.
fn head_of(edition: Edition, line: &[u8]) -> Option<Header>
    ensures { HeadOf (newer_in edition) line.now result }
{
    let behind = line.strip_prefix(b"aag ")?;
    let mut counts = [0u64; 9];
    let count = numbers(behind, &mut counts)?;
    if count < 5 || edition.most_counts() < count {
        return None;
    }
    Some(Header {
        newer: edition.is_newer(),
        m: counts[0],
        inputs: counts[1],
        latches: counts[2],
        outputs: counts[3],
        gates: counts[4],
        bads: counts[5],
        constraints: counts[6],
        justice: counts[7],
        fairness: counts[8],
    })
}

// The parts behind the header, which ends at this index.
fn read_parts(text: &[u8], at: usize, h: Header, rows: &mut [Row; ROWS]) -> Result<Reading, Fault>
    requires { Small h × (at ≤ length text.now) }
    ensures { ReadAs text.now (parts_of h (lines (drop at text.now))) rows.old result rows.new }
{
    let form = Form {
        width: 1,
        starts: false,
        defines: true,
        most: 2 * h.m + 1,
    };
    let inputs = Lines {
        form,
        count: h.inputs,
        first: 2,
        row: h.latches as usize,
    };
    let latches_at = take_part(text, at, inputs, rows)?;
    let latches = Lines {
        form: Form {
            width: 2,
            starts: h.newer,
            ..form
        },
        count: h.latches,
        first: inputs.behind(),
        row: 0,
    };
    let singles_at = take_part(text, latches_at, latches, rows)?;
    // Their rows would stand behind the store, and so are not kept.
    let singles = Lines {
        form: Form {
            defines: false,
            ..form
        },
        count: h.outputs + h.bads + h.constraints,
        first: latches.behind(),
        row: rows.len(),
    };
    let gates_at = take_part(text, singles_at, singles, rows)?;
    let gates = Lines {
        form: Form { width: 3, ..form },
        count: h.gates,
        first: singles.behind(),
        row: (h.latches + h.inputs) as usize,
    };
    take_part(text, gates_at, gates, rows)?;
    Ok(Reading {
        header: h,
        latches: latches_at,
        singles: singles_at,
    })
}

// The lines behind a header that asks for nothing but safety.
fn read_behind(text: &[u8], at: usize, h: Header, rows: &mut [Row; ROWS]) -> Result<Reading, Fault>
    requires { Small h × (at ≤ length text.now) }
    ensures { ReadAs text.now (behind_header h (lines (drop at text.now))) rows.old result rows.new }
{
    if h.justice != 0 || h.fairness != 0 {
        return Err(Fault {
            refusal: Refusal::Justice,
            line: 1,
        });
    }
    read_parts(text, at, h, rows)
}

// The text: its first line at fault, or what it says.
pub(super) fn read(edition: Edition, text: &[u8], rows: &mut [Row; ROWS]) -> Result<Reading, Fault>
    ensures { ReadAs text.now (tells (newer_in edition) text.now) rows.old result rows.new }
{
    let end = text::line_length(text, 0);
    let Some(h) = head_of(edition, &text[..end]) else {
        return Err(wrong_form(1));
    };
    read_behind(text, end, h, rows)
}
