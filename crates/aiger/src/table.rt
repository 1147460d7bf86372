// What is kept of a circuit's lines, and where those stand that are not.
ghost use Rattle.std.specs.Prelude.{◌≡◌, ◌≤◌, ◌<◌, ◌^◌, length, take, drop};
ghost use Rattle.aiger.specs.Table.{Fits};

// The most rows: 32 latches and 64 inputs and gates.
pub(super) const ROWS: usize = 96;

// The three numbers of a line, 0 where it has fewer: of a latch its literal, the next one and the start value, of a gate its literal and two more.
#[derive(Clone, Copy)]
pub(super) struct Row {
    pub(super) literal: u64,
    pub(super) second: u64,
    pub(super) third: u64,
}

// The rows of a circuit: so many of latches, up to 32, then those of inputs, and from one row on those of gates, up to 64 wires together.
#[derive(Clone, Copy)]
pub(super) struct Rows<'a> {
    pub(super) all: &'a [Row],
    pub(super) latch_count: usize,
    pub(super) first_gate: usize,
    ghost fits: { Fits all.now latch_count first_gate },
}

// So many lines of one literal, from this index of the text on.
#[derive(Clone, Copy)]
pub(super) struct Singles<'a> {
    pub(super) text: &'a [u8],
    pub(super) at: usize,
    pub(super) count: u64,
    ghost within: { at ≤ length text.now },
    ghost few: { count < 2 ^ 32 },
}

impl<'a> Rows<'a> {
    pub(super) fn latches(self) -> &'a [Row]
        ensures { result.now ≡ take self.entry.latch_count self.entry.all.now }
    {
        &self.all[..self.latch_count]
    }

    pub(super) fn gates(self) -> &'a [Row]
        ensures { result.now ≡ drop self.entry.first_gate self.entry.all.now }
    {
        &self.all[self.first_gate..]
    }
}
