// Variables are found by looking through the rows, of which there are at most 96: no table over M. Refusal 24, a variable defined twice or used and
// not defined; refusal 25, a gate that depends on itself, by one mask of gates.
ghost use Rattle.std.specs.Prelude.{true, ◌≡◌, ◌-◌, ◌^◌, ◌≤◌};
ghost use Rattle.std.specs.List.{list_all, position};
ghost use Rattle.circuit.specs.Circuit.{among};
ghost use Rattle.circuit.specs.Loops.{round};
ghost use Rattle.circuit.specs.Refusals.{twice};
ghost use Rattle.aiger.specs.Text.{vars, gates_of};
ghost use Rattle.aiger.specs.Inner.{flattened, gate_rows, has_var, known_in, line_known, LoopFree};

use super::table::{Row, Rows};

// The first row of a variable.
pub(super) fn find(rows: &[Row], v: u64) -> Option<usize>
    ensures { result ≡ position (has_var v) rows.now }
{
    rows.iter().position(|row| row.literal / 2 == v)
}

// Whether a variable has two rows.
pub(super) fn defined_twice(rows: &[Row]) -> bool
    ensures { result ≡ twice (vars (flattened rows.now)) }
{
    let mut left = rows;
    while let [row, rest @ ..] = left {
        if find(rest, row.literal / 2).is_some() {
            return true;
        }
        left = rest;
    }
    false
}

// Whether a literal's variable is 0 or has a row.
pub(super) fn is_known(rows: &[Row], l: u64) -> bool
    ensures { result ≡ known_in (vars (flattened rows.now)) l }
{
    l / 2 == 0 || find(rows, l / 2).is_some()
}

// Whether the second and third number of each of these lines are known.
pub(super) fn all_known(rows: &[Row], lines: &[Row]) -> bool
    ensures { result ≡ list_all (line_known (vars (flattened rows.now))) lines.now }
{
    lines.iter().all(|line| is_known(rows, line.second) && is_known(rows, line.third))
}

// Whether a variable is no gate's or its gate is in the mask.
fn is_settled(rows: Rows, mask: u64, v: u64) -> bool
    ensures { result ≡ among (vars (gate_rows rows.entry)) mask true v }
{
    match find(rows.gates(), v) {
        Some(k) => (mask >> k) % 2 == 1,
        None => true,
    }
}

// One round: the gates whose two variables are no gate's or in the mask.
fn settle(rows: Rows, mask: u64) -> u64
    ensures { result ≡ round (gates_of (gate_rows rows.entry)) mask }
{
    let gates = rows.gates();
    let mut next = 0;
    for (k, gate) in gates.iter().enumerate() {
        if is_settled(rows, mask, gate.second / 2) && is_settled(rows, mask, gate.third / 2) {
            next += masks::power(k as u32);
        }
    }
    next
}

// Whether no gate depends on itself: as many rounds as gates reach them all.
pub(super) fn loop_free(rows: Rows) -> bool
    ensures { LoopFree (gate_rows rows.entry) result }
{
    let gates = rows.gates();
    let mut mask = 0;
    for _ in gates {
        mask = settle(rows, mask);
    }
    mask == full(gates.len() as u32)
}

// The mask of the first `count` gates.
fn full(count: u32) -> u64
    requires { count ≤ 64 }
    ensures { result ≡ 2 ^ count - 1 }
{
    masks::power(count).wrapping_sub(1)
}
