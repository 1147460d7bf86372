// The clauses of a circuit, written into lent stores one behind the other, as far as these reach. A literal comes as its variable and a sign, 1 if it
// is inverted. The first rows are the latches', so the index of a variable's row says where it stands.
ghost use Rattle.std.specs.Prelude.{[], ◌∷◌, ◌≡◌, ◌+◌, ◌*◌, ◌/◌, ◌≤◌, ◌<◌, ◌^◌, length, count_by};
ghost use Rattle.text.specs.Writing.{Writes};
ghost use Rattle.circuit.specs.Import.{here, with_place, empty, mark, start_clauses, latch_clauses, gate_clauses, flat};
ghost use Rattle.aiger.specs.Text.{latches_of, gates_of};
ghost use Rattle.aiger.specs.Inner.{flattened, latch_rows, gate_rows, place_at, placed, starting_at, latch_of, gate_of, start_list, is_fixed, Entered};
ghost use Rattle.aiger.specs.Inner.{PutsConstraints, EntersStep, EntersBad};

use super::find::find;
use super::part::read_line;
use super::table::{Row, Rows, Singles};
use masks::Mask;
use system::Clause;

// The clause without a literal.
pub(super) fn no_literal() -> Clause
    ensures { result ≡ empty }
{
    Clause {
        ones: Mask { pair: 0, wires: 0 },
        zeros: Mask { pair: 0, wires: 0 },
    }
}

// A position of the pair more in a mask.
fn with_bit(m: Mask, k: usize) -> Mask
    requires { k < 64 }
    ensures { result ≡ with_place (here k) m }
{
    Mask {
        pair: m.pair | masks::power(k as u32),
        wires: m.wires,
    }
}

// The place of a row more in a mask.
fn with_row(m: Mask, k: usize, latches: usize) -> Mask
    requires { (k < latches + 64) × (latches ≤ 32) }
    ensures { result ≡ with_place (place_at latches k) m }
{
    if k < latches {
        return with_bit(m, k);
    }
    Mask {
        pair: m.pair,
        wires: m.wires | masks::power((k - latches) as u32),
    }
}

// A literal more in a clause. A variable without a row is false: its literal is dropped, and the inverted one makes the clause always true.
pub(super) fn with_literal(rows: Rows, m: Clause, v: u64, sign: u64) -> Clause
    ensures { result ≡ mark (placed rows.entry v) sign m }
{
    let Clause { ones, zeros } = m;
    let Some(k) = find(rows.all, v) else {
        if sign == 0 {
            return m;
        }
        return Clause {
            ones: with_bit(ones, 0),
            zeros: with_bit(zeros, 0),
        };
    };
    if sign == 0 {
        return Clause {
            ones: with_row(ones, k, rows.latch_count),
            zeros,
        };
    }
    Clause {
        ones,
        zeros: with_row(zeros, k, rows.latch_count),
    }
}

// One number at this index, if the store reaches so far.
// Stays: `text::put` does the same with bytes. `laid`, on which the public promises of both rest, is of numbers; one function of both types would need a
// trait whose law says what number each value is, and is no plainer.
fn put(store: &mut [u64], at: usize, x: u64) -> usize
    requires { at < 2 ^ 63 }
    ensures { Writes at (x ∷ []) store.old result store.new }
{
    if at < store.len() {
        store[at] = x;
    }
    at + 1
}

// A clause's four masks.
fn put_clause(store: &mut [u64], at: usize, m: Clause) -> usize
    requires { at < 2 ^ 62 }
    ensures { Writes at (flat (m ∷ [])) store.old result store.new }
{
    let Clause { ones, zeros } = m;
    let next = put(store, at, ones.pair);
    let next = put(store, next, zeros.pair);
    let next = put(store, next, ones.wires);
    put(store, next, zeros.wires)
}

// The clause of latch k by its start value; none for "either".
// Stays: `at < 2 ^ 32`, here and in the two below. A list is counted on where its store ends, so no slice carries it; a u32 would, but each would cast it
// to add to it, since the end has to be a usize, and each caller would cast it back.
fn put_first(k: usize, start: u64, store: &mut [u64], at: usize) -> usize
    requires { (k < 32) × (at < 2 ^ 32) }
    ensures { Writes at (flat (start_clauses k (starting_at start ∷ []))) store.old result store.new }
{
    if 1 < start {
        return at;
    }
    let Clause { ones, zeros } = no_literal();
    if start == 1 {
        let m = Clause {
            ones: with_bit(ones, k),
            zeros,
        };
        return put_clause(store, at, m);
    }
    let m = Clause {
        ones,
        zeros: with_bit(zeros, k),
    };
    put_clause(store, at, m)
}

// Start: every latch has its start value.
fn put_start(rows: Rows, store: &mut [u64]) -> usize
    ensures { Writes 0 (flat (start_clauses 0 (latches_of (latch_rows rows.entry)))) store.old result store.new }
{
    let latches = rows.latches();
    let mut at = 0;
    for (k, latch) in latches.iter().enumerate() {
        at = put_first(k, latch.third, store, at);
    }
    at
}

// How many latches have a fixed start value.
pub(super) fn fixed_starts(latches: &[Row]) -> usize
    ensures { result ≡ count_by is_fixed latches.now }
{
    latches.iter().filter(|latch| latch.third <= 1).count()
}

// The two clauses of latch k: its bit one step later equals the literal.
fn put_latch(rows: Rows, k: usize, next: u64, store: &mut [u64], at: usize) -> usize
    requires { (k < 32) × (at < 2 ^ 32) }
    ensures { Writes at (flat (latch_clauses (placed rows.entry) k (latch_of next ∷ []))) store.old result store.new }
{
    let Clause { ones, zeros } = with_literal(rows, no_literal(), next / 2, 1 - next % 2);
    let m = Clause {
        ones: with_bit(ones, 32 + k),
        zeros,
    };
    let at = put_clause(store, at, m);
    let Clause { ones, zeros } = with_literal(rows, no_literal(), next / 2, next % 2);
    let m = Clause {
        ones,
        zeros: with_bit(zeros, 32 + k),
    };
    put_clause(store, at, m)
}

// Step: two clauses a latch.
fn put_latches(rows: Rows, store: &mut [u64]) -> usize
    ensures { Writes 0 (flat (latch_clauses (placed rows.entry) 0 (latches_of (latch_rows rows.entry)))) store.old result store.new }
{
    let latches = rows.latches();
    let mut at = 0;
    for (k, latch) in latches.iter().enumerate() {
        at = put_latch(rows, k, latch.second, store, at);
    }
    at
}

// The three clauses of a gate.
fn put_gate(rows: Rows, gate: Row, store: &mut [u64], at: usize) -> usize
    requires { at < 2 ^ 32 }
    ensures { Writes at (flat (gate_clauses (placed rows.entry) (gate_of gate.literal gate.second gate.third ∷ []))) store.old result store.new }
{
    let out = gate.literal;
    let left = gate.second;
    let right = gate.third;
    let not_out = with_literal(rows, no_literal(), out / 2, 1);
    let m = with_literal(rows, not_out, left / 2, left % 2);
    let at = put_clause(store, at, m);
    let m = with_literal(rows, not_out, right / 2, right % 2);
    let at = put_clause(store, at, m);
    let m = with_literal(rows, no_literal(), out / 2, 0);
    let m = with_literal(rows, m, left / 2, 1 - left % 2);
    let m = with_literal(rows, m, right / 2, 1 - right % 2);
    put_clause(store, at, m)
}

// Three clauses a gate.
fn put_gates(rows: Rows, store: &mut [u64], from: usize) -> usize
    requires { from < 2 ^ 16 }
    ensures { Writes from (flat (gate_clauses (placed rows.entry) (gates_of (gate_rows rows.entry)))) store.old result store.new }
{
    let gates = rows.gates();
    let mut at = from;
    for gate in gates {
        at = put_gate(rows, *gate, store, at);
    }
    at
}

// One clause a constraint; their lines are read again.
fn put_constraints(c: Singles, rows: Rows, store: &mut [u64], from: usize) -> usize
    requires { from < 2 ^ 16 }
    ensures { PutsConstraints c.entry (placed rows.entry) from store.old result store.new }
{
    let mut at = c.at;
    let mut next = from;
    for _ in 0..c.count {
        let line = read_line(c.text, at);
        let l = line.row.literal;
        let m = with_literal(rows, no_literal(), l / 2, l % 2);
        next = put_clause(store, next, m);
        at = line.end;
    }
    next
}

// The list of start in front of its store, and zeros behind it; how many masks it has.
pub(super) fn enter_start(rows: Rows, store: &mut [u64]) -> usize
    ensures { Entered (start_list (latch_rows rows.entry)) store.old result store.new }
{
    let end = put_start(rows, store);
    stores::clear_behind(store, end);
    end
}

// The list of step: two clauses a latch, then three a gate and one a constraint.
pub(super) fn enter_step(c: Singles, rows: Rows, store: &mut [u64]) -> usize
    ensures { EntersStep c.entry (flattened rows.entry.all.now) (latch_rows rows.entry) (gate_rows rows.entry) store.old result store.new }
{
    let end = put_latches(rows, store);
    let end = put_gates(rows, store, end);
    let end = put_constraints(c, rows, store, end);
    stores::clear_behind(store, end);
    end
}

// The list of bad: the clause of what is watched, then three a gate and one a constraint.
pub(super) fn enter_bad(c: Singles, rows: Rows, watched: Clause, store: &mut [u64]) -> usize
    ensures { EntersBad c.entry (flattened rows.entry.all.now) rows.entry.latch_count (gate_rows rows.entry) watched store.old result store.new }
{
    let front = put_clause(store, 0, watched);
    let front = put_gates(rows, store, front);
    let end = put_constraints(c, rows, store, front);
    stores::clear_behind(store, end);
    end
}
