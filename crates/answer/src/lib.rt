// Text in, text out: the whole of `scan` as one function on two lent buffers.
#![tactic(auto)]

ghost use Rattle.std.specs.Prelude.{[], ◌∷◌, ◌≡◌, ◌/◌, ◌%◌, ◌^◌, ◌≤◌, ◌<◌, length};
ghost use Rattle.text.specs.Writing.{Writes};
ghost use Rattle.system.specs.Lent.{system_in};
ghost use Rattle.answer.specs.Output.{letter, digits, line_of};
ghost use Rattle.answer.specs.Answer.{state_lines, verdict_lines, gave_up_line, refusal_line, system_lines};
ghost use Rattle.answer.specs.Promise.{outcome_lines, Answers};

use house::House;
use system::System;

// The byte of a digit.
// Stays: the answer is capital digits in a lent buffer, byte by byte (`line_of`), and of the formats of std that for capital digits states no output.
fn letter_of(d: u32) -> u8
    requires { d < 16 }
    ensures { result ≡ letter d }
{
    if d < 10 {
        return (48 + d) as u8;
    }
    (55 + d) as u8
}

// One byte more, if the buffer reaches so far.
fn put(out: &mut [u8], at: usize, byte: u8) -> usize
    requires { at < 2 ^ 32 }
    ensures { Writes at (byte ∷ []) out.old result out.new }
{
    text::put(out, at, byte);
    at + 1
}

// The two digits of a byte.
fn put_digits(out: &mut [u8], at: usize, byte: u8) -> usize
    requires { at < 2 ^ 31 }
    ensures { Writes at (digits (byte ∷ [])) out.old result out.new }
{
    let next = put(out, at, letter_of(byte as u32 / 16));
    put(out, next, letter_of(byte as u32 % 16))
}

// The line of a frame.
fn put_line(out: &mut [u8], at: usize, frame: &[u8]) -> usize
    requires { (at < 2 ^ 30) × (length frame.now ≤ 9) }
    ensures { Writes at (line_of frame.now) out.old result out.new }
{
    let mut next = at;
    let mut sum: u32 = 0;
    for byte in frame {
        next = put_digits(out, next, *byte);
        sum += *byte as u32;
    }
    let last = (256 - sum % 256) % 256;
    let next = put_digits(out, next, last as u8);
    put(out, next, 10)
}

// One byte of a number, from this position on.
fn byte_of(x: u64, position: u32) -> u8
    requires { position < 64 }
    ensures { result ≡ x / 2 ^ position % 256 }
{
    ((x >> position) % 256) as u8
}

// One line for each state.
fn put_states(out: &mut [u8], at: usize, kind: u8, states: &[u64]) -> usize
    requires { (at ≤ 4096) × (length states.now ≤ 65538) }
    ensures { Writes at (state_lines kind states.now) out.old result out.new }
{
    let mut next = at;
    for s in states {
        let frame = [
            kind,
            byte_of(*s, 24),
            byte_of(*s, 16),
            byte_of(*s, 8),
            byte_of(*s, 0),
        ];
        next = put_line(out, next, &frame);
    }
    next
}

// Safe or unsafe, with the questions and the number of evidence states, and the states.
fn put_verdict(out: &mut [u8], kind: u8, questions: u32, evidence: &[u64]) -> usize
    requires { (kind < 255) × (length evidence.now ≤ 65538) }
    ensures { Writes 0 (verdict_lines kind questions evidence.now) out.old result out.new }
{
    let q = questions as u64;
    let count = evidence.len() as u64;
    let frame = [
        kind,
        byte_of(q, 24),
        byte_of(q, 16),
        byte_of(q, 8),
        byte_of(q, 0),
        byte_of(count, 24),
        byte_of(count, 16),
        byte_of(count, 8),
        byte_of(count, 0),
    ];
    let next = put_line(out, 0, &frame);
    put_states(out, next, kind + 1, evidence)
}

// Given up, with 5, 6 or 14.
fn put_gave_up(out: &mut [u8], number: u32, questions: u32) -> usize
    ensures { Writes 0 (gave_up_line number questions) out.old result out.new }
{
    let q = questions as u64;
    let frame = [
        0xA0,
        byte_of(number as u64, 0),
        byte_of(q, 24),
        byte_of(q, 16),
        byte_of(q, 8),
        byte_of(q, 0),
    ];
    put_line(out, 0, &frame)
}

// A refusal and its line.
// Stays: it takes every number, as before, and a `Refusal` would ask more of its callers.
pub fn put_refusal(out: &mut [u8], number: u32, line: usize) -> usize
    ensures { Writes 0 (refusal_line number line) out.old result out.new }
{
    let k = line as u64;
    let frame = [
        0xF0,
        byte_of(number as u64, 0),
        byte_of(k, 8),
        byte_of(k, 0),
    ];
    put_line(out, 0, &frame)
}

// The lines of a call's outcome; the evidence is the front of one of the stores.
fn put_outcome<'a>(
    out: &mut [u8],
    outcome: call::Outcome,
    states: &'a [u64],
    path: &'a [u64],
) -> usize
    requires { (length states.now ≤ 65536) × (length path.now ≤ 65538) }
    ensures { Writes 0 (outcome_lines outcome states.now path.now) out.old result out.new }
{
    match outcome {
        call::Outcome::Safe(_, questions) => put_verdict(
            out,
            0x80,
            questions,
            call::evidence(states, path, outcome),
        ),
        call::Outcome::Unsafe(_, questions) => put_verdict(
            out,
            0x90,
            questions,
            call::evidence(states, path, outcome),
        ),
        call::Outcome::GaveUp(number, questions) => put_gave_up(out, number, questions),
        call::Outcome::Refused(number) => put_refusal(out, number, 0),
    }
}

// Masks of a clause store that holds all clause lines of a file.
const MASKS: usize = 4 * base::MOST_CLAUSE_LINES as usize;

// The search with the room and the allowance of `scan`, and the lines of its outcome.
pub fn solve(system: System, out: &mut [u8]) -> usize
    ensures { Writes 0 (system_lines (system_in system.entry)) out.old result out.new }
{
    let mut states = [0u64; base::SCAN_ROOM];
    let mut levels = [0u32; base::SCAN_ROOM];
    let mut path = [0u64; base::SCAN_ROOM + 2];
    let outcome = search::search(
        system,
        &mut states,
        &mut levels,
        &mut path,
        base::SCAN_ALLOWANCE,
    );
    put_outcome(out, outcome, &states, &path)
}

// THE ANSWER to a text. It is written as far as the buffer reaches, and its whole length is returned.
pub fn answer(text: &[u8], out: &mut [u8]) -> usize
    ensures { Answers text.now out.old result out.new }
{
    let mut start = [0u64; MASKS];
    let mut step = [0u64; MASKS];
    let mut bad = [0u64; MASKS];
    let House {
        n,
        start: i,
        step: t,
        bad: b,
    } = match house::read(text, &mut start, &mut step, &mut bad) {
        Ok(house) => house,
        Err(fault) => {
            return put_refusal(out, fault.refusal.into(), fault.line);
        }
    };
    let system = System {
        n,
        w: 0,
        start: &start[..i],
        step: &step[..t],
        bad: &bad[..b],
    };
    solve(system, out)
}
