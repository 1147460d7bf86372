// Text in, text out for circuits: the whole of `scan_circuit` as one function on two lent buffers.
#![tactic(auto)]

ghost use Rattle.circuit_answer.specs.Promise.{Answers};

use aiger::Imported;
use system::System;

// Masks of clause stores that hold the lists of every circuit whose system is well-formed: 32 latches, and 4,096 clauses.
const START: usize = 4 * 32;

const STEP: usize = 4 * 4096;

const BAD: usize = 4 * 4096;

// THE ANSWER to a text. It is written as far as the buffer reaches, and its whole length is returned.
pub fn answer(text: &[u8], out: &mut [u8]) -> usize
    ensures { Answers text.now out.old result out.new }
{
    let mut start = [0u64; START];
    let mut step = [0u64; STEP];
    let mut bad = [0u64; BAD];
    let Imported {
        n,
        w,
        start: i,
        step: t,
        bad: b,
    } = match aiger::import_newer(text, &mut start, &mut step, &mut bad) {
        Ok(circuit) => circuit,
        Err(fault) => {
            return answer::put_refusal(out, fault.refusal.into(), fault.line);
        }
    };
    let system = System {
        n,
        w,
        start: &start[..i],
        step: &step[..t],
        bad: &bad[..b],
    };
    answer::solve(system, out)
}
