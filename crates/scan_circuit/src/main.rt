// The program `scan_circuit`: a circuit on standard input, the answer on standard output.
#![tactic(auto)]

// So much of a text is read. If it is a circuit so far, that is the answer, whatever follows; if not, a longer text is refused with 20: `cut` in the
// promise of `circuit_answer`. Two bytes hold the number of every line in it, and of one that is missing behind them: `line` there.
const INPUT: usize = 65534;

// No answer is longer: `short` in the promise.
const OUTPUT: usize = 13359;

fn main() {
    let mut input = [0u8; INPUT];
    let mut output = [0u8; OUTPUT];
    let got = io::read_full(0, &mut input);
    let length = circuit_answer::answer(&input[..got], &mut output);
    io::write_all(1, &output[..length]);
}
