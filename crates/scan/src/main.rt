// The program `scan`: a house file on standard input, the answer on standard output.
#![tactic(auto)]

// What stands behind so many bytes of a text does not matter, and no answer is longer: `cut` and `short` in the promise of `answer`.
const INPUT: usize = 37999;

const OUTPUT: usize = 13359;

fn main() {
    let mut input = [0u8; INPUT];
    let mut output = [0u8; OUTPUT];
    let got = io::read_full(0, &mut input);
    let length = answer::answer(&input[..got], &mut output);
    io::write_all(1, &output[..length]);
}
