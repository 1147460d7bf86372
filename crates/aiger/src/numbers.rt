// A line of decimal numbers, read into a lent store.
ghost use Rattle.aiger.specs.Inner.{Numbered};

// Every number is below this.
const LIMIT: u64 = 1 << 32;

// The numbers of a line, one after the other, and how many there are; nothing if the line is something else or has more numbers than the store has
// places. A number that reaches the limit is wrong whatever follows, so it stays small.
pub(super) fn numbers(line: &[u8], into: &mut [u64]) -> Option<usize>
    ensures { Numbered line.now into.old result into.new }
{
    let mut count = 0;
    let mut begun = None;
    for (j, c) in line.iter().enumerate() {
        if c.is_ascii_digit() {
            let value = 10 * begun.unwrap_or(0) + (*c as u64 - 48);
            if LIMIT <= value {
                return None;
            }
            begun = Some(value);
        } else {
            let value = begun?;
            if count == into.len() {
                return None;
            }
            into[count] = value;
            count += 1;
            if *c == b'\n' && j + 1 == line.len() {
                return Some(count);
            }
            if *c != b' ' {
                return None;
            }
            begun = None;
        }
    }
    None
}
