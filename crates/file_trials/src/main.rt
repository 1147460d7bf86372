// House files and circuits, well-formed and damaged, and what is answered, written one after the other. The texts come on standard input, in pieces:
// two bytes for how often a piece is repeated and two for its length, the high byte first, then the piece. A piece that is repeated no times ends a
// text, and its length says what the text is given to: 0 `answer::answer`, 1 `circuit_answer::answer`, 2 `aiger::import`, 3 `aiger::import_newer`;
// behind a 2 or a 3 the lengths of three clause stores follow, two bytes each. The files `stdin` and `stdout` are from `expected.py`, which reads and
// answers the texts from the scope alone.
#![tactic(auto)]

ghost use Rattle.std.specs.Prelude.{◌^◌, ◌≤◌, ◌<◌};
ghost use Rattle.file_trials.specs.declared.TheConstants.{TEXT};

use aiger::Imported;
use base::Fault;
use counts::write_number;

// How many pieces may come. There are fewer.
const PIECES: u32 = 100000;

// The longest text, and the longest piece.
const TEXT: usize = 100000;

const PIECE: usize = 65536;

const ANSWER: usize = 13359;

// Numbers of a whole store, of which the front is lent, and of a large one, for fronts that are longer: over 4,096 clauses.
const STORE: usize = 1100;

const LARGE: usize = 17000;

// What stands in a store before, its index added: nowhere 0.
const FILL: u64 = 0xA5C3_0000_0000_0000;

// Two primes.
const P: u64 = 2147483629;

const Q: u64 = 2147483587;

// A text in the making: the front of the bytes.
#[derive(Drop)]
struct Text {
    bytes: [u8; TEXT],
    end: usize,
    ghost within: { end ≤ TEXT },
}

impl Text {
    fn new() -> Text {
        Text {
            bytes: [0; TEXT],
            end: 0,
        }
    }

    // The piece behind what the text has, as far as there is room.
    fn append(&mut self, piece: &[u8]) {
        let end = self.end;
        let more = piece.len().min(TEXT - end);
        self.bytes[end..end + more].copy_from_slice(&piece[..more]);
        self.end = end + more;
    }

    // The next piece, read and repeated.
    fn take_piece(&mut self, length: u16, times: u16) {
        let mut piece = [0u8; PIECE];
        let got = io::read_full(0, &mut piece[..usize::from(length)]);
        for _ in 0..times {
            self.append(&piece[..got]);
        }
    }

    fn clear(&mut self) {
        self.end = 0;
    }

    fn whole(&self) -> &[u8] {
        &self.bytes[..self.end]
    }
}

// The two bytes of a number, the high one first.
fn number(high: u8, low: u8) -> u16 {
    u16::from_be_bytes([high, low])
}

// A sum over a store to a prime modulus. Two of them tell its content.
fn sum<const PRIME: u64>(store: &[u64]) -> u64
    requires { (0 < PRIME) × (PRIME < 2 ^ 32) }
{
    let mut sum = 0;
    for x in store {
        sum = (sum % PRIME * 65599 + x % PRIME) % PRIME;
    }
    sum
}

fn write_sums(store: &[u64]) {
    write_number(b" ", sum::<P>(store));
    write_number(b" ", sum::<Q>(store));
}

// The number of the refusal and its line, 0 if there is none; and what was imported, 0 after a refusal.
fn write_imported(r: Result<Imported, Fault>) {
    let (refusal, others): (u64, [u64; 6]) = match r {
        Ok(i) => (
            0,
            [
                0,
                u64::from(i.n),
                u64::from(i.w),
                i.start as u64,
                i.step as u64,
                i.bad as u64,
            ],
        ),
        Err(fault) => (
            u64::from(u32::from(fault.refusal)),
            [fault.line as u64, 0, 0, 0, 0, 0],
        ),
    };
    write_number(b"", refusal);
    for x in others {
        write_number(b" ", x);
    }
}

// By which reader a circuit is imported.
#[derive(Clone, Copy)]
enum Edition {
    First,
    Newer,
}

// How much of each store is lent.
#[derive(Clone, Copy)]
struct Lent {
    start: u16,
    step: u16,
    bad: u16,
}

// So much of the store's front, or all of it.
fn front(store: &mut [u64], count: u16) -> &mut [u64] {
    let end = usize::from(count).min(store.len());
    &mut store[..end]
}

// What stands in a whole store before.
fn fill(store: &mut [u64]) {
    for (j, x) in store.iter_mut().enumerate() {
        *x = FILL | j as u64;
    }
}

impl Edition {
    fn of(to: u16) -> Edition {
        if to == 3 {
            Edition::Newer
        } else {
            Edition::First
        }
    }

    fn import(
        self,
        text: &[u8],
        start: &mut [u64],
        step: &mut [u64],
        bad: &mut [u64],
    ) -> Result<Imported, Fault> {
        match self {
            Edition::First => aiger::import(text, start, step, bad),
            Edition::Newer => aiger::import_newer(text, start, step, bad),
        }
    }

    // One line of what is answered, and of the whole stores then.
    fn write_import<const N: usize>(self, text: &[u8], lent: Lent)
        requires { N ≤ LARGE }
    {
        let mut start = [0; N];
        let mut step = [0; N];
        let mut bad = [0; N];
        fill(&mut start);
        fill(&mut step);
        fill(&mut bad);
        write_imported(self.import(
            text,
            front(&mut start, lent.start),
            front(&mut step, lent.step),
            front(&mut bad, lent.bad),
        ));
        write_sums(&start);
        write_sums(&step);
        write_sums(&bad);
        io::write_all(1, b"\n");
    }

    // The lengths are read.
    fn take_import(self, text: &[u8]) {
        let mut lengths = [0u8; 6];
        io::read_full(0, &mut lengths);
        let [a, b, c, d, e, f] = lengths;
        let lent = Lent {
            start: number(a, b),
            step: number(c, d),
            bad: number(e, f),
        };
        if usize::from(lent.start.max(lent.step).max(lent.bad)) <= STORE {
            self.write_import::<STORE>(text, lent);
        } else {
            self.write_import::<LARGE>(text, lent);
        }
    }
}

// What one of the programs answers, as far as there is room.
fn write_answer<F: FnOnce(&[u8], &mut [u8]) -> usize>(text: &[u8], answer: F)
    requires { F.IsAlwaysCallable answer }
{
    let mut output = [0u8; ANSWER];
    let length = answer(text, &mut output).min(ANSWER);
    io::write_all(1, &output[..length]);
}

fn give(text: &[u8], to: u16) {
    match to {
        0 => write_answer(text, answer::answer),
        1 => write_answer(text, circuit_answer::answer),
        _ => Edition::of(to).take_import(text),
    }
}

fn main() {
    let mut text = Text::new();
    for _ in 0..PIECES {
        let mut head = [0u8; 4];
        if io::read_full(0, &mut head) < 4 {
            return;
        }
        let [a, b, c, d] = head;
        let times = number(a, b);
        let length = number(c, d);
        if times == 0 {
            give(text.whole(), length);
            text.clear();
        } else {
            text.take_piece(length, times);
        }
    }
}
