// A list of clauses tested literal by literal and clause by clause, and the lists of a small system written out as a table. It shares no code with the
// crates that it is compared with. Each function takes every argument.
#![tactic(auto)]

ghost use Rattle.std.specs.Prelude.{◌≡◌, []};
ghost use Rattle.tables.specs.declared.List.TheVariants.{Start, Step, Bad};

// A clause: bits of the pair wanted 1, bits wanted 0, wires wanted 1, wires wanted 0.
#[derive(Clone, Copy, Debug)]
pub struct Clause {
    pub ones: u64,
    pub zeros: u64,
    pub on: u64,
    pub off: u64,
}

// A system: the bits of a state, the wires, and the three lists.
#[derive(Clone, Copy, Debug)]
pub struct System<'a> {
    pub n: u32,
    pub w: u32,
    pub start: &'a [u64],
    pub step: &'a [u64],
    pub bad: &'a [u64],
}

// One of the three lists.
#[derive(Clone, Copy, Debug, PartialEq, Eq)]
pub enum List {
    Start,
    Step,
    Bad,
}

// A system written out. The entries are rows of 2^n: row t says which states step to t by some setting of the wires, row 2^n which are start states, all
// wires 0, the row after it which are bad by some setting.
#[derive(Clone, Copy, Debug)]
pub struct Table<'a> {
    pub n: u32,
    pub entries: &'a [bool],
}

// Whether a bit wanted 1 is 1 or one wanted 0 is 0, literal by literal from bit 0 up.
fn masks_hold(ones: u64, zeros: u64, word: u64) -> bool {
    let mut left = ones | zeros;
    while 0 < left {
        let rest = left & (left - 1);
        let bit = left ^ rest;
        let wanted = if word & bit == 0 { zeros } else { ones };
        if wanted & bit != 0 {
            return true;
        }
        left = rest;
    }
    false
}

// Whether the clause is true of the pair and the wires.
pub fn clause_holds(c: Clause, pair: u64, wires: u64) -> bool {
    masks_hold(c.ones, c.zeros, pair) || masks_hold(c.on, c.off, wires)
}

// Whether every clause is true of the pair and the wires. Fewer than four masks at the end are no clause.
pub fn list_holds(list: &[u64], pair: u64, wires: u64) -> bool {
    let mut clauses = list;
    while let [ones, zeros, on, off, others @ ..] = clauses {
        let c = Clause {
            ones: *ones,
            zeros: *zeros,
            on: *on,
            off: *off,
        };
        if !clause_holds(c, pair, wires) {
            return false;
        }
        clauses = others;
    }
    true
}

// Whether some setting of the wires makes the list true of the pair: all settings are tried, of 6 wires at most.
pub fn some_holds(w: u32, list: &[u64], pair: u64) -> bool {
    (0..1 << (w % 7)).any(|wires| list_holds(list, pair, wires))
}

// The number of states.
pub fn size(n: u32) -> usize {
    1 << (n % 16)
}

// The low n bits.
pub fn low(n: u32, bits: u64) -> u64 {
    bits ^ ((bits >> (n % 16)) << (n % 16))
}

impl<'a> System<'a> {
    // A system with one list alone: the others are empty.
    pub fn of_one(n: u32, w: u32, which: List, list: &'a [u64]) -> System<'a>
        ensures sizes { (result.n ≡ n) × (result.w ≡ w) }
        ensures start { which ≡ Start → (result.start.now ≡ list.now) × (result.step.now ≡ []) × (result.bad.now ≡ []) }
        ensures step { which ≡ Step → (result.start.now ≡ []) × (result.step.now ≡ list.now) × (result.bad.now ≡ []) }
        ensures bad { which ≡ Bad → (result.start.now ≡ []) × (result.step.now ≡ []) × (result.bad.now ≡ list.now) }
    {
        let none = System {
            n,
            w,
            start: &[],
            step: &[],
            bad: &[],
        };
        match which {
            List::Start => System {
                start: list,
                ..none
            },
            List::Step => System { step: list, ..none },
            List::Bad => System { bad: list, ..none },
        }
    }

    // Entry j of the table.
    fn entry(self, j: usize) -> bool {
        let row = j as u64 >> (self.n % 16);
        let end = size(self.n) as u64;
        let state = low(self.n, j as u64);
        if row < end {
            some_holds(self.w, self.step, state | row << 32)
        } else if row == end {
            list_holds(self.start, state, 0)
        } else {
            some_holds(self.w, self.bad, state)
        }
    }

    // The three lists written out, in 4^n + 2 * 2^n entries, as far as there is room. What is behind them stays.
    pub fn table<'b>(self, out: &'b mut [bool]) -> Table<'b> {
        let end = (1usize << (self.n % 16 * 2)).wrapping_add(2 << (self.n % 16));
        for (j, x) in out.iter_mut().take(end).enumerate() {
            *x = self.entry(j);
        }
        Table {
            n: self.n,
            entries: out,
        }
    }
}

impl<'a> Table<'a> {
    // What row `row` says of state s.
    pub fn at(self, s: usize, row: usize) -> bool {
        let j = s | row << (self.n % 16);
        if j < self.entries.len() {
            self.entries[j]
        } else {
            false
        }
    }

    pub fn is_start(self, s: usize) -> bool {
        (s < size(self.n)) & self.at(s, size(self.n))
    }

    // The row of the bad states is odd, as 2^n is even.
    pub fn is_bad(self, s: usize) -> bool {
        (s < size(self.n)) & self.at(s, size(self.n) | 1)
    }

    pub fn is_step(self, s: usize, t: usize) -> bool {
        (s < size(self.n)) & (t < size(self.n)) & self.at(s, t)
    }
}
