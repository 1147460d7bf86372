// Small random systems, of 1 to 10 bits and a few wires, and a walk over all their states, on the tables of `tables`. It shares no code with the crates
// that it is compared with. Each function takes every argument.
#![tactic(auto)]

ghost use Rattle.std.specs.Prelude.{◌≡◌, ◌%◌, min};
ghost use Rattle.small_systems.specs.Kind.{number_of};
ghost use Rattle.small_systems.specs.Random.{next_of};

use tables::{Clause, Table};

// Kinds of lists. Nothing is one clause of two zero masks, Everything the empty list. Clauses has as many short clauses as the density says. The
// others give what is true explicitly, with a clause for each state or pair left out: Part of them, by the density; in a Chain steps to the next state
// alone; in Loops these and from each state to itself; Down steps to no higher state; Barred is nothing. Counter has steps to the next state alone too, in a few clauses;
// with an odd density the highest state has no next one, else 0 comes after it. Short clauses may use wires. Gates is a circuit: a wire is free or the
// AND of two literals, and one step later each bit is as a literal; of states alone, that a literal is true.
#[derive(Clone, Copy, Debug, PartialEq, Eq)]
pub enum Kind {
    Nothing,
    Everything,
    Part,
    Clauses,
    Chain,
    Loops,
    Down,
    Counter,
    Gates,
    Barred,
}

// The kinds by their numbers; every number behind those of the others is Barred.
impl From<u64> for Kind {
    ghost from_gives = { λ n kind. number_of kind ≡ min n 9 };

    fn from(n: u64) -> Kind {
        match n {
            0 => Kind::Nothing,
            1 => Kind::Everything,
            2 => Kind::Part,
            3 => Kind::Clauses,
            4 => Kind::Chain,
            5 => Kind::Loops,
            6 => Kind::Down,
            7 => Kind::Counter,
            8 => Kind::Gates,
            _ => Kind::Barred,
        }
    }
}

// One of the first eight kinds, from three random bits.
pub fn kind_of(bits: u64) -> Kind
    ensures { number_of result ≡ bits % 8 }
{
    Kind::from(bits % 8)
}

// What a random list is like: its kind and how dense it is, the bits and the wires that it may use, and whether it is of steps, or of states alone.
#[derive(Clone, Copy, Debug)]
pub struct Plan {
    pub kind: Kind,
    pub density: u64,
    pub n: u32,
    pub w: u32,
    pub later: bool,
}

// A literal: a position of the pair, or a wire, and the value wanted there.
#[derive(Clone, Copy, Debug)]
struct Literal {
    pair: u64,
    wire: u64,
    one: bool,
}

impl Literal {
    // That wire k is 1.
    fn wire(k: u64) -> Literal {
        Literal {
            pair: 0,
            wire: 1 << (k % 64),
            one: true,
        }
    }

    // That bit k is 1 one step later.
    fn later(k: u64) -> Literal {
        Literal {
            pair: 1 << (k % 32 + 32),
            wire: 0,
            one: true,
        }
    }

    fn not(self) -> Literal {
        Literal {
            one: !self.one,
            ..self
        }
    }
}

// A clause over the pair alone.
fn over_pair(ones: u64, zeros: u64) -> Clause {
    Clause {
        ones,
        zeros,
        on: 0,
        off: 0,
    }
}

// The clause with a literal more.
fn with(c: Clause, l: Literal) -> Clause {
    if l.one {
        Clause {
            ones: c.ones | l.pair,
            on: c.on | l.wire,
            ..c
        }
    } else {
        Clause {
            zeros: c.zeros | l.pair,
            off: c.off | l.wire,
            ..c
        }
    }
}

// The clause that one of the literals is true.
fn any_of(literals: &[Literal]) -> Clause {
    literals.iter().fold(over_pair(0, 0), |c, l| with(c, *l))
}

// The next random number (xorshift).
#[tactic(auto, unfolding(crate::specs::Random::next_of))]
pub fn next(seed: u64) -> u64
    ensures { result ≡ next_of seed }
{
    let a = seed ^ (seed << 13);
    let b = a ^ (a >> 7);
    b ^ (b << 17)
}

// A digest of a list that begins with another.
pub fn digest(seed: u64, list: &[u64]) -> u64 {
    list.iter().fold(seed, |d, x| next(d ^ *x))
}

// The first `count` numbers, or all if there are fewer.
pub fn front(list: &[u64], count: usize) -> &[u64] {
    &list[..count.min(list.len())]
}

// Clause j of a counter, about bit i. If bit c, below it, is 0, then bit i stays; if all bits below it are 1, it changes. Behind them the clause that
// the state is not the highest.
fn counting(n: u32, j: u64) -> Option<Clause> {
    let i = j / 32 % 32;
    let c = j / 2 % 16;
    let bit = 1 << i;
    let two = bit | bit << 32;
    let below = tables::low(i as u32, u64::MAX);
    if i == (n % 16) as u64 {
        return Some(over_pair(0, below));
    }
    if c == i {
        return Some(if j % 2 == 0 {
            over_pair(two, below)
        } else {
            over_pair(0, below | two)
        });
    }
    let stays = 1 << c | bit << (j % 2 * 32);
    (c < i).then_some(over_pair(stays, (stays | two) ^ stays))
}

impl Plan {
    // Whether an explicit list is true of the state s with t one step later, or of s alone, where t is 0. With density d it is true of one half of d in
    // each row of 2^n on average.
    fn chosen(self, s: u64, t: u64, random: u64) -> bool {
        let lucky = tables::low(self.n % 16 + 1, random >> 20) < self.density;
        match self.kind {
            Kind::Everything => true,
            Kind::Part => lucky,
            Kind::Down => lucky & (t <= s),
            Kind::Chain => t.wrapping_sub(s) == 1,
            Kind::Loops => t.wrapping_sub(s) < 2,
            _ => false,
        }
    }

    // A literal from eight random bits: the value, the place among n bits and behind them w wires, and, if later bits are allowed, whether a bit is one.
    fn literal(self, bits: u64) -> Literal {
        let one = bits % 2 == 1;
        let wires = self.n as u64;
        let all = wires + self.w as u64;
        let place = if all == 0 { 0 } else { (bits >> 1) % 64 % all };
        if place < wires {
            let high = if self.later { (bits >> 2) & 32 } else { 0 };
            return Literal {
                pair: 1 << ((place | high) % 64),
                wire: 0,
                one,
            };
        }
        Literal {
            pair: 0,
            wire: 1 << ((place - wires) % 64),
            one,
        }
    }

    // A literal of bits now and the first w wires.
    fn now(self, w: u32, bits: u64) -> Literal {
        Plan {
            w,
            later: false,
            ..self
        }
        .literal(bits)
    }

    // A clause of three literals, or of two, where the first comes twice.
    fn short(self, random: u64) -> Clause {
        let third = random >> ((random >> 24) % 2 * 16);
        any_of(&[
            self.literal(random),
            self.literal(random >> 8),
            self.literal(third),
        ])
    }

    // One of the three clauses that wire k is the AND of two literals of bits and lower wires; none, if it is free.
    fn gate(self, k: u32, clause: u64, random: u64) -> Option<Clause> {
        let a = self.now(k, random >> 32);
        let b = self.now(k, random >> 40);
        let x = Literal::wire(k as u64);
        let c = match clause {
            0 => any_of(&[x.not(), a]),
            1 => any_of(&[x.not(), b]),
            _ => any_of(&[x, a.not(), b.not()]),
        };
        ((random >> 48) % 4 != 0).then_some(c)
    }

    // One of the two clauses that bit k is one step later as a literal.
    fn latch(self, k: u64, clause: u64, random: u64) -> Option<Clause> {
        let a = self.now(self.w, random >> 32);
        let t = Literal::later(k);
        match clause {
            0 => Some(any_of(&[t.not(), a])),
            1 => Some(any_of(&[t, a.not()])),
            _ => None,
        }
    }

    // Clause j of a circuit: three for each wire, and three behind them for each bit; of states alone, one behind the wires.
    fn circuit(self, j: u64, random: u64) -> Option<Clause> {
        let wires = self.w as u64;
        let k = j / 3;
        if k < wires {
            return self.gate(k as u32, j % 3, random);
        }
        if self.later {
            return self.latch(k - wires, j % 3, random);
        }
        (j == wires * 3).then_some(any_of(&[self.now(self.w, random >> 32)]))
    }

    // Clause j of an explicit list: that which is false of pair j, or state j, alone.
    fn explicit(self, j: u64, random: u64) -> Option<Clause> {
        let s = tables::low(self.n, j);
        let t = j >> (self.n % 16);
        let half = tables::low(self.n, u64::MAX);
        let all = if self.later { half | half << 32 } else { half };
        let pair = s | t << 32;
        (!self.chosen(s, t, random)).then_some(over_pair(all ^ pair, pair))
    }

    // Clause j of the list.
    fn clause(self, j: u64, random: u64) -> Option<Clause> {
        match self.kind {
            Kind::Nothing => (j == 0).then_some(over_pair(0, 0)),
            Kind::Clauses => Some(self.short(random)),
            Kind::Counter => counting(self.n, j),
            Kind::Gates => self.circuit(j, random),
            _ => self.explicit(j, random),
        }
    }

    // How many clauses the list can have.
    fn most(self) -> u64 {
        let bits = if self.later {
            self.n % 16 * 2
        } else {
            self.n % 16
        };
        match self.kind {
            Kind::Clauses => self.density % (1 << 32),
            Kind::Counter => (self.n % 16 * 32) as u64 + self.density % 2,
            Kind::Gates => (self.w % 64 + self.n % 16) as u64 * 3,
            _ => 1 << (bits % 32),
        }
    }

    // A random list, as far as there is room for it in the store. The three clauses about a wire or a bit come from one random number.
    pub fn fill(self, seed: u64, store: &mut [u64]) -> &[u64] {
        let mut random = seed;
        let mut count = 0;
        for j in 0..self.most() {
            if (self.kind != Kind::Gates) | (j % 3 == 0) {
                random = next(random);
            }
            if let Some(c) = self.clause(j, random) {
                count = put(store, count, c);
            }
        }
        front(store, count)
    }
}

// A clause written behind the first `count` masks, if it has room there; the count of masks after it.
fn put(store: &mut [u64], count: usize, c: Clause) -> usize {
    if store.len() < 4 || store.len() - 4 < count {
        return count;
    }
    store[count..count + 4].copy_from_slice(&[c.ones, c.zeros, c.on, c.off]);
    count + 4
}

// A step from a state at distance d to one that had none. Whether it was so.
fn reach(dist: &mut [Option<u32>], from: usize, to: usize, d: u32) -> bool {
    let reached = from < dist.len()
        && to < dist.len()
        && dist[from] == Some(d)
        && dist[to].is_none();
    if reached {
        dist[to] = Some(d.wrapping_add(1));
    }
    reached
}

// All steps from states at distance d, taken in their direction or back. Whether some state was reached.
fn spread(table: Table, back: bool, dist: &mut [Option<u32>], d: u32) -> bool {
    let mut some = false;
    for t in 0..tables::size(table.n) {
        for s in 0..tables::size(table.n) {
            let (from, to) = if back { (t, s) } else { (s, t) };
            some |= table.at(s, t) && reach(dist, from, to, d);
        }
    }
    some
}

// For each state the least number of steps from a start state to it; or, going back, from it to a bad one. None, if there is no way.
pub fn distances(table: Table, back: bool, dist: &mut [Option<u32>]) {
    for (s, d) in dist.iter_mut().enumerate() {
        let first = if back {
            table.is_bad(s)
        } else {
            table.is_start(s)
        };
        *d = first.then_some(0);
    }
    let mut d = 0;
    // Stays: the edit `spreads_from_one_distance_for_ever` needs a loop that can stay at one distance, and a `for` cannot.
    while d < 65536 {
        if !spread(table, back, dist, d) {
            return;
        }
        d += 1;
    }
}

// Whether each number is below 2^n.
pub fn are_states(n: u32, list: &[u64]) -> bool {
    let end = tables::size(n) as u64;
    list.iter().all(|x| *x < end)
}

// Whether the state is stored with a level of i or more, or with no level beside it.
pub fn is_stored(states: &[u64], levels: &[u32], i: u32, state: u64) -> bool {
    states.iter().enumerate().rev().any(|(j, x)| *x == state
        && levels.get(j).is_none_or(|level| i <= *level))
}

// Which states are listed.
fn mark(list: &[u64]) -> [bool; 1024] {
    let mut inside = [false; 1024];
    for x in list {
        let x = *x;
        if x < 1024 {
            inside[x as usize] = true;
        }
    }
    inside
}

// Whether s is listed and a start state, or not listed and bad, or steps into the list from outside, at t.
fn breaks(table: Table, inside: &[bool; 1024], s: usize, t: usize) -> bool {
    if inside[s % 1024] {
        return table.is_start(s);
    }
    table.is_bad(s) | inside[t % 1024] & table.at(s, t)
}

// Whether no start state is listed, every bad state is listed, and no state outside the list steps into it.
pub fn excludes(table: Table, list: &[u64]) -> bool {
    let inside = mark(list);
    let n = table.n;
    let pairs = 1 << (n % 16 * 2);
    !(0..pairs).any(|j| {
        breaks(
            table,
            &inside,
            tables::low(n, j) as usize,
            (j >> (n % 16)) as usize,
        )
    })
}

// Whether the path begins with a start state, each state steps to the next, and the last is bad.
pub fn is_path(table: Table, path: &[u64]) -> bool {
    let (Some(first), Some(last)) = (path.first(), path.last()) else {
        return false;
    };
    table.is_start(*first as usize)
        && path
            .iter()
            .zip(&path[1..])
            .all(|(s, t)| table.is_step(*s as usize, *t as usize))
        && table.is_bad(*last as usize)
}
