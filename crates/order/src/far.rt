// Which wires a question should try first. A wire is far if a fitting value can always be chosen for it in the end, whatever the other bits are: one that no
// clause uses, or a gate that nothing reads. Tried before the state's bits, far wires repeat one refutation after another; tried behind them, near ones do.
// Any mask is right: no answer depends on it, only time. So nothing is promised of what is found.
ghost use Rattle.std.specs.Prelude.{◌+◌, ◌*◌, ◌<◌, ◌≤◌, length};

// Clauses compared for one list: enough for any that a circuit brings, and some hundredths of a second for any other. Where they are used up, the wires that
// are left count as near.
const MOST_LOOKS: usize = 1_000_000;

// The far wires that were found, and the looks that are left.
#[derive(Clone, Copy)]
struct Far {
    wires: u64,
    left: usize,
}

// Stays: clauses are read by index here, as the must-fail edit `reads_one_past_the_list` needs it.
// Whether clause j uses no far wire and has the wire in its mask `at`: 2 for wanted 1, 3 for wanted 0.
fn wants(list: &[u64], j: usize, at: usize, far: u64, wire: u64) -> bool
    requires { (4 * j + 3 < length list.now) × (at ≤ 3) }
{
    list[4 * j + at] & wire != 0 && (list[4 * j + 2] | list[4 * j + 3]) & far == 0
}

// Whether clauses j and k want different values of a bit besides the wire, so that one of them is true.
fn clash(list: &[u64], j: usize, k: usize, wire: u64) -> bool
    requires { (4 * j + 3 < length list.now) × (4 * k + 3 < length list.now) }
{
    let bits = list[4 * j] & list[4 * k + 1] | list[4 * j + 1] & list[4 * k];
    let wires = list[4 * j + 2] & list[4 * k + 3] | list[4 * j + 3] & list[4 * k + 2];
    bits | wires & !wire != 0
}

// Whether clause j, which wants the wire 1, clashes with each that wants it 0.
fn clashes(list: &[u64], j: usize, far: u64, wire: u64) -> bool
    requires { 4 * j + 3 < length list.now }
{
    for k in 0..list.len() / 4 {
        if wants(list, k, 3, far, wire) && !clash(list, j, k, wire) {
            return false;
        }
    }
    true
}

// The far wires with this one, if it is far.
fn judge(list: &[u64], wire: u64, f: Far) -> Far {
    let count = list.len() / 4;
    let far = f.wires;
    let mut left = f.left;
    for j in 0..count {
        if left < count {
            return Far {
                wires: far,
                left: 0,
            };
        }
        if wants(list, j, 2, far, wire) {
            left -= count;
            if !clashes(list, j, far, wire) {
                return Far { wires: far, left };
            }
        }
    }
    Far {
        wires: far | wire,
        left,
    }
}

// The far wires with all others that are now found to be, from the highest down.
fn more(list: &[u64], w: u32, f: Far) -> Far {
    let mut found = f;
    let mut k = w;
    // Stays: a `for` ends by its form, and the must-fail edit `judges_the_wires_for_ever` is this loop without its step.
    while 0 < k {
        k -= 1;
        let wire = masks::power(k);
        if found.wires & wire == 0 {
            found = judge(list, wire, found);
        }
    }
    found
}

// The wires that matter to a list, of w wires: all but the far ones. A wire can become far when another has, so all are judged again until none does.
pub(crate) fn first(list: &[u64], w: u32) -> u64 {
    let mut far = Far {
        wires: 0,
        left: MOST_LOOKS,
    };
    let count = w.min(64);
    for _ in 0..count {
        let found = more(list, count, far);
        if found.wires == far.wires {
            return !far.wires;
        }
        far = found;
    }
    !far.wires
}
