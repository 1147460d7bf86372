// Lent stores are cleared: all of one, of states or of levels, or what stands behind its front.
#![tactic(auto)]

ghost use Rattle.std.specs.Prelude.{◌≡◌, ◌++◌, ◌-◌, length, replicate, take};

// What stands in a store, and is zero where nothing does: states and levels.
pub trait Zero: Copy {
    ghost ZERO: { Self };

    const ZERO: Self;
}

impl Zero for u64 {
    ghost ZERO = { 0 };

    const ZERO: u64 = 0;
}

impl Zero for u32 {
    ghost ZERO = { 0 };

    const ZERO: u32 = 0;
}

// Everything becomes zero.
pub fn clear<T: Zero>(store: &mut [T])
    ensures { store.new ≡ replicate (length store.old) T.ZERO }
{
    let zero = T::ZERO;
    for x in store.iter_mut() {
        *x = zero;
    }
}

// Everything behind the first `front` numbers becomes zero.
pub fn clear_behind(store: &mut [u64], front: usize)
    ensures { store.new ≡ take front store.old ++ replicate (length store.old - front) 0 }
{
    if front < store.len() {
        clear(&mut store[front..]);
    }
}
