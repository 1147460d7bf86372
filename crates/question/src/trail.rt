// The trail: the forced bits in the order in which they were settled, each with the reason for which its other value fails.
ghost use Rattle.std.specs.Prelude.{◌≡◌};
ghost use Rattle.masks.specs.Word.{width, word_of};
ghost use Rattle.question.specs.Reason.{resolved, resolved_along};

use masks::Mask;

// A forced bit and its reason.
#[derive(Clone, Copy)]
pub(crate) struct Entry {
    pub reason: Mask,
    pub bit: Mask,
}

// Resolution on one bit: `a` is the reason of one of its values, `b` of the other. If `a` does without the bit it is the reason already.
fn resolve(a: Mask, b: Mask, bit: Mask) -> Mask
    ensures { word_of result ≡ resolved width (word_of a) (word_of b) (word_of bit) }
{
    if masks::is_empty(masks::and(a, bit)) {
        return a;
    }
    masks::without(masks::or(a, b), bit)
}

// A reason without the bits of these entries, given up from the last back.
pub(crate) fn resolve_along(entries: &[Entry], reason: Mask) -> Mask
    ensures { word_of result ≡ resolved_along width entries.now (word_of reason) }
{
    let mut r = reason;
    for entry in entries.iter().rev() {
        r = resolve(r, entry.reason, entry.bit);
    }
    r
}
