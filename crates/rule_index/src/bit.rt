//! The bits of masks, one for each entry.
ghost use Rattle.std.specs.Prelude.{◌≡◌, ◌≤◌, ◌<◌, ◌^◌, ◌||◌, ◌==◌, ℕ, length, slice_set, slice_index_or, bit_or};
ghost use Rattle.rule_index.specs.Masks.{with_bit, without_bit};

/// The bit of a place in the order.
pub(crate) fn bit(place: usize) -> u128
    requires { place < 128 }
    ensures { result ≡ 2 ^ place }
{
    1 << place
}

/// Sets a bit in the mask of a key.
pub(crate) fn set_bit(masks: &mut [u128], key: usize, place: usize)
    requires key { key < length masks.old }
    requires place { place < 128 }
    ensures { masks.new
        ≡ slice_set masks.old key (bit_or (slice_index_or masks.old key 0) (2 ^ place)) }
{
    masks[key] |= bit(place);
}

/// A mask with one bit more at a place: the bits from there on move up by one.
fn with_bit(mask: u128, place: usize, set: bool) -> u128
    requires { place < 128 }
    ensures { result ≡ with_bit place set mask }
{
    let low = mask & (bit(place) - 1);
    let moved = mask.wrapping_add(mask - low);
    if set {
        moved.wrapping_add(bit(place))
    } else {
        moved
    }
}

/// A mask without the bit at a place: the bits behind it move down by one.
fn without_bit(mask: u128, place: usize) -> u128
    requires { place < 128 }
    ensures { result ≡ without_bit place mask }
{
    let below = bit(place) - 1;
    let half = mask / 2;
    (mask & below) + (half - (half & below))
}

/// Whether a bit is set: in all masks, or in that of a key alone.
fn is_set(all: bool, key: usize, mask: usize) -> bool
    ensures { result ≡ (all || key == mask) }
{
    all || key == mask
}

/// Gives the first masks one bit more at a place, which is set in all of them or in that of a key.
pub(crate) fn insert_bits(masks: &mut [u128], count: usize, place: usize, all: bool, key: usize)
    requires count { count ≤ length masks.old }
    requires place { place < 128 }
    ensures len { length masks.new ≡ length masks.old }
    ensures each { (k : ℕ) → k < count → slice_index_or masks.new k 0
        ≡ with_bit place (all || key == k) (slice_index_or masks.old k 0) }
{
    for k in 0..count {
        masks[k] = with_bit(masks[k], place, is_set(all, key, k));
    }
}

/// Takes the bit at a place out of the first masks.
pub(crate) fn remove_bits(masks: &mut [u128], count: usize, place: usize)
    requires count { count ≤ length masks.old }
    requires place { place < 128 }
    ensures len { length masks.new ≡ length masks.old }
    ensures each { (k : ℕ) → k < count
        → slice_index_or masks.new k 0 ≡ without_bit place (slice_index_or masks.old k 0) }
{
    for k in 0..count {
        masks[k] = without_bit(masks[k], place);
    }
}
