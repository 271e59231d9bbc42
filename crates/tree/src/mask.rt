// Masks: the basic lanes of a node as the bits of a u64. Bit k of row i's mask stands for column k, and the other way round.
ghost use Rattle.std.specs.Prelude.{◌≡◌, ℕ, ◌-◌, ◌<◌, eqb};
ghost use Rattle.std.specs.Int.Bits.{bit_and};
ghost use Rattle.std.specs.Int.Count.{ones};
ghost use Rattle.tree.specs.Mask.{bit, has, put, unset};
ghost use Rattle.tree.specs.MaskLaws.{first_bits_of, minus};

pub fn has_bit(mask: u64, k: usize) -> bool
    requires { k < 64 }
    ensures { result ≡ has mask k }
{
    (mask >> k) % 2 == 1
}

pub fn set_bit(mask: u64, k: usize) -> u64
    requires { k < 64 }
    ensures { result ≡ put mask k }
{
    mask | (1 << k)
}

pub fn clear_bit(mask: u64, k: usize) -> u64
    requires { k < 64 }
    ensures { result ≡ unset mask k }
{
    let b = 1 << k;
    (mask | b) ^ b
}

// Exactly one bit is in: the node is a leaf.
pub(crate) fn is_single(mask: u64) -> bool
    ensures { result ≡ eqb (ones mask) 1 }
{
    u64::count_ones(mask) == 1
}

// The least bit of a mask that is not empty.
pub fn first_bit(mask: u64) -> usize
    requires { 0 < mask }
    ensures { (result < 64) × (bit mask result ≡ 1) × ((k : ℕ) → k < result → bit mask k ≡ 0) }
{
    u64::trailing_zeros(mask) as usize
}

// A mask without its least bit.
pub fn rest(mask: u64) -> u64
    requires { 0 < mask }
    ensures { result ≡ bit_and mask (mask - 1) }
{
    mask & (mask - 1)
}

// The first n bits.
pub fn first_bits(n: usize) -> u64
    requires { n < 64 }
    ensures { result ≡ first_bits_of n }
{
    (1 << n) - 1
}

// The bits of a that are not in b.
pub fn without(a: u64, b: u64) -> u64
    ensures { result ≡ minus a b }
{
    (a | b) ^ b
}
