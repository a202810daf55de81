//! The weights of a grid's edges. They come from a row of numbers, each of which is made of the one before it.
ghost use Rattle.std.specs.Prelude.{◌≡◌};
ghost use Rattle.grid_work.specs.Weights as weights;

/// The number after this one: the linear congruence that the C standard gives as its example of `rand`.
pub fn next_number(number: u32) -> u32
    ensures { result ≡ weights.next_number number }
{
    let next = (u64::from(number) * 1_103_515_245 + 12_345) % (1 << 31);
    next as u32
}

/// The weight that a number gives, from 1 to 8.
pub fn weight_of(number: u32) -> u64
    ensures { result ≡ weights.weight_of number }
{
    u64::from(1 + number / 65_536 % 8)
}
