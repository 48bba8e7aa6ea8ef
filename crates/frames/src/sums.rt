// Sums of bytes, in eight bits.
ghost use Rattle.std.specs.Prelude.{◌≡◌, ◌%◌, sum};
ghost use Rattle.frames.specs.Written.{check};

pub fn sum_of(bytes: &[u8]) -> u8
    ensures { result ≡ sum bytes.now % 256 }
{
    let mut sum: u8 = 0;
    for b in bytes {
        sum = sum.wrapping_add(*b);
    }
    sum
}

// The byte that makes the sum 0.
pub fn check_of(bytes: &[u8]) -> u8
    ensures { result ≡ check bytes.now }
{
    sum_of(bytes).wrapping_neg()
}
