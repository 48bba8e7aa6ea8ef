// The bounds of runs.
ghost use Rattle.std.specs.Prelude.{◌≡◌, nat_le};

pub const HIGHEST_BOUND: u8 = 31;

pub fn is_bound(k: u8) -> bool
    ensures { result ≡ nat_le k 31 }
{
    k <= HIGHEST_BOUND
}
