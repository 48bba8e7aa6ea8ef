// Looping runs.
ghost use Rattle.std.specs.Prelude.{◌≡◌, ◌+◌, ◌≤◌, length};
ghost use Rattle.evaluate.specs.Letters.{holds};

use crate::lasso::Lasso;

// A letter for each instant.
#[derive(Debug, Clone, Copy)]
pub struct Run<'a> {
    pub lasso: Lasso,
    pub letters: &'a [u32],
    pub ghost whole: { length letters.now ≡ lasso.bound + 1 },
}

// Whether signal a is in the letter.
pub fn holds(letter: u32, a: u8) -> bool
    requires { a ≤ 31 }
    ensures { result ≡ holds letter a }
{
    letter >> a & 1 == 1
}
