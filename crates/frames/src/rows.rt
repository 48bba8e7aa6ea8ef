// The characters of a line that is written: at most fourteen.
use bounded::Bounded;

#[derive(Clone, Copy)]
pub struct Line {
    pub(crate) characters: Bounded<u8, 14>,
}

impl Line {
    ghost use Rattle.std.specs.Prelude.{◌≡◌};
    ghost use Rattle.frames.specs.Held.{shown};

    pub fn as_slice(&self) -> &[u8]
        ensures { result.now ≡ shown self.now }
    {
        self.characters.as_slice()
    }
}
