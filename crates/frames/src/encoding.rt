// The line of a frame.
ghost use Rattle.std.specs.Prelude.{◌≡◌};
ghost use Rattle.frames.specs.Held.{held, shown};
ghost use Rattle.frames.specs.Written.{spelled};

use crate::buffer::Frame;
use crate::hex::digit_of;
use crate::rows::Line;
use bounded::Bounded;

// The digits of the bytes.
pub fn encode(frame: &Frame) -> Line
    ensures { shown result ≡ spelled (held frame.now) }
{
    let mut characters = Bounded::new(0);
    for b in frame.as_slice() {
        characters.push(digit_of(*b / 16));
        characters.push(digit_of(*b % 16));
    }
    Line { characters }
}
