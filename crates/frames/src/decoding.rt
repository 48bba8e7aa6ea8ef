// A line of digits as the bytes of a frame.
ghost use Rattle.std.specs.Prelude.{◌≡◌};
ghost use Rattle.frames.specs.Held.{held};
ghost use Rattle.frames.specs.Lines.{frame_length, framed, mapped};

use crate::buffer::Frame;
use crate::hex::byte_of;
use crate::refusals::Refusal;
use bounded::Bounded;

// How many characters a frame's line has, at least and at most.
const SHORTEST: usize = 6;

const LONGEST: usize = 14;

// Has a frame's line so many characters?
fn is_frame_length(n: usize) -> bool
    ensures { result ≡ frame_length n }
{
    (SHORTEST..=LONGEST).contains(&n) && n % 2 == 0
}

// The bytes of a line, by questions 1 and 2.
pub fn decode(line: &[u8]) -> Result<Frame, Refusal>
    ensures { mapped held result ≡ framed line.now }
{
    if !is_frame_length(line.len()) {
        return Err(Refusal::Digits);
    }
    let mut bytes = Bounded::new(0);
    for pair in line.chunks_exact(2) {
        let b = byte_of(pair[0], pair[1]).ok_or(Refusal::Digits)?;
        bytes.push(b);
    }
    let frame = Frame { bytes };
    if frame.is_closed() {
        Ok(frame)
    } else {
        Err(Refusal::Sum)
    }
}
