// The record of a line, for any one kind.
ghost use Rattle.std.specs.Prelude.{◌≡◌, IfOk};
ghost use Rattle.cnf.specs.Questions.{first_no};
ghost use Rattle.frames.specs.Held.{held};
ghost use Rattle.frames.specs.Lines.{kind_asks, reading};
ghost use Rattle.frames.specs.Written.{written};

use crate::buffer::Frame;
use crate::decoding::decode;
use crate::kinds::Kind;
use crate::refusals::Refusal;

// The record of a frame of the kind K, by questions 3 and 4.
pub(crate) fn record_of<K: Kind>(frame: &Frame) -> Result<K::Record, Refusal>
    ensures { result ≡ first_no (kind_asks K.Kind.layout (held frame.now)) (K.Kind.layout.fields (held frame.now)) }
{
    if frame.kind() != K::CODE {
        return Err(Refusal::Kind);
    }
    K::take_apart(frame.as_slice()).ok_or(Refusal::Length)
}

// The record of a line that has a frame of the kind K. Written, it is the same line.
pub fn read<K: Kind>(line: &[u8]) -> Result<K::Record, Refusal>
    ensures value { result ≡ reading K.Kind.layout line.now }
    ensures back { IfOk result (λ x. written K.Kind.layout x ≡ line.now) }
{
    let frame = decode(line)?;
    record_of::<K>(&frame)
}
