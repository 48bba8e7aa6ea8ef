// The line of a record, for any one kind.
ghost use Rattle.std.specs.Prelude.{◌≡◌, ◌∷◌, Ok};
ghost use Rattle.frames.specs.Held.{held, shown};
ghost use Rattle.frames.specs.Lines.{reading};
ghost use Rattle.frames.specs.Written.{sealed, written};

use crate::buffer::Frame;
use crate::encoding::encode;
use crate::kinds::Kind;
use crate::rows::Line;
use crate::sums::check_of;
use bounded::Bounded;

// The frame of a record, closed by its check byte.
pub(crate) fn seal<K: Kind>(x: K::Record) -> Frame
    ensures small { K.Kind.layout.small x }
    ensures value { held result ≡ sealed (K.Kind.layout.code ∷ K.Kind.layout.laid x) }
{
    let laid = K::lay(x);
    let open = &laid[..K::LENGTH - 1];
    let mut bytes = Bounded::new(0);
    bytes.extend(open);
    bytes.push(check_of(open));
    Frame { bytes }
}

// The line of a record. Read, it is the same record.
pub fn write<K: Kind>(x: K::Record) -> Line
    ensures value { shown result ≡ written K.Kind.layout x }
    ensures back { reading K.Kind.layout (shown result) ≡ Ok x }
{
    encode(&seal::<K>(x))
}
