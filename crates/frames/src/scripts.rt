// The calls of a script.
ghost use Rattle.std.specs.Prelude.{◌≡◌, ◌<◌, [], ◌∷◌, length, IfOk, Ok, MatchOption};
ghost use Rattle.cnf.specs.Questions.{first_no};
ghost use Rattle.frames.specs.Held.{held, shown};
ghost use Rattle.frames.specs.Script.{call_asks, call_in, calling, answers, written_call};

use crate::buffer::Frame;
use crate::decoding::decode;
use crate::kinds::{BeginKind, DefineKind, Kind, RequireKind};
use crate::reading::record_of;
use crate::refusals::Refusal;
use crate::rows::Line;
use crate::writing::write;
pub use calls::Call;
use text::splitting::split_line;

// The call in a frame of a script.
fn call_in(frame: &Frame) -> Result<Call, Refusal>
    ensures { result ≡ first_no (call_asks (held frame.now)) (call_in (held frame.now)) }
{
    match frame.kind() {
        BeginKind::CODE => Ok(Call::Begin(record_of::<BeginKind>(frame)?)),
        DefineKind::CODE => Ok(Call::Define(record_of::<DefineKind>(frame)?)),
        RequireKind::CODE => Ok(Call::Require(record_of::<RequireKind>(frame)?)),
        _ => Err(Refusal::Kind),
    }
}

// The call of a line of a script. Written, it is the same line.
pub fn call_of(line: &[u8]) -> Result<Call, Refusal>
    ensures value { result ≡ calling line.now }
    ensures back { IfOk result (λ c. written_call c ≡ line.now) }
{
    let frame = decode(line)?;
    call_in(&frame)
}

// The line of a call. Read, it is the same call.
pub fn write_call(call: Call) -> Line
    ensures value { shown result ≡ written_call call }
    ensures back { calling (shown result) ≡ Ok call }
{
    match call {
        Call::Begin(x) => write::<BeginKind>(x),
        Call::Define(x) => write::<DefineKind>(x),
        Call::Require(x) => write::<RequireKind>(x),
    }
}

// What the first line of a script answers, and the text after it; nothing where the text is empty.
pub fn next_call(script: &[u8]) -> Option<(Result<Call, Refusal>, &[u8])>
    ensures { MatchOption result (script.now ≡ []) (λ p. (answers script.now ≡ p.0 ∷ answers p.1.now) × (length p.1.now < length script.now)) }
{
    let (line, rest) = split_line(script)?;
    Some((call_of(line), rest))
}
