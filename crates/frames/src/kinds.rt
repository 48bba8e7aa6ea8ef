// The kinds of frames: each has its code byte, its length and its record.
ghost use Rattle.std.specs.Prelude.{◌≡◌, ℕ, ◌-◌, ◌∷◌, ◌++◌, replicate, refl};
ghost use Rattle.frames.specs.Layouts.{Layout, Lawful, apart, begin_layout, define_layout, require_layout, run_layout, letter_layout};
ghost use Rattle.frames.specs.Lawfulness.{begin_lawful, define_lawful, require_lawful, run_lawful, letter_lawful};

use crate::records::{Begin, Define, Letter, Require, Run};

pub trait Kind {
    type Record: Drop;

    const CODE: u8;

    ghost CODE: { ℕ };

    // The number of bytes, with the code and the check byte.
    const LENGTH: usize;

    ghost LENGTH: { ℕ };

    // where the record lies in the bytes
    ghost layout: { Layout Self.Record };

    // The two constants as functions.
    fn code_byte() -> u8
        ensures { result ≡ layout.code }
    {
        Self::CODE
    }

    fn byte_count() -> usize
        ensures { result ≡ layout.size }
    {
        Self::LENGTH
    }

    // The record in the bytes of a frame, or nothing where their number is another.
    fn take_apart(bytes: &[u8]) -> Option<Self::Record>
        ensures { result ≡ apart layout bytes.now };

    // The code byte, the fields, and zeros from the place of the check byte on: the array has one length for all kinds.
    fn lay(x: Self::Record) -> [u8; 7]
        ensures small { layout.small x }
        ensures value { result ≡ (layout.code ∷ layout.laid x) ++ replicate (8 - layout.size) 0 };

    ghost code_is: { CODE ≡ layout.code };

    ghost length_is: { LENGTH ≡ layout.size };

    ghost lawful: { Lawful layout };
}

#[derive(Clone, Copy)]
pub struct BeginKind;

#[derive(Clone, Copy)]
pub struct DefineKind;

#[derive(Clone, Copy)]
pub struct RequireKind;

#[derive(Clone, Copy)]
pub struct RunKind;

#[derive(Clone, Copy)]
pub struct LetterKind;

impl Kind for BeginKind {
    type Record = Begin;

    const CODE: u8 = 0xB0;

    const LENGTH: usize = 3;

    ghost CODE = { 0xB0 };

    ghost LENGTH = { 3 };

    ghost layout = { begin_layout };

    ghost code_is = { refl };

    ghost length_is = { refl };

    ghost lawful = { begin_lawful };

    fn take_apart(bytes: &[u8]) -> Option<Begin> {
        match bytes {
            &[_, bound, _] => Some(Begin { bound }),
            _ => None,
        }
    }

    fn lay(x: Begin) -> [u8; 7] {
        [Self::CODE, x.bound, 0, 0, 0, 0, 0]
    }
}

impl Kind for DefineKind {
    type Record = Define;

    const CODE: u8 = 0xD0;

    const LENGTH: usize = 6;

    ghost CODE = { 0xD0 };

    ghost LENGTH = { 6 };

    ghost layout = { define_layout };

    ghost code_is = { refl };

    ghost length_is = { refl };

    ghost lawful = { define_lawful };

    fn take_apart(bytes: &[u8]) -> Option<Define> {
        match bytes {
            &[_, code, a, b, t, _] => Some(Define { code, a, b, t }),
            _ => None,
        }
    }

    fn lay(x: Define) -> [u8; 7] {
        [Self::CODE, x.code, x.a, x.b, x.t, 0, 0]
    }
}

impl Kind for RequireKind {
    type Record = Require;

    const CODE: u8 = 0xE0;

    const LENGTH: usize = 5;

    ghost CODE = { 0xE0 };

    ghost LENGTH = { 5 };

    ghost layout = { require_layout };

    ghost code_is = { refl };

    ghost length_is = { refl };

    ghost lawful = { require_lawful };

    fn take_apart(bytes: &[u8]) -> Option<Require> {
        match bytes {
            &[_, row, instant, value, _] => Some(Require {
                row,
                instant,
                value,
            }),
            _ => None,
        }
    }

    fn lay(x: Require) -> [u8; 7] {
        [Self::CODE, x.row, x.instant, x.value, 0, 0, 0]
    }
}

impl Kind for RunKind {
    type Record = Run;

    const CODE: u8 = 0xA0;

    const LENGTH: usize = 4;

    ghost CODE = { 0xA0 };

    ghost LENGTH = { 4 };

    ghost layout = { run_layout };

    ghost code_is = { refl };

    ghost length_is = { refl };

    ghost lawful = { run_lawful };

    fn take_apart(bytes: &[u8]) -> Option<Run> {
        match bytes {
            &[_, bound, start, _] => Some(Run { bound, start }),
            _ => None,
        }
    }

    fn lay(x: Run) -> [u8; 7] {
        [Self::CODE, x.bound, x.start, 0, 0, 0, 0]
    }
}

impl Kind for LetterKind {
    type Record = Letter;

    const CODE: u8 = 0xC0;

    const LENGTH: usize = 7;

    ghost CODE = { 0xC0 };

    ghost LENGTH = { 7 };

    ghost layout = { letter_layout };

    ghost code_is = { refl };

    ghost length_is = { refl };

    ghost lawful = { letter_lawful };

    fn take_apart(bytes: &[u8]) -> Option<Letter> {
        match bytes {
            &[_, instant, s3, s2, s1, s0, _] => Some(Letter {
                instant,
                signals: u32::from_be_bytes([s3, s2, s1, s0]),
            }),
            _ => None,
        }
    }

    fn lay(x: Letter) -> [u8; 7] {
        let [s3, s2, s1, s0] = x.signals.to_be_bytes();
        [Self::CODE, x.instant, s3, s2, s1, s0, 0]
    }
}
