// The calls of a job as values.
#![tactic(auto)]

ghost use Rattle.std.specs.Prelude.{◌≡◌};

pub mod records;

use records::{Begin, Define, Require};

#[derive(Clone, Copy, Debug, PartialEq, Eq)]
pub enum Call {
    Begin(Begin),
    Define(Define),
    Require(Require),
}

pub fn beginning(bound: u8) -> Call
    ensures { result ≡ Call.Begin (record { bound = bound }) }
{
    Call::Begin(Begin { bound })
}

pub fn defining(code: u8, a: u8, b: u8, t: u8) -> Call
    ensures { result ≡ Call.Define (record { code = code; a = a; b = b; t = t }) }
{
    Call::Define(Define { code, a, b, t })
}

pub fn requiring(row: u8, instant: u8, value: u8) -> Call
    ensures { result ≡ Call.Require (record { row = row; instant = instant; value = value }) }
{
    Call::Require(Require {
        row,
        instant,
        value,
    })
}
