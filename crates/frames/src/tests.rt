// Lines with their answers, and records with their lines.
use crate::kinds::{LetterKind, RunKind};
use crate::reading::read;
use crate::records::{Begin, Define, Letter, Require, Run};
use crate::scripts::{Call, call_of, next_call, write_call};
use crate::writing::write;
use std::test::Fail;

// The number of a line's refusal in a script, or 0 where it is read.
fn number(line: &[u8]) -> u8 {
    match call_of(line) {
        Ok(_) => 0,
        Err(refusal) => refusal.number(),
    }
}

#[test]
fn refusals(rt: HostRuntime) {
    assert_eq!(rt; number(b"b00050"), 1);
    assert_eq!(rt; number(b"B0005"), 1);
    assert_eq!(rt; number(b"B050"), 1);
    assert_eq!(rt; number(b"B000000000000050"), 1);
    assert_eq!(rt; number(b"B00051"), 2);
    assert_eq!(rt; number(b"A0000060"), 3);
    assert_eq!(rt; number(b"C000000000013F"), 3);
    assert_eq!(rt; number(b"B00000000050"), 4);
}

// A row with no operands.
fn bare(code: u8) -> Call {
    Call::Define(Define {
        code,
        a: 0,
        b: 0,
        t: 0,
    })
}

#[test]
fn script_lines(rt: HostRuntime) {
    assert_eq!(rt; call_of(b"B00050"), Ok(Call::Begin(Begin { bound: 0 })));
    assert_eq!(rt; call_of(b"D0010000002F"), Ok(bare(1)));
    assert_eq!(rt; call_of(b"D0050000002B"), Ok(bare(5)));
    let required = Call::Require(Require {
        row: 1,
        instant: 0,
        value: 1,
    });
    assert_eq!(rt; call_of(b"E00100011E"), Ok(required));
    assert!(rt; write_call(required).as_slice() == b"E00100011E".as_slice());
}

#[test]
fn run_lines(rt: HostRuntime) {
    let run = Run { bound: 0, start: 0 };
    assert!(rt; write::<RunKind>(run).as_slice() == b"A0000060".as_slice());
    assert_eq!(rt; read::<RunKind>(b"A0000060"), Ok(run));
    let letter = Letter {
        instant: 0,
        signals: 1,
    };
    assert!(rt; write::<LetterKind>(letter).as_slice() == b"C000000000013F".as_slice());
    assert_eq!(rt; read::<LetterKind>(b"C000000000013F"), Ok(letter));
}

#[test]
fn text_of_two_lines(rt: HostRuntime) -> Result<(), Fail> {
    let (first, rest) = next_call(b"B00050\nB00051").ok_or("no line")?;
    assert_eq!(rt; first, Ok(Call::Begin(Begin { bound: 0 })));
    let (second, end) = next_call(rest).ok_or("one line")?;
    assert!(rt; second.is_err());
    assert!(rt; end.is_empty());
    Ok(())
}
