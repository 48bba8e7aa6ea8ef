// A rule over time: the brine pump has run for three minutes before the compressor starts.
use calls::{beginning, defining, requiring};
use job::bottom::{judge_rules, write_rules};
use job::call::{Call, Exchange};
use std::io::Write;

// The operators of the rule, by their codes.
#[derive(Clone, Copy)]
enum Operator {
    Signal = 0x01,
    Not = 0x02,
    And = 0x03,
    Or = 0x04,
    Previous = 0x0B,
    Steadily = 0x11,
}

// The values of the variables for this run of six minutes, with the last one for ever: the pump from minute 1 on, the compressor
// from minute 4 on.
const STARTED_LATE: [u8; 60] = [
    0, 0, 0, 0, 0, 1, 0, 0, 0, 0, 0, 1, 0, 1, 1, 1, 1, 1, 0, 0, 0, 0, 1, 1, 0, 0, 0, 0, 1, 1, 0, 0,
    0, 0, 0, 1, 1, 1, 1, 1, 1, 0, 0, 0, 0, 0, 1, 0, 1, 1, 1, 1, 0, 1, 1, 1, 1, 1, 1, 1,
];

// The bytes of the first six lines.
const FIRST_LINES: usize = 56;

fn define(operator: Operator, a: u8, b: u8, t: u8) -> Call {
    defining(operator as u8, a, b, t)
}

// The rows of the rule, that it holds in each minute, and a start in minute 4 after a first minute without the pump.
fn pump_before_compressor() -> [Exchange; 17] {
    [
        beginning(5),
        define(Operator::Signal, 0, 0, 0),
        define(Operator::Signal, 1, 0, 0),
        define(Operator::Steadily, 0, 0, 3),
        define(Operator::Previous, 1, 0, 0),
        define(Operator::Not, 3, 0, 0),
        define(Operator::And, 1, 4, 0),
        define(Operator::Not, 5, 0, 0),
        define(Operator::Or, 6, 2, 0),
        requiring(7, 0, 1),
        requiring(7, 1, 1),
        requiring(7, 2, 1),
        requiring(7, 3, 1),
        requiring(7, 4, 1),
        requiring(7, 5, 1),
        requiring(0, 0, 0),
        requiring(5, 4, 1),
    ]
    .map(Exchange::from)
}

fn refused(exchanges: &[Exchange]) -> usize {
    exchanges
        .iter()
        .filter(|exchange| matches!(exchange.answer, Some(Err(_))))
        .count()
}

// Judges an assignment by the rule, and prints the verdict.
fn judge_run(rt: &HostRuntime, name: &str, values: &[u8]) -> anyhow::Result<()> {
    match judge_rules(values, &mut pump_before_compressor()) {
        0 => println!(rt; "{name}: a run of the rule")?,
        clause => println!(rt; "{name}: no run of the rule, clause {clause} is false")?,
    }
    Ok(())
}

// Writes the rule's clauses, and judges a run and the same with the pump off in minute 2.
pub fn show_rules(rt: &HostRuntime) -> anyhow::Result<()> {
    let mut calls = pump_before_compressor();
    let mut area = vec![in rt.alloc(); 0u8; 60000]?;
    let written = write_rules(area.as_mut_slice(), &mut calls);
    println!(rt;
        "{} calls, {} refused: {} clauses over {} variables",
        calls.len(),
        refused(&calls),
        written.clauses,
        written.highest
    )?;
    if let Some(text) = area.as_slice().get(0..written.bytes.min(FIRST_LINES)) {
        rt.stdout().write_all(text)?;
        println!(rt; "...")?;
    }
    judge_run(
        rt,
        "pump from minute 1, compressor from minute 4",
        &STARTED_LATE,
    )?;
    let mut stopped = STARTED_LATE;
    stopped[14] = 0;
    judge_run(rt, "the same with the pump off in minute 2", &stopped)
}
