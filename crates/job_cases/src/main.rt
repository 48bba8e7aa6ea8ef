// Cases of the job, one line each: the answers of a list of calls, and what the sink says then.
#![tactic(auto)]

use calls::{beginning, defining, requiring};
use cnf::sink::Sink;
use cnf::switch::Switch;
use job::bottom::{judge_rules, write_piled, write_rules};
use job::call::{Call, Exchange, Reply};
use job::drive::drive;
use sinks::judge::Judge;
use std::io::Write;

// The values of all variables for a run of all seventeen operators: bound 6, loop start 3, and the letters 0 and 1 together,
// none, 0, 1, 0, none, 0.
const KNOWN: [u8; 164] = [
    0, 0, 0, 1, 0, 0, 0, 0, 0, 0, 1, 1, 1, 1, 1, 0, 1, 0, 1, 0, 1, 1, 0, 0, 1, 0, 0, 0, 0, 1, 0, 1,
    0, 1, 0, 1, 0, 0, 0, 0, 0, 0, 1, 0, 1, 1, 1, 0, 1, 0, 1, 0, 1, 0, 1, 0, 1, 0, 1, 1, 0, 0, 1, 0,
    0, 0, 1, 1, 1, 1, 1, 0, 0, 0, 0, 0, 0, 0, 0, 0, 1, 1, 1, 1, 0, 1, 0, 1, 0, 1, 0, 0, 1, 0, 1, 0,
    1, 0, 0, 0, 0, 0, 0, 0, 0, 0, 0, 0, 1, 0, 0, 0, 1, 1, 1, 0, 1, 0, 1, 0, 1, 0, 1, 1, 0, 0, 1, 0,
    0, 1, 0, 0, 1, 1, 0, 0, 1, 0, 0, 0, 0, 0, 0, 0, 0, 1, 0, 1, 0, 1, 1, 1, 1, 1, 1, 1, 0, 1, 0, 0,
    1, 1, 0, 0,
];

// Prints the answers: ok, the row's number, or the number of the refusal.
fn show_answers(rt: &HostRuntime, name: &str, exchanges: &[Exchange]) -> anyhow::Result<()> {
    print!(rt; "{name}:")?;
    for exchange in exchanges {
        match exchange.answer {
            Some(Ok(Reply::Done)) => print!(rt; " ok")?,
            Some(Ok(Reply::Row(n))) => print!(rt; " row {n}")?,
            Some(Err(refusal)) => {
                let number = refusal.number();
                print!(rt; " {number}")?;
            }
            None => print!(rt; " -")?,
        }
    }
    println!(rt; "")?;
    Ok(())
}

// Runs the calls over a writer to an area of some bytes.
fn show(rt: &HostRuntime, name: &str, calls: &[Call], room: usize) -> anyhow::Result<()> {
    let mut exchanges = Vec::new(rt.alloc());
    for call in calls {
        exchanges.push(Exchange::from(*call))?;
    }
    let mut area = vec![in rt.alloc(); 0u8; room]?;
    let written = write_rules(area.as_mut_slice(), exchanges.as_mut_slice());
    show_answers(rt, name, exchanges.as_slice())?;
    println!(rt;
        "  {} clauses, {} bytes, highest {}",
        written.clauses, written.bytes, written.highest
    )?;
    Ok(())
}

fn show_begin(rt: &HostRuntime) -> anyhow::Result<()> {
    let signal = defining(1, 0, 0, 0);
    let cases: [(&str, &[Call], usize); 4] = [
        (
            "bound 31, 32",
            &[beginning(32), beginning(31), beginning(31)],
            9000,
        ),
        ("before begin", &[signal, requiring(0, 0, 0)], 9000),
        ("no cells", &[beginning(0), signal], 0),
        (
            "cells for a begin and a signal",
            &[beginning(0), signal, defining(2, 0, 0, 0)],
            48,
        ),
    ];
    for (name, calls, room) in cases {
        show(rt, name, calls, room)?;
    }
    Ok(())
}

fn show_define(rt: &HostRuntime) -> anyhow::Result<()> {
    let cases: [(&str, &[Call], usize); 3] = [
        (
            "codes 0 and 18",
            &[beginning(1), defining(0, 0, 0, 0), defining(18, 0, 0, 0)],
            9000,
        ),
        (
            "unused fields",
            &[
                beginning(1),
                defining(1, 0, 1, 0),
                defining(1, 0, 0, 1),
                defining(2, 0, 7, 0),
            ],
            9000,
        ),
        (
            "operands, a signal twice, a distance",
            &[
                beginning(1),
                defining(1, 32, 0, 0),
                defining(2, 0, 0, 0),
                defining(1, 31, 0, 0),
                defining(3, 0, 1, 0),
                defining(1, 31, 0, 0),
                defining(8, 0, 0, 32),
                defining(8, 0, 0, 31),
            ],
            30000,
        ),
    ];
    for (name, calls, room) in cases {
        show(rt, name, calls, room)?;
    }
    Ok(())
}

fn show_require(rt: &HostRuntime) -> anyhow::Result<()> {
    let calls = [
        beginning(1),
        requiring(0, 0, 1),
        defining(1, 0, 0, 0),
        requiring(0, 2, 1),
        requiring(0, 1, 2),
        requiring(0, 1, 1),
        requiring(0, 0, 0),
    ];
    show(rt, "requirements", &calls, 9000)
}

// One row more than there are places, and one requirement more.
fn show_full(rt: &HostRuntime) -> anyhow::Result<()> {
    let mut calls = vec![in rt.alloc()]?;
    calls.push(beginning(0))?;
    for signal in 0..32u8 {
        calls.push(defining(1, signal, 0, 0))?;
    }
    calls.push(defining(2, 0, 0, 0))?;
    for _ in 0..65u8 {
        calls.push(requiring(31, 0, 1))?;
    }
    show(rt, "33 rows and 65 requirements", calls.as_slice(), 9000)
}

// Sinks that are too small for a begin.
fn show_small_sinks(rt: &HostRuntime) -> anyhow::Result<()> {
    let mut long = [Exchange::from(beginning(0))];
    let _ = drive(Switch::new(Judge::new(&[1, 1]), 3), &mut long);
    show_answers(rt, "longest clause 0", &long)?;
    let mut high = [Exchange::from(beginning(0))];
    let job = drive(Judge::new(&[1]), &mut high);
    show_answers(rt, "one variable", &high)?;
    let count = job.sink().count();
    println!(rt;
        "  {count} clauses, first false {}",
        job.sink().first_false()
    )?;
    Ok(())
}

fn all_operators() -> [Exchange; 20] {
    [
        beginning(6),
        defining(1, 0, 0, 0),
        defining(1, 1, 0, 0),
        defining(2, 0, 0, 0),
        defining(3, 0, 1, 0),
        defining(4, 0, 1, 0),
        defining(5, 0, 0, 0),
        defining(6, 0, 1, 0),
        defining(7, 1, 0, 0),
        defining(8, 0, 0, 5),
        defining(9, 3, 0, 3),
        defining(10, 4, 0, 2),
        defining(11, 0, 0, 0),
        defining(12, 1, 0, 0),
        defining(13, 0, 1, 0),
        defining(14, 1, 0, 0),
        defining(15, 0, 0, 2),
        defining(16, 1, 0, 2),
        defining(17, 4, 0, 1),
        requiring(9, 0, 1),
    ]
    .map(Exchange::from)
}

// Whether the known run is out with the variable at this place turned.
fn is_out_turned(place: usize) -> bool {
    let mut turned = KNOWN;
    if let Some(value) = turned.get_mut(place) {
        *value = u8::from(*value == 0);
    }
    judge_rules(&turned, &mut all_operators()) != 0
}

// The known run is in; with any one variable turned it is out.
fn show_known(rt: &HostRuntime) -> anyhow::Result<()> {
    let mut exchanges = all_operators();
    let told = judge_rules(&KNOWN, &mut exchanges);
    show_answers(rt, "all operators", &exchanges)?;
    println!(rt; "  first false {told}")?;
    let out = (0..KNOWN.len())
        .filter(|place| is_out_turned(*place))
        .count();
    println!(rt;
        "  of {} variables turned alone, {out} are out",
        KNOWN.len()
    )?;
    Ok(())
}

// A switch over a switch over a writer.
fn show_piled(rt: &HostRuntime) -> anyhow::Result<()> {
    let mut exchanges = [beginning(0), defining(1, 0, 0, 0), requiring(0, 0, 1)].map(
        Exchange::from,
    );
    let mut area = vec![in rt.alloc(); 0u8; 400]?;
    let bytes = write_piled(area.as_mut_slice(), 8, 9, &mut exchanges);
    show_answers(rt, "through switches 8 and 9", &exchanges)?;
    if let Some(text) = area.as_slice().get(0..bytes) {
        rt.stdout().write_all(text)?;
    }
    Ok(())
}

fn main(rt: HostRuntime) -> anyhow::Result<()> {
    show_begin(&rt)?;
    show_define(&rt)?;
    show_require(&rt)?;
    show_full(&rt)?;
    show_small_sinks(&rt)?;
    show_known(&rt)?;
    show_piled(&rt)
}
