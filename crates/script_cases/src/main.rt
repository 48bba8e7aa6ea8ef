// Cases of scripts, one line each: the length of the file and its first line, or the refusal; and where a script over another sink
// stops.
#![tactic(auto)]

mod building;
mod showing;

use building::{filled, many, show_script_of};
use calls::{beginning, defining, requiring};
use cnf::switch::Switch;
use job::call::Call;
use script::running::drive_script;
use showing::show;
use sinks::judge::Judge;

// Lines that are no frames of a script; and the file of one script, with and without its last line feed.
fn show_lines(rt: &HostRuntime) -> anyhow::Result<()> {
    let cases: [(&str, &[u8]); 16] = [
        ("empty", b""),
        ("an empty line", b"\n"),
        ("an empty line after a begin", b"B00050\n\n"),
        ("lower case", b"b00050\n"),
        ("an odd number of digits", b"B000050\n"),
        ("four digits", b"B050\n"),
        ("six digits", b"B00050\n"),
        ("fourteen digits", b"C000000000013F\n"),
        ("sixteen digits", b"C00000000001003F\n"),
        ("a carriage return", b"B00050\r\n"),
        ("a wrong sum", b"B00051\n"),
        ("a run's frame", b"A0000060\n"),
        ("a begin as long as a define", b"B00000000050\n"),
        ("ended", b"B00050\nD0010000002F\nD0050000002B\nE00100011E\n"),
        (
            "not ended",
            b"B00050\nD0010000002F\nD0050000002B\nE00100011E",
        ),
        (
            "the last line cut",
            b"B00050\nD0010000002F\nD0050000002B\nE00100011",
        ),
    ];
    for (name, script) in cases {
        show(rt, name, script)?;
    }
    Ok(())
}

// Each refusal of a call over a writer, at its line.
fn show_calls(rt: &HostRuntime) -> anyhow::Result<()> {
    let begin = beginning(1);
    let signal = defining(1, 0, 0, 0);
    let cases: [(&str, &[Call]); 14] = [
        ("begun twice", &[begin, begin]),
        ("bound 31", &[beginning(31)]),
        ("bound 32", &[beginning(32)]),
        ("a row before begin", &[signal]),
        ("a requirement before begin", &[requiring(0, 0, 0)]),
        ("no operator", &[begin, defining(18, 0, 0, 0)]),
        ("an unused field", &[begin, defining(1, 0, 1, 0)]),
        ("no such operand", &[begin, defining(2, 0, 0, 0)]),
        ("signal 32", &[begin, defining(1, 32, 0, 0)]),
        ("a signal twice", &[begin, signal, signal]),
        ("distance 32", &[begin, signal, defining(8, 0, 0, 32)]),
        ("no such row", &[begin, requiring(0, 0, 0)]),
        ("a late instant", &[begin, signal, requiring(0, 2, 0)]),
        ("value 2", &[begin, signal, requiring(0, 0, 2)]),
    ];
    for (name, calls) in cases {
        show_script_of(rt, name, calls)?;
    }
    Ok(())
}

// As many rows and requirements as there may be, and one more.
fn show_limits(rt: &HostRuntime) -> anyhow::Result<()> {
    let again = defining(2, 0, 0, 0);
    let keep = requiring(0, 0, 1);
    show(rt, "32 rows", &many(rt, 0, 31, again, 0, keep)?)?;
    show(rt, "33 rows", &many(rt, 0, 32, again, 0, keep)?)?;
    show(rt, "64 requirements", &many(rt, 0, 0, again, 64, keep)?)?;
    show(rt, "65 requirements", &many(rt, 0, 0, again, 65, keep)?)?;
    show(rt, "the longest script", &many(rt, 0, 31, again, 64, keep)?)?;
    let wide = defining(9, 0, 0, 31);
    show(
        rt,
        "more cells than are free",
        &many(rt, 31, 2, wide, 0, keep)?,
    )
}

// The refusals that a writer never gives: of a switch that takes no clause, and of a judge of few variables.
fn show_other_sinks(rt: &HostRuntime) -> anyhow::Result<()> {
    let script = b"B0014F\nD0010000002F\n";
    let area = filled();
    let none = Switch {
        below: Judge::new(&area),
        variable: 0,
    };
    let (_, outcome) = drive_script(none, script);
    if let Err(stop) = outcome.result {
        println!(rt; "over a switch that is no variable: {stop}")?;
    }
    let (_, outcome) = drive_script(Judge::new(&area[0..4]), script);
    if let Err(stop) = outcome.result {
        println!(rt; "over a judge of four variables: {stop}")?;
    }
    let (judge, outcome) = drive_script(Judge::new(&area[0..6]), script);
    if outcome.result.is_ok() {
        let first = judge.first_false();
        println!(rt; "over a judge of six variables: clause {first} is false")?;
    }
    Ok(())
}

fn main(rt: HostRuntime) -> anyhow::Result<()> {
    show_lines(&rt)?;
    show_calls(&rt)?;
    show_limits(&rt)?;
    show_other_sinks(&rt)
}
