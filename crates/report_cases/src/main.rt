// Cases of scripts with a solver's answers: what is told of each, and whether it is a refusal.
#![tactic(auto)]

use report::reporting::make_report;
use report::telling::REPORT_BYTES;
use script::file::WORK_BYTES;
use std::io::Write;

// Bound 0, signal 0, next of it, and next required at instant 0: four variables.
const NEXT: &[u8] = b"B00050\nD0010000002F\nD0050000002B\nE00100011E\n";

// Bound 1, signals 0 and 31: eight variables.
const TWO: &[u8] = b"B0014F\nD0010000002F\nD0011F000010\n";

fn show(rt: &HostRuntime, name: &str, script: &[u8], reply: &[u8]) -> anyhow::Result<()> {
    let mut work = [0u8; WORK_BYTES];
    let mut output = [0u8; REPORT_BYTES];
    let told = make_report(script, reply, &mut work, &mut output);
    let refused = told.outcome.is_err();
    println!(rt; "{name}, refused {refused}:")?;
    let bytes = told.bytes;
    rt.stdout().write_all(&output[0..bytes])?;
    Ok(())
}

fn show_verdicts(rt: &HostRuntime) -> anyhow::Result<()> {
    let cases: [(&str, &[u8], &[u8]); 8] = [
        ("in", NEXT, b"s SATISFIABLE\nv 1 2 3 4 0\n"),
        ("in, no last line feed", NEXT, b"s SATISFIABLE\nv 1 2 3 4 0"),
        (
            "in, with comments and several lines",
            NEXT,
            b"c first\ns SATISFIABLE\nc then\nv 4 3\nc\nv 2 1\nv 0\nc last",
        ),
        ("no assignment", NEXT, b"s UNSATISFIABLE\n"),
        (
            "the last clause is false",
            NEXT,
            b"s SATISFIABLE\nv 1 2 -3 -4 0\n",
        ),
        (
            "the first clause is false",
            NEXT,
            b"s SATISFIABLE\nv -1 2 3 4 0\n",
        ),
        (
            "two instants",
            TWO,
            b"s SATISFIABLE\nv -1 2 -3 4 5 -6 -7 8 0\n",
        ),
        (
            "two loop starts",
            TWO,
            b"s SATISFIABLE\nv 1 2 3 4 5 -6 -7 8 0\n",
        ),
    ];
    for (name, script, reply) in cases {
        show(rt, name, script, reply)?;
    }
    Ok(())
}

fn show_refusals(rt: &HostRuntime) -> anyhow::Result<()> {
    let cases: [(&str, &[u8], &[u8]); 9] = [
        ("a refused script", b"B00051\n", b"s SATISFIABLE\nv 0\n"),
        (
            "a script refused at line 2",
            b"B00050\nB00050\n",
            b"s UNSATISFIABLE\n",
        ),
        ("no verdict", NEXT, b"s UNKNOWN\n"),
        ("no values", NEXT, b"s SATISFIABLE\n"),
        ("a variable twice", NEXT, b"s SATISFIABLE\nv 1 1 2 3 4 0\n"),
        (
            "a hundred digits",
            NEXT,
            b"s SATISFIABLE\nv 1000000000000000000000000000000000000000000000000000000000000000000000000000000000000000000000000000 0\n",
        ),
        ("a variable missing", NEXT, b"s SATISFIABLE\nv 1 2 3 0\n"),
        ("a job that is not begun", b"", b"s SATISFIABLE\nv 0\n"),
        ("no rules, no assignment", b"", b"s UNSATISFIABLE\n"),
    ];
    for (name, script, reply) in cases {
        show(rt, name, script, reply)?;
    }
    Ok(())
}

fn main(rt: HostRuntime) -> anyhow::Result<()> {
    show_verdicts(&rt)?;
    show_refusals(&rt)
}
