// Cases of the answer reader, one line each: the verdict or the number of the refusal, and the bytes of the area.
#![tactic(auto)]

use answers::reading::read_answer;
use answers::verdicts::Verdict;
use calls::{beginning, defining};
use job::call::Exchange;
use job::drive::drive_lent;
use job::state::Setup;
use sinks::writer::Writer;

// What a job knows after these calls over a writer to an area of some bytes.
fn known(rt: &HostRuntime, exchanges: &mut [Exchange], room: usize) -> anyhow::Result<Setup> {
    let mut area = vec![in rt.alloc(); 0u8; room]?;
    let mut writer = Writer::new(area.as_mut_slice());
    Ok(drive_lent(&mut writer, exchanges))
}

// Reads a text into an area of six bytes that are 7.
fn show(rt: &HostRuntime, setup: &Setup, name: &str, text: &[u8]) -> anyhow::Result<()> {
    let mut area = [7u8; 6];
    show_into(rt, setup, name, text, &mut area)?;
    println!(rt; " {area:?}")?;
    Ok(())
}

fn show_into(
    rt: &HostRuntime,
    setup: &Setup,
    name: &str,
    text: &[u8],
    area: &mut [u8],
) -> anyhow::Result<()> {
    print!(rt; "{name}:")?;
    match read_answer(setup, text, area) {
        Ok(Verdict::Satisfiable) => print!(rt; " satisfiable")?,
        Ok(Verdict::Unsatisfiable) => print!(rt; " unsatisfiable")?,
        Err(refusal) => {
            let number = refusal.number();
            print!(rt; " {number}")?;
        }
    }
    Ok(())
}

fn show_accepted(rt: &HostRuntime, setup: &Setup) -> anyhow::Result<()> {
    let cases: [(&str, &[u8]); 6] = [
        ("one line", b"s SATISFIABLE\nv 1 2 3 4 0\n"),
        ("no last line feed", b"s SATISFIABLE\nv -1 2 -3 4 0"),
        ("any order", b"s SATISFIABLE\nv 4 -2 -3 1 0\n"),
        ("several lines", b"s SATISFIABLE\nv 1\nv -2 3\nv -4\nv 0\n"),
        (
            "comments",
            b"c first\nc\ns SATISFIABLE\ncv 1 1\nv 1 -2\nc between\nv -3 -4 0\nc last",
        ),
        ("unsatisfiable", b"c\ns UNSATISFIABLE\nc v 1 0\n"),
    ];
    for (name, text) in cases {
        show(rt, setup, name, text)?;
    }
    Ok(())
}

fn show_status(rt: &HostRuntime, setup: &Setup) -> anyhow::Result<()> {
    let cases: [(&str, &[u8]); 8] = [
        ("empty text", b""),
        ("comments alone", b"c s SATISFIABLE\n"),
        ("empty first line", b"\ns SATISFIABLE\nv 1 2 3 4 0\n"),
        ("unknown", b"s UNKNOWN\n"),
        ("small letters", b"s satisfiable\nv 1 2 3 4 0\n"),
        ("blank after the status", b"s SATISFIABLE \nv 1 2 3 4 0\n"),
        ("carriage return", b"s SATISFIABLE\r\nv 1 2 3 4 0\r\n"),
        ("v line first", b"v 1 2 3 4 0\ns SATISFIABLE\n"),
    ];
    for (name, text) in cases {
        show(rt, setup, name, text)?;
    }
    Ok(())
}

fn show_lines(rt: &HostRuntime, setup: &Setup) -> anyhow::Result<()> {
    let cases: [(&str, &[u8]); 12] = [
        ("no v line", b"s SATISFIABLE\n"),
        ("empty line", b"s SATISFIABLE\nv 1 2 3 4\n\nv 0\n"),
        (
            "second status",
            b"s SATISFIABLE\ns SATISFIABLE\nv 1 2 3 4 0\n",
        ),
        ("v alone", b"s SATISFIABLE\nv\nv 1 2 3 4 0\n"),
        ("v without blank", b"s SATISFIABLE\nv1 2 3 4 0\n"),
        ("two blanks", b"s SATISFIABLE\nv 1  2 3 4 0\n"),
        ("blank at the end", b"s SATISFIABLE\nv 1 2 3 4 0 \n"),
        ("blank in front", b"s SATISFIABLE\n v 1 2 3 4 0\n"),
        (
            "carriage return at the end",
            b"s SATISFIABLE\nv 1 2 3 4 0\r\n",
        ),
        ("line feed too many", b"s SATISFIABLE\nv 1 2 3 4 0\n\n"),
        ("v line after unsatisfiable", b"s UNSATISFIABLE\nv 0\n"),
        ("empty line after unsatisfiable", b"s UNSATISFIABLE\n\n"),
    ];
    for (name, text) in cases {
        show(rt, setup, name, text)?;
    }
    Ok(())
}

fn show_numbers(rt: &HostRuntime, setup: &Setup) -> anyhow::Result<()> {
    let cases: [(&str, &[u8]); 9] = [
        ("leading zero", b"s SATISFIABLE\nv 01 2 3 4 0\n"),
        ("two zeros", b"s SATISFIABLE\nv 1 2 3 4 00\n"),
        ("minus zero", b"s SATISFIABLE\nv 1 2 3 4 -0\n"),
        ("minus alone", b"s SATISFIABLE\nv 1 2 3 4 - 0\n"),
        ("plus", b"s SATISFIABLE\nv +1 2 3 4 0\n"),
        ("letter", b"s SATISFIABLE\nv 1 2 3 4x 0\n"),
        ("no 0", b"s SATISFIABLE\nv 1 2 3 4\n"),
        ("number after the 0", b"s SATISFIABLE\nv 1 2 3 0 4\n"),
        ("0 twice", b"s SATISFIABLE\nv 1 2 3 4 0\nv 0\n"),
    ];
    for (name, text) in cases {
        show(rt, setup, name, text)?;
    }
    Ok(())
}

fn show_variables(rt: &HostRuntime, setup: &Setup) -> anyhow::Result<()> {
    let cases: [(&str, &[u8]); 7] = [
        ("too high", b"s SATISFIABLE\nv 1 2 3 4 5 0\n"),
        ("twice", b"s SATISFIABLE\nv 1 2 3 4 1 0\n"),
        ("both ways", b"s SATISFIABLE\nv 1 2 3 -1 0\n"),
        ("2^32 and 1", b"s SATISFIABLE\nv 4294967297 2 3 4 0\n"),
        (
            "a hundred digits",
            b"s SATISFIABLE\nv -1000000000000000000000000000000000000000000000000000000000000000000000000000000000000000000000000001 2 3 4 0",
        ),
        ("one missing", b"s SATISFIABLE\nv 1 2 4 0\n"),
        ("all missing", b"s SATISFIABLE\nv 0\n"),
    ];
    for (name, text) in cases {
        show(rt, setup, name, text)?;
    }
    Ok(())
}

// Where a text has several faults, the first question that it fails is the answer.
fn show_order(rt: &HostRuntime, setup: &Setup) -> anyhow::Result<()> {
    show(rt, setup, "twice, then no 0", b"s SATISFIABLE\nv 1 1 2\n")?;
    show(
        rt,
        setup,
        "too high, then a letter",
        b"s SATISFIABLE\nv 9 2\nv x 0\n",
    )?;
    show(rt, setup, "missing and twice", b"s SATISFIABLE\nv 1 1 0\n")?;
    show(rt, setup, "unknown, with faults", b"s UNKNOWN\nv 1 1\n")?;
    let mut small = [7u8; 3];
    show_into(
        rt,
        setup,
        "unknown, with a small area",
        b"s UNKNOWN\n",
        &mut small,
    )?;
    println!(rt; " {small:?}")?;
    show_into(
        rt,
        setup,
        "small area",
        b"s SATISFIABLE\nv 1 2 3 4 0\n",
        &mut small,
    )?;
    println!(rt; " {small:?}")?;
    let mut exact = [7u8; 4];
    show_into(
        rt,
        setup,
        "exact area",
        b"s SATISFIABLE\nv 1 2 3 4 0\n",
        &mut exact,
    )?;
    println!(rt; " {exact:?}")?;
    Ok(())
}

// A comment of so many bytes, and then an answer of 16.
fn show_length(rt: &HostRuntime, setup: &Setup, name: &str, comment: usize) -> anyhow::Result<()> {
    let mut text = String::new(rt.alloc());
    for _ in 0..comment {
        text.push_str("c")?;
    }
    text.push_str("\ns UNSATISFIABLE")?;
    show(rt, setup, name, text.as_bytes())?;
    let mut small = [7u8; 3];
    show_into(rt, setup, "  and a small area", text.as_bytes(), &mut small)?;
    println!(rt; "")?;
    Ok(())
}

// The job with the most variables: bound 31, a signal, and 31 rows with variables of their own.
fn show_largest(rt: &HostRuntime) -> anyhow::Result<()> {
    let mut exchanges = vec![in rt.alloc()]?;
    exchanges.push(Exchange::from(beginning(31)))?;
    exchanges.push(Exchange::from(defining(1, 0, 0, 0)))?;
    for _ in 0..31u8 {
        exchanges.push(Exchange::from(defining(6, 0, 0, 0)))?;
    }
    let setup = known(rt, exchanges.as_mut_slice(), 1_000_000)?;
    let highest = setup.highest();
    let mut text = String::from_str(rt.alloc(), "s SATISFIABLE")?;
    for i in 0..highest {
        let number = format!(in rt.alloc(); "\nv {}", highest - i)?;
        text.push_str(number.as_str())?;
    }
    text.push_str(" 0")?;
    let mut area = [7u8; Setup::MOST_VARIABLES];
    show_into(rt, &setup, "the largest job", text.as_bytes(), &mut area)?;
    let ones = area.iter().filter(|byte| **byte == 1).count();
    println!(rt; ", {highest} variables, {ones} bytes are 1")?;
    Ok(())
}

fn main(rt: HostRuntime) -> anyhow::Result<()> {
    let setup = known(
        &rt,
        &mut [beginning(0), defining(1, 0, 0, 0), defining(5, 0, 0, 0)].map(Exchange::from),
        400,
    )?;
    println!(rt; "four variables")?;
    show_accepted(&rt, &setup)?;
    show_status(&rt, &setup)?;
    show_lines(&rt, &setup)?;
    show_numbers(&rt, &setup)?;
    show_variables(&rt, &setup)?;
    show_order(&rt, &setup)?;
    show_length(&rt, &setup, "60,000 bytes", 59_984)?;
    show_length(&rt, &setup, "60,001 bytes", 59_985)?;
    println!(rt; "no variable")?;
    let fresh = known(&rt, &mut [], 0)?;
    show(&rt, &fresh, "0 alone", b"s SATISFIABLE\nv 0\n")?;
    show(&rt, &fresh, "a literal", b"s SATISFIABLE\nv 1 0\n")?;
    show_largest(&rt)
}
