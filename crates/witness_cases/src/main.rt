// Cases of fill and run, one line each: the answer, and the bytes or the letters that were written.
#![tactic(auto)]

use calls::{beginning, defining};
use job::call::Exchange;
use job::drive::drive_lent;
use job::state::Setup;
use sinks::judge::Judge;
use std::io::Write;
use witness::fill::fill;
use witness::refusal::Refusal;
use witness::run::run;

// What a job knows after the calls.
fn after(exchanges: &mut [Exchange]) -> Setup {
    let variables = [0u8; 200];
    let mut judge = Judge::new(&variables);
    drive_lent(&mut judge, exchanges)
}

fn show_refusal(rt: &HostRuntime, name: &str, refusal: Refusal) -> anyhow::Result<()> {
    let number = refusal.number();
    match refusal {
        Refusal::Unsettled(row) => println!(rt; "{name}: {number} at row {row}")?,
        _ => println!(rt; "{name}: {number}")?,
    }
    Ok(())
}

// Fills an area of sevens.
fn show_fill(
    rt: &HostRuntime,
    name: &str,
    setup: &Setup,
    l: u8,
    letters: &[u32],
    room: usize,
    work: usize,
) -> anyhow::Result<()> {
    let mut area = vec![in rt.alloc(); 7u8; room]?;
    let mut lines = vec![in rt.alloc(); 0u8; work]?;
    match fill(setup, l, letters, area.as_mut_slice(), lines.as_mut_slice()) {
        Ok(()) => {
            print!(rt; "{name}: ")?;
            for byte in area.as_slice() {
                print!(rt; "{byte}")?;
            }
            println!(rt; "")?;
        }
        Err(refusal) => show_refusal(rt, name, refusal)?,
    }
    Ok(())
}

fn show_run(
    rt: &HostRuntime,
    name: &str,
    setup: &Setup,
    area: &[u8],
    places: usize,
) -> anyhow::Result<()> {
    let mut letters = vec![in rt.alloc(); 99u32; places]?;
    match run(setup, area, letters.as_mut_slice()) {
        Ok(l) => {
            print!(rt; "{name}: loop start {l}, letters")?;
            for letter in letters.as_slice() {
                print!(rt; " {letter}")?;
            }
            println!(rt; "")?;
        }
        Err(refusal) => show_refusal(rt, name, refusal)?,
    }
    Ok(())
}

fn show_questions(rt: &HostRuntime) -> anyhow::Result<()> {
    let fresh = after(&mut []);
    show_fill(rt, "fill, not begun", &fresh, 0, &[0], 9, 9)?;
    show_run(rt, "run, not begun", &fresh, &[1], 1)?;
    let setup = after(&mut [beginning(1), defining(1, 3, 0, 0)].map(Exchange::from));
    show_fill(rt, "one letter for two instants", &setup, 0, &[8], 6, 2)?;
    show_fill(rt, "loop start after the bound", &setup, 2, &[8, 0], 6, 2)?;
    show_fill(rt, "a signal without a row", &setup, 0, &[8, 1], 6, 2)?;
    show_fill(rt, "area too small", &setup, 0, &[8, 0], 5, 2)?;
    show_fill(rt, "work area too small", &setup, 0, &[8, 0], 6, 1)?;
    show_fill(rt, "just enough", &setup, 0, &[8, 0], 6, 2)?;
    show_fill(rt, "more than enough", &setup, 1, &[8, 0], 9, 5)?;
    show_run(
        rt,
        "one place for two letters",
        &setup,
        &[1, 0, 1, 1, 1, 0],
        1,
    )?;
    show_run(
        rt,
        "five bytes for six variables",
        &setup,
        &[1, 0, 1, 1, 1],
        2,
    )?;
    show_run(rt, "no loop start", &setup, &[0, 0, 1, 1, 1, 0], 2)?;
    show_run(rt, "two loop starts", &setup, &[1, 1, 1, 1, 1, 0], 2)?;
    show_run(rt, "one loop start", &setup, &[0, 1, 0, 0, 1, 0], 2)
}

// Previous, whose loop has to close on the signal.
fn show_previous(rt: &HostRuntime) -> anyhow::Result<()> {
    let short = after(&mut [beginning(1), defining(1, 0, 0, 0), defining(11, 0, 0, 0)].map(
        Exchange::from,
    ));
    show_fill(rt, "previous, off on", &short, 1, &[0, 1], 8, 4)?;
    let long = after(&mut [beginning(2), defining(1, 0, 0, 0), defining(11, 0, 0, 0)].map(
        Exchange::from,
    ));
    show_fill(rt, "previous, off on on", &long, 2, &[0, 1, 1], 12, 6)
}

// A run under all seventeen operators, filled and read back.
fn show_all_operators(rt: &HostRuntime) -> anyhow::Result<()> {
    let setup = after(&mut [
        beginning(6),
        defining(1, 0, 0, 0),
        defining(1, 1, 0, 0),
        defining(2, 0, 0, 0),
        defining(3, 0, 1, 0),
        defining(4, 0, 1, 0),
        defining(5, 0, 0, 0),
        defining(6, 0, 1, 0),
        defining(7, 1, 0, 0),
        defining(8, 0, 0, 5),
        defining(9, 3, 0, 3),
        defining(10, 4, 0, 2),
        defining(11, 0, 0, 0),
        defining(12, 1, 0, 0),
        defining(13, 0, 1, 0),
        defining(14, 1, 0, 0),
        defining(15, 0, 0, 2),
        defining(16, 1, 0, 2),
        defining(17, 4, 0, 1),
    ]
    .map(Exchange::from));
    let letters = [3, 0, 1, 2, 1, 0, 1];
    show_fill(rt, "all operators", &setup, 3, &letters, 164, 126)?;
    let mut area = [0u8; 164];
    let mut lines = [0u8; 126];
    match fill(&setup, 3, &letters, &mut area, &mut lines) {
        Ok(()) => show_run(rt, "read back", &setup, &area, 7),
        Err(refusal) => show_refusal(rt, "not filled", refusal),
    }
}

fn main(rt: HostRuntime) -> anyhow::Result<()> {
    show_questions(&rt)?;
    show_previous(&rt)?;
    show_all_operators(&rt)
}
