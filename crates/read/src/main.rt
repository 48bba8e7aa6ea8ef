// Reads a script from script.txt and a solver's answer on standard input, and prints the run, NOT IN, NONE, or why one is refused.
#![tactic(auto)]

use report::reporting::make_report;
use report::telling::REPORT_BYTES;
use script::file::{MOST_SCRIPT, WORK_BYTES};
use std::fs::File;
use std::io::{Read, Write};
use std::process::ExitCode;

// An answer of more bytes is refused, whatever they are.
const MOST_ANSWER: u64 = 60_001;

// The status is 1 for a refusal.
fn main(rt: HostRuntime) -> anyhow::Result<ExitCode> {
    let mut script = Vec::new(rt.alloc());
    File::open(&rt, "script.txt")?
        .take(MOST_SCRIPT)
        .read_to_end(&mut script)?;
    let mut reply = Vec::new(rt.alloc());
    rt.stdin().take(MOST_ANSWER).read_to_end(&mut reply)?;
    let mut work = [0u8; WORK_BYTES];
    let mut output = [0u8; REPORT_BYTES];
    let told = make_report(&script, &reply, &mut work, &mut output);
    let bytes = told.bytes;
    rt.stdout().write_all(&output[0..bytes])?;
    match told.outcome {
        Ok(_) => Ok(ExitCode::SUCCESS),
        Err(_) => Ok(ExitCode::FAILURE),
    }
}
