// Reads a script on standard input and prints its file, or why it is refused.
#![tactic(auto)]

use script::file::{FILE_BYTES, MOST_SCRIPT, WORK_BYTES, make_file};
use std::io::{Read, Write};
use std::process::ExitCode;

// Prints the file or the refusal; the status is 1 for a refusal.
fn main(rt: HostRuntime) -> anyhow::Result<ExitCode> {
    let mut script = Vec::new(rt.alloc());
    rt.stdin().take(MOST_SCRIPT).read_to_end(&mut script)?;
    let mut work = [0u8; WORK_BYTES];
    let mut output = [0u8; FILE_BYTES];
    match make_file(&script, &mut work, &mut output) {
        Ok(n) => {
            rt.stdout().write_all(&output[0..n])?;
            Ok(ExitCode::SUCCESS)
        }
        Err(stop) => {
            println!(rt; "{stop}")?;
            Ok(ExitCode::FAILURE)
        }
    }
}
