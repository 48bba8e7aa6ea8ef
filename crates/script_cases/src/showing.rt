// What comes of a script, as a line.
use script::file::{FILE_BYTES, WORK_BYTES, make_file};
use std::io::Write;

// A byte that no file has.
const MARK: u8 = 7;

// How many bytes are not the mark.
fn changed(output: &[u8]) -> usize {
    output.iter().filter(|byte| **byte != MARK).count()
}

// Makes the file of a script, and prints its length and its first line, or the refusal and how many bytes of the output it changed.
pub fn show(rt: &HostRuntime, name: &str, script: &[u8]) -> anyhow::Result<()> {
    let mut work = [MARK; WORK_BYTES];
    let mut output = [MARK; FILE_BYTES];
    match make_file(script, &mut work, &mut output) {
        Err(stop) => {
            let bytes = changed(&output);
            println!(rt; "{name}: {stop}, {bytes} bytes changed")?;
        }
        Ok(n) => {
            print!(rt; "{name}: {n} bytes, ")?;
            rt.stdout().write_all(first_line(&output[0..n]))?;
        }
    }
    Ok(())
}

// The first line, with its line feed.
fn first_line(file: &[u8]) -> &[u8] {
    match file.iter().position(|byte| *byte == b'\n') {
        Some(feed) => &file[..feed + 1],
        None => file,
    }
}
