// The file of a script: a heading, then a line for each clause.
ghost use Rattle.std.specs.Prelude.{◌≡◌, ◌+◌, ◌≤◌, length, IfOk};
ghost use Rattle.sinks.specs.Lines.{over};
ghost use Rattle.script.specs.Files.{heading, Filed};

use crate::refusal::Stop;
use crate::running::drive_script_lent;
use cnf::sink::Sink;
use sinks::line::{put_bytes, put_pair};
use sinks::writer::Writer;

// The bytes of a script that matter: what stands behind so many does not change what comes of it (`theorems::file_cut`).
pub const MOST_SCRIPT: u64 = 1471;

// The bytes of the work area: as many as the lines may have.
pub const WORK_BYTES: usize = 60000;

// The bytes of the output: those of the lines, and room for the heading.
pub const FILE_BYTES: usize = WORK_BYTES + 20;

// Makes the whole file of a script at the front of the output, and gives its length; a refused script leaves the output as it was.
pub fn make_file(
    script: &[u8],
    work: &mut [u8; WORK_BYTES],
    output: &mut [u8; FILE_BYTES],
) -> Result<usize, Stop>
    ensures filed { Filed work.old script.now output.old output.new result }
    ensures fits { IfOk result (λ n. n ≤ FILE_BYTES) }
{
    let mut writer = Writer::new(work);
    let outcome = drive_script_lent(&mut writer, script);
    outcome.result?;
    let highest = u64::from(outcome.setup.highest());
    let heading = put_pair(output, b"p cnf ", highest, writer.count() as u64);
    Ok(put_bytes(output, heading, writer.text()))
}
