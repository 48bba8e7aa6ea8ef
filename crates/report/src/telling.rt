// The text of a report or a refusal.
ghost use Rattle.std.specs.Prelude.{◌≡◌, ◌+◌, ◌*◌, ◌≤◌, [], ◌∷◌, ◌++◌, length, codes, decimal};
ghost use Rattle.sinks.specs.Lines.{over};
ghost use Rattle.report.specs.Texts.{text_of, notice_text, out_text, run_text, letter_lines, letter_line};

use crate::outcome::{Report, ShownRun};
use crate::refusal::Refusal;
use frames::kinds::{LetterKind, RunKind};
use frames::records::{Letter, Run};
use frames::writing::write;
use sinks::line::{put, put_bytes, put_number, put_pair};

// The bytes of the longest text: the line of a run, and of 32 letters.
pub const REPORT_BYTES: usize = 489;

// Writes that a question with this number was answered no at a line, 0 for none, to the front of the output, and gives the length. By
// put_pair and not as a refusal is displayed: put_pair says each byte of the area.
pub fn tell_refused(number: u32, line: usize, output: &mut [u8; REPORT_BYTES]) -> usize
    ensures area { output.new ≡ over output.old 0 (notice_text number line) }
    ensures end { result ≡ length (notice_text number line) }
    ensures fits { result ≤ REPORT_BYTES }
{
    put_pair(output, b"REFUSED ", u64::from(number), line as u64)
}

fn put_out(output: &mut [u8], clause: usize) -> usize
    requires { 489 ≤ length output.old }
    ensures area { output.new ≡ over output.old 0 (out_text clause) }
    ensures end { result ≡ length (out_text clause) }
    ensures fits { result ≤ 489 }
{
    let number = put_bytes(output, 0, b"NOT IN ");
    let feed = put_number(output, number, clause as u64);
    put(output, feed, b'\n')
}

// Writes the line of one letter.
fn put_letter(output: &mut [u8], at: usize, instant: u8, signals: u32) -> usize
    requires { at + 15 ≤ length output.old }
    ensures area { output.new ≡ over output.old at (letter_line instant signals) }
    ensures end { result ≡ at + 15 }
{
    let frame = write::<LetterKind>(Letter { instant, signals });
    let feed = put_bytes(output, at, frame.as_slice());
    put(output, feed, b'\n')
}

// Writes the lines of the letters from `at` on.
fn put_letters(output: &mut [u8], at: usize, letters: &[u32]) -> usize
    requires { (at + 15 * length letters.now ≤ length output.old) × (length letters.now ≤ 32) }
    ensures area { output.new ≡ over output.old at (letter_lines 0 letters.now) }
    ensures end { result ≡ at + length (letter_lines 0 letters.now) }
{
    let mut next = at;
    for (instant, signals) in letters.iter().enumerate() {
        next = put_letter(output, next, instant as u8, *signals);
    }
    next
}

fn put_run(output: &mut [u8], run: &ShownRun) -> usize
    requires { 489 ≤ length output.old }
    ensures area { output.new ≡ over output.old 0 (run_text run.now) }
    ensures end { result ≡ length (run_text run.now) }
    ensures fits { result ≤ 489 }
{
    let frame = write::<RunKind>(Run {
        bound: run.bound(),
        start: run.start,
    });
    let feed = put_bytes(output, 0, frame.as_slice());
    let next = put(output, feed, b'\n');
    put_letters(output, next, run.letters.as_slice())
}

// Writes the text to the front of the output, and gives its length.
pub fn tell(outcome: &Result<Report, Refusal>, output: &mut [u8; REPORT_BYTES]) -> usize
    ensures area { output.new ≡ over output.old 0 (text_of outcome.now) }
    ensures end { result ≡ length (text_of outcome.now) }
    ensures fits { result ≤ REPORT_BYTES }
{
    match outcome {
        Err(refusal) => tell_refused(refusal.number(), refusal.line().unwrap_or(0), output),
        Ok(Report::Unsatisfiable) => put_bytes(output, 0, b"NONE\n"),
        Ok(Report::Out(clause)) => put_out(output, *clause),
        Ok(Report::Shown(run)) => put_run(output, run),
    }
}
