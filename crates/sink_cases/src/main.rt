// Edge cases of the sinks, one line each: the answer's number, 0 for accepted, and what the sink says then.
#![tactic(auto)]

ghost use Rattle.std.specs.Prelude.{◌≡◌};
ghost use Rattle.sink_cases.specs.Answers.{answer_number};

use cnf::clause::Literal;
use cnf::refusal::Refusal;
use cnf::sink::Sink;
use cnf::switch::{Switch, take_switched};
use sinks::judge::Judge;
use sinks::single::write_switched;
use sinks::writer::Writer;
use std::io;
use std::io::Write;

// 0 where a clause was taken, else the number of its refusal.
fn answer_number(answer: Result<(), Refusal>) -> u32
    ensures { result ≡ answer_number answer }
{
    answer.err().map_or(0, |refusal| refusal.number())
}

// Takes one clause into an empty writer over `area`, and prints the answer and the text.
fn show_writer(
    rt: &HostRuntime,
    name: &str,
    area: &mut [u8],
    clause: &[Literal],
) -> io::Result<()> {
    let mut writer = Writer::new(area);
    let free = writer.free_cells();
    let answer = answer_number(writer.take(clause));
    let bytes = writer.text().len();
    let count = writer.count();
    println!(rt; "{name}: {free} cells, answer {answer}, {count} clauses, {bytes} bytes")
}

fn show_lengths(rt: &HostRuntime) -> io::Result<()> {
    let clause = [Literal::negated(9999); 41];
    let cases: [(&str, &[Literal]); 4] = [
        ("no literal", &[]),
        ("one literal", &clause[0..1]),
        ("forty literals", &clause[0..40]),
        ("forty-one literals", &clause),
    ];
    // one area for all, so that a writer also begins over the bytes of an earlier one
    let mut area = [0; 400];
    for (name, clause) in cases {
        show_writer(rt, name, &mut area, clause)?;
    }
    Ok(())
}

fn show_variables(rt: &HostRuntime) -> io::Result<()> {
    let cases: [(&str, &[Literal]); 5] = [
        ("variable 0", &[Literal::asserted(0)]),
        ("variable 9999", &[Literal::asserted(9999)]),
        ("variable 10000", &[Literal::asserted(10000)]),
        ("the largest variable", &[Literal::negated(u32::MAX)]),
        (
            "a good and a bad variable",
            &[Literal::asserted(1), Literal::asserted(0)],
        ),
    ];
    // one area for all, so that a writer also begins over the bytes of an earlier one
    let mut area = [0; 400];
    for (name, clause) in cases {
        show_writer(rt, name, &mut area, clause)?;
    }
    Ok(())
}

fn show_free_bytes(rt: &HostRuntime) -> io::Result<()> {
    let clause = [Literal::asserted(1), Literal::asserted(2)];
    let cases: [(&str, usize, &[Literal]); 4] = [
        ("no byte", 0, &clause[0..1]),
        ("11 bytes", 11, &clause[0..1]),
        ("12 bytes", 12, &clause[0..1]),
        ("12 bytes, two literals", 12, &clause),
    ];
    for (name, bytes, clause) in cases {
        let mut area = [0; 12];
        show_writer(rt, name, &mut area[..bytes], clause)?;
    }
    Ok(())
}

// The clause 5 -6 through the switch 9, and a clause through switches that are no variables.
fn show_switches(rt: &HostRuntime) -> io::Result<()> {
    let mut area = [b'.'; 40];
    let clause = [Literal::asserted(5), Literal::negated(6)];
    match write_switched(&mut area, 9, &clause) {
        Ok(n) => println!(rt; "switch 9: {n} bytes")?,
        Err(refusal) => println!(rt; "switch 9: {}", refusal.number())?,
    }
    rt.stdout().write_all(&area)?;
    println!(rt; "")?;
    let mut writer = Writer::new(&mut area);
    let zero = answer_number(take_switched(&mut writer, 0, &clause));
    let high = answer_number(take_switched(&mut writer, 10000, &clause));
    let nothing = writer.text().len();
    println!(rt; "switch 0: {zero}, switch 10000: {high}, {nothing} bytes")
}

// A switch over a switch over a judge.
fn show_pile(rt: &HostRuntime) -> io::Result<()> {
    let mut pile = Switch::new(Switch::new(Judge::new(&[1, 1, 0]), 1), 2);
    let longest = pile.longest_clause();
    let free = pile.free_cells();
    let first = answer_number(pile.take(&[Literal::negated(3)]));
    let second = answer_number(pile.take(&[Literal::asserted(3)]));
    let third = answer_number(pile.take(&[Literal::asserted(4)]));
    let fault = pile.below.below.first_false();
    println!(rt;
        "pile: longest {longest}, {free} cells, answers {first} {second} {third}, first false {fault}"
    )
}

// A byte other than 1 is false, and the first false clause keeps its number.
fn show_judge(rt: &HostRuntime) -> io::Result<()> {
    let mut judge = Judge::new(&[1, 2, 0]);
    let highest = judge.highest_variable();
    let _ = judge.take(&[Literal::asserted(1)]);
    let before = judge.first_false();
    let _ = judge.take(&[Literal::asserted(2), Literal::asserted(3)]);
    let _ = judge.take(&[Literal::negated(1)]);
    let after = judge.first_false();
    let count = judge.count();
    let free = judge.free_cells();
    println!(rt;
        "judge: highest {highest}, first false {before} then {after}, {count} clauses, {free} cells"
    )
}

fn show_long_judge(rt: &HostRuntime) -> io::Result<()> {
    let state = [1u8; 10001];
    let mut judge = Judge::new(&state);
    let highest = judge.highest_variable();
    let last = answer_number(judge.take(&[Literal::asserted(9999)]));
    let past = answer_number(judge.take(&[Literal::asserted(10000)]));
    let count = judge.count();
    println!(rt; "long judge: highest {highest}, answers {last} {past}, {count} clauses")
}

fn main(rt: HostRuntime) -> io::Result<()> {
    show_lengths(&rt)?;
    show_variables(&rt)?;
    show_free_bytes(&rt)?;
    show_switches(&rt)?;
    show_pile(&rt)?;
    show_judge(&rt)?;
    show_long_judge(&rt)
}
