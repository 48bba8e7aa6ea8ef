// A rink's interlocks as clauses: written through a switch, then judged by two states of the plant.
ghost use Rattle.std.specs.Prelude.{◌≡◌, [], ◌∷◌};
ghost use Rattle.cnf.specs.Clauses.{negated};

use anyhow::anyhow;
use cnf::clause::Literal;
use cnf::refusal::Refusal;
use cnf::sink::Sink;
use cnf::switch::take_switched;
use sinks::judge::Judge;
use sinks::writer::Writer;
use std::io::Write;

// The parts of the plant, by their variables.
const PUMP: u32 = 1;

const COMPRESSOR: u32 = 2;

const DEFROST: u32 = 3;

const FAN: u32 = 4;

const FLOOD: u32 = 5;

// The interlocks bind only while this variable is true.
const ARMED: u32 = 9;

#[derive(Clone, Copy)]
struct Interlock {
    words: &'static str,
    clause: [Literal; 2],
}

// Where the part is on, the literal holds.
fn while_on(words: &'static str, part: u32, literal: Literal) -> Interlock
    ensures { result.clause ≡ negated part ∷ literal ∷ [] }
{
    Interlock {
        words,
        clause: [Literal::negated(part), literal],
    }
}

fn interlocks() -> [Interlock; 4] {
    [
        while_on(
            "the compressor runs only with the brine pump",
            COMPRESSOR,
            Literal::asserted(PUMP),
        ),
        while_on("no fan during defrost", DEFROST, Literal::negated(FAN)),
        while_on("no fan during a flood", FLOOD, Literal::negated(FAN)),
        while_on(
            "no compressor during defrost",
            DEFROST,
            Literal::negated(COMPRESSOR),
        ),
    ]
}

fn say_refused(rt: &HostRuntime, refusal: Refusal) -> anyhow::Result<()> {
    let number = refusal.number();
    println!(rt; "refused: {number}")?;
    Err(anyhow!("an interlock was refused"))
}

// Writes the interlocks behind the switch, and prints the lines.
fn write_all(rt: &HostRuntime, rules: &[Interlock]) -> anyhow::Result<()> {
    let mut area = [0u8; 256];
    let mut writer = Writer::new(&mut area);
    for rule in rules {
        take_switched(&mut writer, ARMED, &rule.clause).or_else(|refusal| say_refused(
            rt, refusal,
        ))?;
    }
    let count = writer.count();
    let free = writer.free_cells();
    println!(rt; "{count} interlocks behind switch {ARMED}, {free} cells free:")?;
    rt.stdout().write_all(writer.text())?;
    Ok(())
}

// Judges a state of the plant by the interlocks, and prints the verdict.
fn judge_all(
    rt: &HostRuntime,
    name: &str,
    rules: &[Interlock],
    state: &[u8],
) -> anyhow::Result<()> {
    let mut judge = Judge::new(state);
    for rule in rules {
        judge
            .take(&rule.clause)
            .or_else(|refusal| say_refused(rt, refusal))?;
    }
    match judge.first_false() {
        0 => println!(rt; "{name}: in")?,
        fault => {
            if let Some(rule) = rules.get(fault - 1) {
                println!(rt; "{name}: out, interlock {fault} is broken: {}", rule.words)?;
            }
        }
    }
    Ok(())
}

// Writes the interlocks, and judges two states of the plant.
pub fn show_interlocks(rt: &HostRuntime) -> anyhow::Result<()> {
    let rules = interlocks();
    write_all(rt, &rules)?;
    judge_all(rt, "pump and compressor on", &rules, &[1, 1, 0, 0, 0])?;
    judge_all(rt, "defrost with the fan on", &rules, &[1, 0, 1, 1, 0])
}
