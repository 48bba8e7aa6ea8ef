// What a rink asks of its plant: interlocks at one instant, and a rule over time.
#![tactic(auto)]

mod interlocks;
mod rules;

use interlocks::show_interlocks;
use rules::show_rules;

fn main(rt: HostRuntime) -> anyhow::Result<()> {
    show_interlocks(&rt)?;
    show_rules(&rt)
}
