// Scripts that are made from calls.
ghost use Rattle.std.specs.Prelude.{◌≡◌, replicate};

use crate::showing::show;
use calls::{beginning, defining};
use frames::scripts::write_call;
use job::call::Call;

// An assignment that makes every variable true.
pub fn filled() -> [u8; 100]
    ensures { result ≡ replicate 100 1 }
{
    [1; 100]
}

fn add(script: &mut Vec<u8>, call: Call) -> anyhow::Result<()> {
    script.extend_from_slice(write_call(call).as_slice())?;
    script.push(b'\n')?;
    Ok(())
}

// Shows the script of some calls.
pub fn show_script_of(rt: &HostRuntime, name: &str, calls: &[Call]) -> anyhow::Result<()> {
    let mut script = Vec::new(rt.alloc());
    for call in calls {
        add(&mut script, *call)?;
    }
    show(rt, name, &script)
}

// The script of a begin, a signal, some rows more and some requirements.
pub fn many(
    rt: &HostRuntime,
    bound: u8,
    rows: usize,
    row: Call,
    requirements: usize,
    requirement: Call,
) -> anyhow::Result<Vec<u8>> {
    let mut script = Vec::new(rt.alloc());
    add(&mut script, beginning(bound))?;
    add(&mut script, defining(1, 0, 0, 0))?;
    for _ in 0..rows {
        add(&mut script, row)?;
    }
    for _ in 0..requirements {
        add(&mut script, requirement)?;
    }
    Ok(script)
}
