// Runs the vectors of the fleets (`vector_stream::run`).
#![tactic(auto)]

mod calls;
mod slots;

use std::io;
use vector_stream::run;

fn main(rt: HostRuntime) -> io::Result<()> {
    run::run_stream(&rt, &mut slots::Fleet::new())?;
    Ok(())
}
