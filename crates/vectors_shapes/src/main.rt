// Runs the vectors of the calls between old and new tables (`vector_stream::run`).
#![tactic(auto)]

mod calls;

use std::io;
use vector_stream::run;

fn main(rt: HostRuntime) -> io::Result<()> {
    run::run_stream(&rt, &mut calls::Shapes)?;
    Ok(())
}
