// Runs the vectors of the three edits (`vector_stream::run`).
#![tactic(auto)]

mod calls;

use std::io;
use vector_stream::run;

fn main(rt: HostRuntime) -> io::Result<()> {
    run::run_stream(&rt, &mut calls::Edits)?;
    Ok(())
}
