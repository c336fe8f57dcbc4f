//! The program. It passes the streams of its process to the command.
#![tactic(auto)]

use simulation::run_process;
use std::process::ExitCode;

fn main(rt: HostRuntime) -> ExitCode {
    let mut input = rt.stdin();
    let mut output = rt.stdout();
    let mut errors = rt.stderr();
    ExitCode::from(run_process(&rt, &mut input, &mut output, &mut errors))
}
