//! Answers the script on standard input on standard output.
#![tactic(auto)]

use std::process::ExitCode;
use wasmi_script_lib::{exit_status, run};

fn main(rt: HostRuntime) -> ExitCode {
    let outcome = run(rt.alloc(), &mut rt.stdin(), &mut rt.stdout());
    if let Err(error) = &outcome {
        // Where this can't be written either, the status still tells.
        let _ = eprintln!(rt; "wasmi_script: {error}");
    }
    ExitCode::from(exit_status(outcome))
}
