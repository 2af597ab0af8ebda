// The bench program, on lines that are not of its grammar and calls that are refused.
#![tactic(auto)]

use std::process::ExitCode;

fn main(rt: HostRuntime) -> ExitCode {
    serve::status(&mut rt.stdin(), &mut rt.stdout())
}
