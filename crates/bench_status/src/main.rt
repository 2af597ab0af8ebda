// The bench program on a session with all four statuses.
#![tactic(auto)]

use std::process::ExitCode;

fn main(rt: HostRuntime) -> ExitCode {
    serve::status(&mut rt.stdin(), &mut rt.stdout())
}
