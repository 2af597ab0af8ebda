// The bench program on the session of document 01.
#![tactic(auto)]

use std::process::ExitCode;

fn main(rt: HostRuntime) -> ExitCode {
    serve::status(&mut rt.stdin(), &mut rt.stdout())
}
