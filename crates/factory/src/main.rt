// The bench program on the session that ends a controller's assembly: a meeting loaded until its card is full.
#![tactic(auto)]

use std::process::ExitCode;

fn main(rt: HostRuntime) -> ExitCode {
    serve::status(&mut rt.stdin(), &mut rt.stdout())
}
