// The bench program for its main in C, which returns the status answered here.
#![tactic(auto)]

ghost use Rattle.std.specs.Prelude.{◌≤◌};

use std::io::{Stdin, Stdout};

// 0 where all of the input could be read and every answer written, else 1. Standard input and output are handles of no bytes: C
// passes nothing.
#[unsafe(no_mangle)]
pub extern "C" fn bench_run(mut from: Stdin, mut to: Stdout) -> u32
    ensures { result ≤ 1 }
{
    u32::from(serve::run(&mut from, &mut to).is_err())
}
