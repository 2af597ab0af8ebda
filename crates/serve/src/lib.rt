// The bench program but for its main: the loop that takes the input byte by byte and answers each line when it ends.
#![tactic(auto)]

ghost use Rattle.std.specs.Prelude.{◌≡◌, IfSome, OnOk};
ghost use Rattle.std.specs.Io.KnownBytes.{Appends};
ghost use Rattle.std.specs.Process.{exit_status};
ghost use Rattle.rules.specs.Bench.{bench};

mod bench;

use arrayvec::ArrayVec;
use bench::Bench;
use std::io::{self, Read, Write};
use std::process::ExitCode;

// The program: its input by lines, a line of answer for each. An error where not all could be read or written.
pub fn run<R: Read, W: Write>(from: &mut R, to: &mut W) -> io::Result<()>
    ensures told { OnOk result (IfSome (R.remaining from.old) (λ input. Appends (W.contents to.old) (W.contents to.new) (bench input))) }
{
    let mut buf = [0u8; 4096];
    // Made in place: a `new` would hand the whole buffer back by value.
    let mut bench = Bench {
        card: [0; 65536],
        len: 0,
        line: ArrayVec::new(),
    };
    bench.serve(from, to, &mut buf)
}

// The program, and the status that it ends with: success says that all of the input is answered.
pub fn status<R: Read, W: Write>(from: &mut R, to: &mut W) -> ExitCode
    ensures told { exit_status result ≡ 0 → IfSome (R.remaining from.old) (λ input. Appends (W.contents to.old) (W.contents to.new) (bench input)) }
{
    match run(from, to) {
        Ok(()) => ExitCode::SUCCESS,
        Err(_) => ExitCode::FAILURE,
    }
}
