// An answer as the line that the bench program prints.
#![tactic(auto)]

ghost use Rattle.std.specs.Prelude.{◌≡◌, ◌++◌, ◌+◌, ◌≤◌, length};
ghost use Rattle.arrayvec.specs.ArrayString.{array_string_len};
ghost use Rattle.rules.specs.Bench.{decimal, answer_line};

use arrayvec::ArrayString;
use itoa::Buffer;
use rules::Answer;

// A name and its number, behind what the line has. Not by `write!`, whose contract says what it wrote only where it says `Ok`.
fn field(line: &mut ArrayString<96>, name: &str, x: u32)
    requires { array_string_len line.old + length name.now + 10 ≤ 96 }
    ensures bytes { line.new.bytes ≡ line.old.bytes ++ (name.now ++ decimal x) }
    ensures len { array_string_len line.new ≤ array_string_len line.old + length name.now + 10 }
{
    let mut digits = Buffer::new();
    let number = digits.format(x);
    line.push_str(name);
    line.push_str(number);
}

// The line of an answer. Six fields of ten digits and their names are 96 bytes.
pub fn answer_line(answer: Answer) -> ArrayString<96>
    ensures { result.bytes ≡ answer_line answer }
{
    let mut line = ArrayString::new();
    field(&mut line, "code=", answer.code);
    field(&mut line, " bib=", answer.bib);
    field(&mut line, " at=", answer.at);
    field(&mut line, " status=", answer.status);
    field(&mut line, " time=", answer.time);
    field(&mut line, " reads=", answer.reads);
    line.push_str("\n");
    line
}
