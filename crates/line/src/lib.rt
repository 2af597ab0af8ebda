// The call that a line of the bench program asks for, its fields read one name and one number at a time.
#![tactic(auto)]

ghost use Rattle.std.specs.Prelude.{◌≡◌, [], length, MatchOption};
ghost use Rattle.rules.specs.Calls.{format_call, post_call, strike_call, look_call, next_call};
ghost use Rattle.rules.specs.Plain.{and_then};
ghost use Rattle.rules.specs.Bench.{digits, numbers, format_names, post_names, strike_names, look_names, next_names, two, four, parsed};
ghost use Rattle.line.specs.Fields.{Begins, Reads, run_on, number_in, field_in, texts};
ghost use Rattle.line.specs.Requests.{asked, Finds};

// A call that a line asks for.
#[derive(Clone, Copy, Debug, PartialEq, Eq)]
pub enum Request {
    Format {
        buckets: u32,
        sectors: u32,
        td: u32,
        ti: u32,
    },
    Post {
        bib: u32,
        at: u32,
        status: u32,
        time: u32,
    },
    Strike {
        bib: u32,
        at: u32,
    },
    Look {
        bib: u32,
        at: u32,
    },
    Next {
        bib: u32,
        at: u32,
    },
}

// The digit that begins the line, and what follows it.
fn digit(line: &[u8]) -> Option<(u32, &[u8])>
    ensures { MatchOption result (digits line.now ≡ []) (λ d. Begins line.now d.0 d.1.now) }
{
    let (first, rest) = line.split_first()?;
    let value = char::from(*first).to_digit(10)?;
    Some((value, rest))
}

// The number that the digits make, and what follows them. It is given up as soon as it is past 4294967295.
fn run(line: &[u8]) -> Option<(u32, &[u8])>
    ensures { Reads result (run_on 0 line.now) }
{
    let mut value: u32 = 0;
    let mut rest = line;
    while let Some((next, after)) = digit(rest) {
        let tens = value.checked_mul(10)?;
        value = tens.checked_add(next)?;
        rest = after;
    }
    Some((value, rest))
}

// A plain decimal at the line's start, and what follows it: 0 stands alone.
fn number(line: &[u8]) -> Option<(u32, &[u8])>
    ensures { Reads result (number_in line.now) }
{
    let (first, rest) = digit(line)?;
    let zero = first == 0;
    let leading_zero = zero && digit(rest).is_some();
    if leading_zero { None } else { run(line) }
}

// The number behind this name, and what follows it.
fn field<'a>(line: &'a [u8], name: &[u8]) -> Option<(u32, &'a [u8])>
    ensures { Reads result (field_in name.now line.now) }
{
    number(line.strip_prefix(name)?)
}

// The numbers behind these names, one field after the other and nothing behind the last.
fn numbers<const N: usize>(line: &[u8], names: &[&[u8]]) -> Option<[u32; N]>
    requires { length names.now ≡ N }
    ensures { Finds result (numbers (texts names.now) line.now) }
{
    let mut found = [0; N];
    let mut rest = line;
    for (i, name) in names.iter().enumerate() {
        let (value, after) = field(rest, name)?;
        found[i] = value;
        rest = after;
    }
    rest.is_empty().then_some(found)
}

// The grammar's rows have a function each: what they share is `numbers`.
fn format_line(line: &[u8]) -> Option<Request>
    ensures { asked result ≡ and_then (numbers format_names line.now) (four format_call) }
{
    let [buckets, sectors, td, ti] = numbers::<4>(
        line,
        &[b"op=format buckets=", b" sectors=", b" td=", b" ti="],
    )?;
    Some(Request::Format {
        buckets,
        sectors,
        td,
        ti,
    })
}

fn post_line(line: &[u8]) -> Option<Request>
    ensures { asked result ≡ and_then (numbers post_names line.now) (four post_call) }
{
    let [bib, at, status, time] = numbers::<4>(
        line,
        &[b"op=post bib=", b" at=", b" status=", b" time="],
    )?;
    Some(Request::Post {
        bib,
        at,
        status,
        time,
    })
}

fn strike_line(line: &[u8]) -> Option<Request>
    ensures { asked result ≡ and_then (numbers strike_names line.now) (two strike_call) }
{
    let [bib, at] = numbers::<2>(line, &[b"op=strike bib=", b" at="])?;
    Some(Request::Strike { bib, at })
}

fn look_line(line: &[u8]) -> Option<Request>
    ensures { asked result ≡ and_then (numbers look_names line.now) (two look_call) }
{
    let [bib, at] = numbers::<2>(line, &[b"op=look bib=", b" at="])?;
    Some(Request::Look { bib, at })
}

fn next_line(line: &[u8]) -> Option<Request>
    ensures { asked result ≡ and_then (numbers next_names line.now) (two next_call) }
{
    let [bib, at] = numbers::<2>(line, &[b"op=next bib=", b" at="])?;
    Some(Request::Next { bib, at })
}

// What the line asks for, if it is of the grammar.
pub fn parse(line: &[u8]) -> Option<Request>
    ensures { asked result ≡ parsed line.now }
{
    format_line(line)
        .or_else(|| post_line(line))
        .or_else(|| strike_line(line))
        .or_else(|| look_line(line))
        .or_else(|| next_line(line))
}
