// The bench between two bytes of its input, and what a byte does to it.
ghost use Rattle.std.specs.Prelude.{◌≡◌, ◌<◌, [], length, IfSome, OnOk};
ghost use Rattle.std.specs.Io.KnownBytes.{Appends};
ghost use Rattle.session.specs.Cards.{Room};

use arrayvec::ArrayVec;
use std::io::{self, ErrorKind, Read, Write};

// The card, the first `len` bytes of its buffer, and what is kept of the line that is being read.
#[derive(Drop)]
pub struct Bench {
    pub card: [u8; 65536],
    pub len: usize,
    pub line: ArrayVec<u8, 128>,
    ghost holds: { Room card len },
}

impl Bench {
    ghost use Rattle.rules.specs.Bench.{bench_line, answer_line, bench};
    ghost use Rattle.serve.specs.Feeds.{card_of, fed_on, byte_on, fed, heard, last_heard, said};

    // The line is answered, and the answer written.
    fn respond<W: Write>(&mut self, to: &mut W) -> io::Result<()>
        ensures kept { self.new.line.items ≡ [] }
        ensures card_after { card_of self.new ≡ (bench_line (card_of self.old) self.old.line.items).card }
        ensures out_after { OnOk result (Appends (W.contents to.old) (W.contents to.new) (answer_line (bench_line (card_of self.old) self.old.line.items).answer)) }
    {
        let done = session::act(&mut self.card, self.len, self.line.as_slice());
        self.len = done.len;
        self.line.clear();
        let answer = reply::answer_line(done.answer);
        to.write_all(answer.as_bytes())
    }

    // One byte of the input. An answer is written before the next byte is looked at.
    fn byte<W: Write>(&mut self, to: &mut W, b: u8) -> io::Result<()>
        ensures fed_after { fed_on self.new ≡ byte_on (card_of self.old) self.old.line.items b }
        ensures out_after { OnOk result (Appends (W.contents to.old) (W.contents to.new) (heard (card_of self.old) self.old.line.items b)) }
    {
        let ends = b == b'\n';
        if ends {
            return self.respond(to);
        }
        // What the line has no room for is dropped: no line of the grammar fills it.
        let _ = self.line.try_push(b);
        Ok(())
    }

    // The bytes of one read. Where an answer cannot be written, nothing more is done.
    fn chunk<W: Write>(&mut self, to: &mut W, got: &[u8]) -> io::Result<()>
        ensures fed_after { OnOk result (fed_on self.new ≡ fed (card_of self.old) self.old.line.items got.now) }
        ensures out_after { OnOk result (Appends (W.contents to.old) (W.contents to.new) (said (card_of self.old) self.old.line.items got.now)) }
    {
        for b in got {
            self.byte(to, *b)?;
        }
        Ok(())
    }

    // A final line without its newline counts unless empty.
    fn finish<W: Write>(&mut self, to: &mut W) -> io::Result<()>
        ensures { OnOk result (Appends (W.contents to.old) (W.contents to.new) (last_heard (card_of self.old) self.old.line.items)) }
    {
        let empty = self.line.is_empty();
        if empty { Ok(()) } else { self.respond(to) }
    }

    // All of the input, a read at a time. A proved loop has to end, so its turns are counted, up to a number that no run uses up.
    // Where the reader's and the writer's bytes are known, what stands written then is what the rules answer to the whole input.
    pub fn serve<R: Read, W: Write>(
        &mut self,
        from: &mut R,
        to: &mut W,
        buf: &mut [u8],
    ) -> io::Result<()>
        requires { (self.old.len ≡ 0) × (self.old.line.items ≡ []) }
        ensures told { 0 < length buf.old → OnOk result (IfSome (R.remaining from.old) (λ input. Appends (W.contents to.old) (W.contents to.new) (bench input))) }
    {
        for _ in 0..u64::MAX {
            let n = from.read(buf)?;
            if n == 0 {
                return self.finish(to);
            }
            self.chunk(to, &buf[..n])?;
        }
        Err(ErrorKind::Other.into())
    }
}
