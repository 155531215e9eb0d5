// The interpreter over a reader and a writer. No contract can say which bytes standard input gives and standard output takes;
// of a reader and a writer that know their bytes, as those over memory do, `run` says all that is printed of what was read.
#![tactic(auto)]

ghost use Rattle.std.specs.Prelude.{◌≡◌, ◌<◌, ◌≤◌, [], length, take, IfOk, IfSome, OnOk};
ghost use Rattle.std.specs.Io.{ReadsAtMost};
ghost use Rattle.std.specs.Io.KnownBytes.{Appends, Consumes, IsAtEnd};
ghost use Rattle.line_reader.specs.Lines.{lines};
ghost use Rattle.line_reader.specs.Reads.{last_line};
ghost use Rattle.interpreter.specs.Answer.{first_words};
ghost use Rattle.interpreter.specs.Session.{texts, Passed, Led};
ghost use Rattle.terminal.specs.Talk.{PassedOut, Told};

use interpreter::{BOOK_WORDS, Session};
use std::fmt;
use std::io::{self, ErrorKind, Read, Write};
use std::process::ExitCode;

// How many bytes of input are asked for at once.
const PIECE: usize = 65536;

// What ends a run before its input ends: a read or a write that failed.
#[derive(Debug, Drop)]
pub enum Stopped {
    Input(io::Error),
    Output(io::Error),
}

impl fmt::Display for Stopped {
    fn fmt<W: fmt::Write>(&self, f: &mut fmt::Formatter<W>) -> fmt::Result {
        match self {
            Stopped::Input(e) => write!(f, "book: standard input: {e}"),
            Stopped::Output(e) => write!(f, "book: standard output: {e}"),
        }
    }
}

// Bytes, written whole; where that fails, some of them may have gone out.
fn print<W: Write>(output: &mut W, bytes: &[u8]) -> Result<(), Stopped>
    ensures { OnOk result (Appends (W.contents output.old) (W.contents output.new) bytes.now) }
{
    output.write_all(bytes).map_err(Stopped::Output)
}

// One piece of the input; none at its end. Where it cannot be read, nothing was. A read that a signal interrupts is made again:
// a proved loop has to end, so that the tries are counted, to a number that no run uses up.
fn read_piece<R: Read>(input: &mut R, buffer: &mut [u8]) -> Result<usize, Stopped>
    ensures bound { ReadsAtMost result buffer.new }
    ensures bytes { IfOk result (λ n. Consumes (R.remaining input.old) (R.remaining input.new) (take n buffer.new)) }
    ensures end { IfOk result (λ n. n ≡ 0 → 0 < length buffer.old → IsAtEnd (R.remaining input.new)) }
{
    for _ in 0..u64::MAX {
        match input.read(buffer) {
            Ok(n) => return Ok(n),
            Err(e) => {
                if e.kind() != ErrorKind::Interrupted {
                    return Err(Stopped::Input(e));
                }
            }
        }
    }
    Err(Stopped::Input(io::Error::from(ErrorKind::Interrupted)))
}

// Every line that ends in a piece is answered. What is then in hand, and the store, are what the session's steps leave. Where a
// reply cannot be printed, no further line is answered.
fn serve<W: Write>(piece: &[u8], session: &mut Session<'_>, output: &mut W) -> Result<(), Stopped>
    ensures passed { OnOk result (Passed session.old.line session.old.words.now piece.now session.new.line session.new.words.now) }
    ensures printed { OnOk result (PassedOut session.old.line session.old.words.now piece.now session.new.line session.new.words.now (W.contents output.old) (W.contents output.new)) }
{
    let mut rest = piece;
    while !rest.is_empty() {
        let taken = session.step(rest);
        print(output, session.text.as_slice())?;
        rest = &rest[taken..];
    }
    Ok(())
}

// Piece by piece to the end of the input. Some pieces have led from the words at first to what is in hand and in the store; a
// last line is still in hand. Where a read fails, the lines that ended before it are answered.
fn serve_all<R: Read, W: Write>(
    input: &mut R,
    session: &mut Session<'_>,
    output: &mut W,
) -> Result<(), Stopped>
    ensures led { OnOk result (Led [] session.old.words.now session.new.line session.new.words.now) }
    ensures told { OnOk result (Told session.old.words.now session.new.line session.new.words.now (R.remaining input.old) (R.remaining input.new) (W.contents output.old) (W.contents output.new)) }
{
    session.line.clear();
    let mut buffer = [0u8; PIECE];
    for _ in 0..u64::MAX {
        let n = read_piece(input, &mut buffer)?;
        if n == 0 {
            return Ok(());
        }
        serve(&buffer[..n], session, output)?;
    }
    Err(Stopped::Input(io::Error::from(ErrorKind::Other)))
}

// The end of the input: a last line that lacks its line feed.
fn serve_last<W: Write>(session: &mut Session<'_>, output: &mut W) -> Result<(), Stopped>
    ensures { OnOk result (Appends (W.contents output.old) (W.contents output.new) (texts session.old.words.now (last_line session.old.line))) }
{
    session.finish();
    print(output, session.text.as_slice())
}

// The store that a run starts from: all words 0.
#[tactic(auto, unfolding(interpreter::specs::Answer::first_words))]
fn first_words() -> [u32; BOOK_WORDS]
    ensures { result ≡ first_words }
{
    [0u32; BOOK_WORDS]
}

// All of an input, over that store: what its lines print is written. A run that is stopped has written what the lines before
// print, and nothing behind that but some front of one reply.
pub fn run<R: Read, W: Write>(input: &mut R, output: &mut W) -> Result<(), Stopped>
    ensures { OnOk result (IfSome (R.remaining input.old)
        (λ xs. Appends (W.contents output.old) (W.contents output.new) (texts first_words (lines xs)))) }
{
    let mut words = first_words();
    let mut session = Session::new(&mut words);
    serve_all(input, &mut session, output)?;
    serve_last(&mut session, output)
}

// How a program ends behind a run: with status 0; where the run was stopped, with 1, and a message on standard error.
pub fn status(rt: &impl Eprint, ran: Result<(), Stopped>) -> ExitCode {
    match ran {
        Ok(()) => ExitCode::SUCCESS,
        Err(e) => {
            let _ = eprintln!(rt; "{e}");
            ExitCode::FAILURE
        }
    }
}

#[cfg(test)]
mod tests {
    use super::*;
    use std::test::Fail;

    // Gives its bytes three at a time; a signal interrupts each read once. Behind the last byte it ends, or fails.
    #[derive(Drop)]
    struct Trickle<'a> {
        left: &'a [u8],
        interrupted: bool,
        fails: bool,
    }

    impl Read for Trickle<'_> {
        fn read(&mut self, buf: &mut [u8]) -> io::Result<usize> {
            self.interrupted = !self.interrupted;
            if self.interrupted {
                return Err(io::Error::from(ErrorKind::Interrupted));
            }
            if self.left.is_empty() && self.fails {
                return Err(io::Error::from(ErrorKind::BrokenPipe));
            }
            let n = buf.len().min(3);
            self.left.read(&mut buf[..n])
        }
    }

    fn trickling(left: &[u8], fails: bool) -> Trickle<'_> {
        Trickle {
            left,
            interrupted: false,
            fails,
        }
    }

    // The printed book, by pieces that end anywhere.
    #[test]
    fn prints_the_book(rt: HostRuntime) -> Result<(), Fail> {
        let mut input = trickling(b"load 2 2 7 BBEBEE\ntext 2\ntext 2\nlist", false);
        let mut output = Vec::new(rt.alloc());
        let ran = run(&mut input, &mut output);
        assert!(rt; ran.is_ok());
        let want =
            b"ok 6 2\nok 6 1 0\nok 7 4 2\n0 0\n1 1\n2 3\n7 4\n6 9\n3 10\n4 12\n5 13\nend 8\n";
        assert_eq!(rt; output.as_slice(), want.as_slice());
        Ok(())
    }

    // Whole lines in front of a read that fails are answered, and what is in hand is not.
    #[test]
    fn stops_at_a_read(rt: HostRuntime) -> Result<(), Fail> {
        let mut input = trickling(b"list\n\nmark front", true);
        let mut output = Vec::new(rt.alloc());
        let ran = run(&mut input, &mut output);
        assert!(rt; matches!(ran, Err(Stopped::Input(_))));
        assert_eq!(rt; output.as_slice(), b"no 2\n?\n".as_slice());
        Ok(())
    }

    // A writer that has no room left is not asked again.
    #[test]
    fn stops_at_a_write(rt: HostRuntime) {
        let mut input = trickling(b"list\n\nmark front", false);
        let mut room = [0u8; 6];
        let mut output = &mut room[..];
        let ran = run(&mut input, &mut output);
        assert!(rt; matches!(ran, Err(Stopped::Output(_))));
        assert_eq!(rt; room.as_slice(), b"no 2\n?".as_slice());
    }

    #[test]
    fn says_what_failed(rt: HostRuntime) -> Result<(), Fail> {
        let e = Stopped::Input(io::Error::from_raw_os_error(5));
        assert_eq!(rt;
            format!(in rt.alloc(); "{e}")?.as_str(),
            "book: standard input: Input/output error (os error 5)"
        );
        let e = Stopped::Output(io::Error::from_raw_os_error(28));
        assert_eq!(rt;
            format!(in rt.alloc(); "{e}")?.as_str(),
            "book: standard output: No space left on device (os error 28)"
        );
        Ok(())
    }
}
