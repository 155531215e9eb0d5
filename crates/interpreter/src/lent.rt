// Lines answered over bytes that a caller lends, and a session over an input that comes in pieces, with its line in hand and its text
// to print at the front of such bytes. For a caller with bytes of its own: the entries over lists do the work.
ghost use Rattle.std.specs.Prelude.{◌≡◌, take, drop};
ghost use Rattle.reply_text.specs.Post.{Written};
ghost use Rattle.line_reader.specs.Reads.{last_line};
ghost use Rattle.interpreter.specs.Answer.{line_text, line_words};
ghost use Rattle.interpreter.specs.Session.{texts, words_behind};
ghost use Rattle.interpreter.specs.Lent.{LentSteps};

use crate::{LINE_BUFFER, OUT_SIZE, Reply};

// Where the next step begins, how many bytes of a line are in hand, and how long the text to print is.
#[derive(Clone, Copy)]
pub struct Progress {
    pub at: usize,
    pub held: usize,
    pub text: usize,
}

// A line without its line feed: the store after it, its reply at the front of `out`, and how long the reply is. The reply is put together
// in 44 KB of stack first.
pub fn answer(line: &[u8], words: &mut [u32], out: &mut [u8; OUT_SIZE]) -> usize
    ensures words { words.new ≡ line_words line.now words.old }
    ensures text { Written out.old 0 (line_text line.now words.old) out.new result }
{
    let mut text = Reply::new();
    crate::answer(line, words, &mut text);
    reply_text::lent::put(out, 0, &text)
}

// From a place of a piece to after its next line feed, where the line is answered; to the piece's end where there is none. Where the
// next step begins, and what is then in hand and to be printed.
pub fn step(
    piece: &[u8],
    from: usize,
    line: &mut [u8; LINE_BUFFER],
    held: usize,
    words: &mut [u32],
    out: &mut [u8; OUT_SIZE],
) -> Progress
    ensures { LentSteps (take held line.old) (drop from piece.now) words.old from line.new words.new out.old out.new result.at result.held result.text }
{
    let gathered = line_reader::lent::gather(piece, from, line, held);
    let at = gathered.at;
    let in_hand = gathered.held;
    if piece.len() <= at {
        return Progress {
            at,
            held: in_hand,
            text: 0,
        };
    }
    let text = answer(&line[..in_hand], words, out);
    Progress {
        at: at + 1,
        held: 0,
        text,
    }
}

// The end of the input: what is in hand is a line, where it has a byte. How long the text to print is.
pub fn finish(
    line: &[u8; LINE_BUFFER],
    held: usize,
    words: &mut [u32],
    out: &mut [u8; OUT_SIZE],
) -> usize
    ensures words { words.new ≡ words_behind words.old (last_line (take held line.now)) }
    ensures text { Written out.old 0 (texts words.old (last_line (take held line.now))) out.new result }
{
    if held == 0 {
        return 0;
    }
    let in_hand = line_reader::lent::within(held, line);
    answer(&line[..in_hand], words, out)
}
