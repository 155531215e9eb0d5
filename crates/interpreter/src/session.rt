// A session over an input that comes in pieces: a line is put together until its line feed comes, then answered.
ghost use Rattle.std.specs.Prelude.{◌≡◌, []};
ghost use Rattle.line_reader.specs.Reads.{last_line};
ghost use Rattle.interpreter.specs.Session.{texts, words_behind, Steps};

use crate::reply::answer;
use crate::{Line, Reply};

// A lent store, a line in hand, and what is to be printed for the last line that was answered.
#[derive(Drop)]
pub struct Session<'a> {
    pub words: &'a mut [u32],
    pub line: Line,
    pub text: Reply,
}

impl<'a> Session<'a> {
    // Nothing is in hand, and nothing is to be printed.
    pub fn new(words: &'a mut [u32]) -> Self
        ensures same_reference { result.words.ghost_name ≡ words.entry.ghost_name }
        ensures words { result.words.now ≡ words.old }
        ensures line { result.line ≡ [] }
        ensures text { result.text ≡ [] }
    {
        Session {
            words,
            line: Line::new(),
            text: Reply::new(),
        }
    }

    // From a piece's front to after its first line feed, where the line is answered; to the piece's end, with nothing to print,
    // where there is none. How many bytes of the piece that is.
    pub fn step(&mut self, piece: &[u8]) -> usize
        ensures same_reference { self.new.words.ghost_name ≡ self.old.words.ghost_name }
        ensures steps { Steps self.old.line piece.now self.old.words.now self.new.line self.new.words.now self.new.text result }
    {
        let taken = line_reader::gather(piece, &mut self.line);
        if taken == piece.len() {
            self.text.clear();
            return taken;
        }
        let Session { words, line, text } = self;
        answer(line.as_slice(), words, text);
        line.clear();
        taken + 1
    }

    // The end of the input: what is in hand is a line, where it has a byte.
    pub fn finish(&mut self)
        ensures same_reference { self.new.words.ghost_name ≡ self.old.words.ghost_name }
        ensures line { self.new.line ≡ self.old.line }
        ensures words { self.new.words.now ≡ words_behind self.old.words.now (last_line self.old.line) }
        ensures text { self.new.text ≡ texts self.old.words.now (last_line self.old.line) }
    {
        let Session { words, line, text } = self;
        match line.as_slice() {
            [] => text.clear(),
            last => answer(last, words, text),
        }
    }
}
