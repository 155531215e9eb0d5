// Replies as lines of text. Each function writes at the end of a list of bytes.
#![tactic(auto)]

ghost use Rattle.std.specs.Prelude.{◌≡◌, [], ◌∷◌, ◌++◌, ◌+◌, ◌*◌, ◌≤◌, length};
ghost use Rattle.reply_text.specs.Text.{decimal, spaced, reply_line, tag_line, end_line, unknown_line};
ghost use Rattle.reply_text.specs.Room.{LineRoom};

use byte_list::ByteList;

pub mod lent;

// The digits of a number, the highest first. A word has at most ten.
#[tactic(auto, using(crate::proofs::Digits::digit_steps))]
pub fn put_number<const N: usize>(out: &mut ByteList<N>, n: u32)
    requires { length out.old + 10 ≤ N }
    ensures { out.new ≡ out.old ++ decimal n }
{
    if n < 10 {
        out.push(&[b'0' + n as u8]);
        return;
    }
    put_number(out, n / 10);
    out.push(&[b'0' + (n % 10) as u8]);
}

// A word, some numbers, each after a space, and the line feed.
#[tactic(auto, using(crate::proofs::Writes::line_steps))]
fn put_line<const N: usize>(out: &mut ByteList<N>, word: &[u8], numbers: &[u32])
    requires { length out.old + length word.now + 11 * length numbers.now + 1 ≤ N }
    ensures { out.new ≡ out.old ++ (word.now ++ (spaced numbers.now ++ (10 ∷ []))) }
{
    out.push(word);
    for n in numbers {
        out.push(b" ");
        put_number(out, *n);
    }
    out.push(b"\n");
}

// The reply of a call that was made, with its values.
#[tactic(auto, unfolding(crate::specs::Text::reply_line))]
pub fn ok_line<const N: usize>(out: &mut ByteList<N>, values: &[u32])
    requires room { LineRoom N out.old }
    requires few { length values.now ≤ 5 }
    ensures { out.new ≡ out.old ++ reply_line (0 ∷ values.now) }
{
    put_line(out, b"ok", values);
}

// A reply of one number: a refusal. None is 0, which would be an `ok` without values; it costs a test here, and spares
// each caller the proof.
#[tactic(auto, unfolding(crate::specs::Text::reply_line))]
pub fn no_line<const N: usize>(out: &mut ByteList<N>, refusal: u32)
    requires { LineRoom N out.old }
    ensures { out.new ≡ out.old ++ reply_line (refusal ∷ []) }
{
    if refusal == 0 {
        ok_line(out, &[]);
        return;
    }
    put_line(out, b"no", &[refusal]);
}

// A tag of a listing, and its label.
#[tactic(auto, using(crate::proofs::Writes::line_steps), unfolding(crate::specs::Text::tag_line))]
pub fn tag_line<const N: usize>(out: &mut ByteList<N>, tag: u32, label: u32)
    requires { LineRoom N out.old }
    ensures { out.new ≡ out.old ++ tag_line tag label }
{
    put_number(out, tag);
    put_line(out, b"", &[label]);
}

// The last line of a listing: how many tags it has.
#[tactic(auto, unfolding(crate::specs::Text::end_line))]
pub fn end_line<const N: usize>(out: &mut ByteList<N>, count: u32)
    requires { LineRoom N out.old }
    ensures { out.new ≡ out.old ++ end_line count }
{
    put_line(out, b"end", &[count]);
}

// The reply to a line that asks for nothing.
#[tactic(auto, unfolding(crate::specs::Text::unknown_line))]
pub fn unknown_line<const N: usize>(out: &mut ByteList<N>)
    requires { LineRoom N out.old }
    ensures { out.new ≡ out.old ++ unknown_line }
{
    out.push(b"?\n");
}
