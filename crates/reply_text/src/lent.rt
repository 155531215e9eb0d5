// The lines of replies, written into any lent bytes at a place. Each function replies the place after what it wrote; all other bytes
// stay. They are for a caller with bytes of its own: the line is put together as a list, and the list is copied.
ghost use Rattle.std.specs.Prelude.{[], ◌∷◌, ◌+◌, ◌≤◌, length};
ghost use Rattle.reply_text.specs.Text.{decimal, reply_line, tag_line, end_line, unknown_line};
ghost use Rattle.reply_text.specs.Post.{Written, LentRoom};

use byte_list::ByteList;

// No line is longer.
const LINE_SIZE: usize = 64;

// A word has at most ten digits.
const MOST_DIGITS: usize = 10;

// A list of bytes goes to a place of lent bytes; replies the place after it.
pub fn put<const N: usize>(out: &mut [u8], at: usize, text: &ByteList<N>) -> usize
    requires { at + N ≤ length out.old }
    ensures { Written out.old at text.now out.new result }
{
    let bytes = text.as_slice();
    let end = at + bytes.len();
    out[at..end].copy_from_slice(bytes);
    end
}

// The digits of a number.
pub fn put_number(out: &mut [u8], at: usize, n: u32) -> usize
    requires { at + 10 ≤ length out.old }
    ensures { Written out.old at (decimal n) out.new result }
{
    let mut text = ByteList::<MOST_DIGITS>::new();
    crate::put_number(&mut text, n);
    put(out, at, &text)
}

// The reply of an accepted call with one value, as a mark has. The next two have two and three values.
pub fn ok_one(out: &mut [u8], at: usize, a: u32) -> usize
    requires { LentRoom at out.old }
    ensures { Written out.old at (reply_line (0 ∷ a ∷ [])) out.new result }
{
    let mut text = ByteList::<LINE_SIZE>::new();
    crate::ok_line(&mut text, &[a]);
    put(out, at, &text)
}

pub fn ok_two(out: &mut [u8], at: usize, a: u32, b: u32) -> usize
    requires { LentRoom at out.old }
    ensures { Written out.old at (reply_line (0 ∷ a ∷ b ∷ [])) out.new result }
{
    let mut text = ByteList::<LINE_SIZE>::new();
    crate::ok_line(&mut text, &[a, b]);
    put(out, at, &text)
}

pub fn ok_three(out: &mut [u8], at: usize, a: u32, b: u32, c: u32) -> usize
    requires { LentRoom at out.old }
    ensures { Written out.old at (reply_line (0 ∷ a ∷ b ∷ c ∷ [])) out.new result }
{
    let mut text = ByteList::<LINE_SIZE>::new();
    crate::ok_line(&mut text, &[a, b, c]);
    put(out, at, &text)
}

// A refusal, as a line.
pub fn no_line(out: &mut [u8], at: usize, refusal: u32) -> usize
    requires { LentRoom at out.old }
    ensures { Written out.old at (reply_line (refusal ∷ [])) out.new result }
{
    let mut text = ByteList::<LINE_SIZE>::new();
    crate::no_line(&mut text, refusal);
    put(out, at, &text)
}

// A tag and its label, as a line.
pub fn tag_line(out: &mut [u8], at: usize, tag: u32, label: u32) -> usize
    requires { LentRoom at out.old }
    ensures { Written out.old at (tag_line tag label) out.new result }
{
    let mut text = ByteList::<LINE_SIZE>::new();
    crate::tag_line(&mut text, tag, label);
    put(out, at, &text)
}

// The end of a listing, with how many tags it has.
pub fn end_line(out: &mut [u8], at: usize, count: u32) -> usize
    requires { LentRoom at out.old }
    ensures { Written out.old at (end_line count) out.new result }
{
    let mut text = ByteList::<LINE_SIZE>::new();
    crate::end_line(&mut text, count);
    put(out, at, &text)
}

// The reply to a line that asks for nothing.
pub fn unknown_line(out: &mut [u8], at: usize) -> usize
    requires { LentRoom at out.old }
    ensures { Written out.old at unknown_line out.new result }
{
    let mut text = ByteList::<LINE_SIZE>::new();
    crate::unknown_line(&mut text);
    put(out, at, &text)
}
