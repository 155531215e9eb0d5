// Load: validates first, then writes (document 01, "Calls and their replies"). Any old content is accepted.
#![tactic(auto)]

ghost use Rattle.std.specs.Prelude.{◌≡◌, ◌≤◌, length};
ghost use Rattle.store_types.specs.Layout.{header_words};
ghost use Rattle.store_types.specs.Replies.{numbered};
ghost use Rattle.lists.specs.Fronts.{in_front};
ghost use Rattle.calls.specs.Replies.{load_reply, load_words};
ghost use Rattle.load_call.specs.Header.{first_number, header_new};

use store_types::{Loaded, Refusal, TagId};

// The first of n tags.
fn first_tag(n: u32) -> TagId
    ensures { result.0 ≡ first_number n }
{
    if n == 0 {
        return TagId::NONE;
    }
    TagId(0)
}

fn write_header(words: &mut [u32], s: u32, r: u32, h: u32, n: u32, book: u32)
    requires { header_words ≤ length words.old }
    ensures { words.new ≡ in_front (header_new s r h n book) words.old }
{
    let first = first_tag(n);
    words[words::AT_VERSION] = words::VERSION;
    words[words::AT_S] = s;
    words[words::AT_R] = r;
    words[words::AT_HEIGHT] = h;
    words[words::AT_COUNT] = n;
    words[words::AT_FIRST] = first.0;
    words[words::AT_BOOK] = book;
    words[words::AT_STAMP] = 0;
}

pub fn load(s: u32, r: u32, book: u32, kinds: &[u8], words: &mut [u32]) -> Result<Loaded, Refusal>
    ensures reply { numbered result ≡ load_reply s r book kinds.now words.old }
    ensures words { words.new ≡ load_words s r book kinds.now words.old }
{
    load_refuse::check_load(words.len(), s, r, kinds)?;
    let n = kinds.len() as u32;
    let under = load_refuse::load_under(n as u64, r as u64);
    let h = under + 1;
    // The last refusal goes by the height; nothing has been written yet.
    if !shape::height_fits(s, r, h) {
        return Err(Refusal::OutOfLabels);
    }
    write_header(words, s, r, h, n, book);
    let widths = shape::widths(words);
    load_tags::write_tags(words, kinds, r as u64, under as usize, &widths);
    Ok(Loaded { tags: n, height: h })
}
