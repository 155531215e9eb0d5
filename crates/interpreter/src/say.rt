// What the calls reply, as text at the end of a list of bytes.
ghost use Rattle.std.specs.Prelude.{◌≡◌, ◌++◌, length};
ghost use Rattle.reply_text.specs.Text.{reply_line, tag_lines, end_line};
ghost use Rattle.reply_text.specs.Room.{LineRoom};
ghost use Rattle.store_types.specs.Replies.{numbered, count_numbers};
ghost use Rattle.calls.specs.Replies.{load_numbers, insert_numbers};
ghost use Rattle.interpreter.specs.Room.{out_size, ListingRoom};

use crate::Reply;
use store_types::{Inserted, Loaded, Refusal};

#[tactic(auto, unfolding(calls::specs::Replies::load_numbers, store_types::specs::Replies::numbered))]
pub fn loaded(reply: Result<Loaded, Refusal>, out: &mut Reply)
    requires { LineRoom out_size out.old }
    ensures { out.new ≡ out.old ++ reply_line (load_numbers (numbered reply)) }
{
    match reply {
        Ok(loaded) => reply_text::ok_line(out, &[loaded.tags, loaded.height]),
        Err(refusal) => reply_text::no_line(out, refusal.number()),
    }
}

#[tactic(auto, unfolding(calls::specs::Replies::insert_numbers, store_types::specs::Replies::numbered))]
pub fn inserted(reply: Result<Inserted, Refusal>, out: &mut Reply)
    requires { LineRoom out_size out.old }
    ensures { out.new ≡ out.old ++ reply_line (insert_numbers (numbered reply)) }
{
    match reply {
        Ok(inserted) => {
            reply_text::ok_line(out, &[inserted.first.0, inserted.moved, inserted.split]);
        }
        Err(refusal) => reply_text::no_line(out, refusal.number()),
    }
}

#[tactic(auto, unfolding(store_types::specs::Replies::count_numbers, store_types::specs::Replies::numbered))]
pub fn marked(reply: Result<u32, Refusal>, out: &mut Reply)
    requires { LineRoom out_size out.old }
    ensures { out.new ≡ out.old ++ reply_line (count_numbers (numbered reply)) }
{
    match reply {
        Ok(n) => reply_text::ok_line(out, &[n]),
        Err(refusal) => reply_text::no_line(out, refusal.number()),
    }
}

// Tags and their labels, a line each.
#[tactic(auto, using(crate::proofs::Listings::listing_steps))]
fn tag_lines(tags: &[u32], labels: &[u32], out: &mut Reply)
    requires { ListingRoom (length tags.now) out.old }
    ensures text { out.new ≡ out.old ++ tag_lines tags.now labels.now }
    ensures room { LineRoom out_size out.new }
{
    for (tag, label) in tags.iter().zip(labels) {
        reply_text::tag_line(out, *tag, *label);
    }
}

// All of a listing: its tags, then `end` and how many.
pub fn listed(tags: &[u32], labels: &[u32], out: &mut Reply)
    requires { ListingRoom (length tags.now) out.old }
    ensures { out.new ≡ out.old ++ (tag_lines tags.now labels.now ++ end_line (length tags.now)) }
{
    tag_lines(tags, labels, out);
    reply_text::end_line(out, tags.len() as u32);
}
