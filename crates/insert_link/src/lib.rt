// The records of new tags, and their place along next.
#![tactic(auto)]

ghost use Rattle.std.specs.Prelude.{◌≡◌, map, ◌≤◌, ◌<◌, length};
ghost use Rattle.store_types.specs.Layout.{header_words};
ghost use Rattle.words.specs.Places.{PlaceThere};
ghost use Rattle.calls.specs.Kind.{kind_of};
ghost use Rattle.edit_model.specs.Insert.{linked_place, linked_next, facts_at, added_row, raised_words};
ghost use Rattle.insert_link.specs.Needs.{NewRowFits};

use load_record::Row;
use store_types::TagId;

// Tag n is the first behind a place.
fn link_place(words: &mut [u32], n: u32, place: TagId)
    requires { PlaceThere words.old place.0 }
    ensures { words.new ≡ linked_place words.old place.0 n }
{
    if place.is_none() {
        words::set_first(words, TagId(n));
    } else {
        words::set_next(words, place, TagId(n));
    }
}

// And the last one before the tag behind it, where there is one.
fn link_next(words: &mut [u32], n: u32, next: TagId)
    requires { PlaceThere words.old next.0 }
    ensures { words.new ≡ linked_next words.old next.0 n }
{
    if next.is_none() {
        return;
    }
    words::set_prior(words, next, TagId(n));
}

// Tags of these kinds, from number n on, go in behind a place, with the up and the depth that new tags have there.
pub fn add_row(words: &mut [u32], n: u32, kinds: &[u8], place: TagId)
    requires { NewRowFits words.old kinds.now n place.0 }
    ensures { words.new ≡ added_row words.old n place.0 (facts_at words.old n place.0 (map kind_of kinds.now)) }
{
    let next = words::places::behind(words, place);
    let up = words::places::up_at(words, place);
    let depth = words::places::depth_at(words, place);
    let end = n + kinds.len() as u32;
    let row = Row {
        first: n,
        end,
        prior: place,
        next,
    };
    load_tags::write_row(words, kinds, row, up, depth);
    link_place(words, n, place);
    link_next(words, end - 1, next);
    words::set_count(words, end);
}

// H is one higher than the root's last split.
pub fn raise(words: &mut [u32], split: usize)
    requires { (header_words ≤ length words.old) × (split < 4294967295) }
    ensures { words.new ≡ raised_words words.old split }
{
    let top = words::height_of(words) as usize;
    if top <= split {
        words::set_height(words, split as u32 + 1);
    }
}
