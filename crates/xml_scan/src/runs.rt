// Runs of bytes that pass a test: spaces, names, and both.
ghost use Rattle.std.specs.Prelude.{◌≡◌, Bool, ℕ, ◌+◌, ◌≤◌, length, drop};
ghost use Rattle.xml.specs.Bytes.{is_space};
ghost use Rattle.xml_classes.specs.Classes.{is_usual};
ghost use Rattle.xml.specs.Scan.{run, name_length};
ghost use Rattle.xml_scan.specs.Post.{Tells};

use xml_classes::{is_name_char, is_name_start, is_space, is_usual};

// Where the bytes that pass a test end, from a place on.
fn run_end<F: Fn(u8) -> bool>(text: &[u8], from: usize, passes: F) -> usize
    requires from_in_bounds { from ≤ length text.now }
    requires callable { F.IsAlwaysCallable passes }
    ensures { (test : ℕ → Bool) → Tells (F.post passes) test → result ≡ from + run test (drop from text.now) }
{
    let mut i = from;
    while i < text.len() {
        if !passes(text[i]) {
            return i;
        }
        i += 1;
    }
    i
}

// Where the spaces from a place on end.
pub fn blank_end(text: &[u8], from: usize) -> usize
    requires { from ≤ length text.now }
    ensures { result ≡ from + run is_space (drop from text.now) }
{
    run_end(text, from, is_space)
}

// Where the name at a place ends: the place itself where none stands there.
pub fn name_end(text: &[u8], from: usize) -> usize
    requires { from ≤ length text.now }
    ensures { result ≡ from + name_length (drop from text.now) }
{
    if from < text.len() {
        if is_name_start(text[from]) {
            return run_end(text, from + 1, is_name_char);
        }
    }
    from
}

// Where the spaces and bytes of names from a place on end: most of a sheet's text is such bytes, so they go by four a turn.
pub fn words_end(text: &[u8], from: usize) -> usize
    requires { from ≤ length text.now }
    ensures { result ≡ from + run is_usual (drop from text.now) }
{
    let mut i = from;
    while 4 <= text.len() - i {
        if !is_usual(text[i]) {
            return i;
        }
        if !is_usual(text[i + 1]) {
            return i + 1;
        }
        if !is_usual(text[i + 2]) {
            return i + 2;
        }
        if !is_usual(text[i + 3]) {
            return i + 3;
        }
        i += 4;
    }
    run_end(text, i, is_usual)
}
