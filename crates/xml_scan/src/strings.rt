// Fixed strings, compared at a place of the text (document 02, CR 1): openers, closers and references.
ghost use Rattle.std.specs.Prelude.{◌≡◌, ◌≤◌, length, drop};
ghost use Rattle.lists.specs.Fronts.{starts_with};
ghost use Rattle.xml.specs.Scan.{reference_length};
ghost use Rattle.xml_scan.specs.Post.{nonzero};

// Whether a string stands at a place.
pub fn stands(text: &[u8], at: usize, string: &[u8]) -> bool
    requires { at ≤ length text.now }
    ensures { result ≡ starts_with string.now (drop at text.now) }
{
    if text.len() - at < string.len() {
        return false;
    }
    for (k, b) in string.iter().enumerate() {
        if text[at + k] != *b {
            return false;
        }
    }
    true
}

// The length of the reference at a place, if one stands there.
pub fn reference(text: &[u8], at: usize) -> Option<usize>
    requires { at ≤ length text.now }
    ensures { result ≡ nonzero (reference_length (drop at text.now)) }
{
    if stands(text, at, b"&lt;") {
        return Some(4);
    }
    if stands(text, at, b"&gt;") {
        return Some(4);
    }
    if stands(text, at, b"&amp;") {
        return Some(5);
    }
    if stands(text, at, b"&apos;") {
        return Some(6);
    }
    if stands(text, at, b"&quot;") {
        return Some(6);
    }
    None
}
