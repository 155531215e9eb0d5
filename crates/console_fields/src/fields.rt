// Fields of a line: where the first ends.
ghost use Rattle.std.specs.Prelude.{option_map};
ghost use Rattle.console_fields.specs.Post.{Split};

// A line's first field, and what stands after its space; none where the line has no space.
pub fn split_field(line: &[u8]) -> (&[u8], Option<&[u8]>)
    ensures { Split line.now result.0.now (option_map (λ r. r.now) result.1) }
{
    match line.iter().position(|c| *c == b' ') {
        Some(end) => (&line[..end], Some(&line[end + 1..])),
        None => (line, None),
    }
}
