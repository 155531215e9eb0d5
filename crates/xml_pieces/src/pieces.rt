// What content holds beside elements: character data, references, CDATA sections, comments.
ghost use Rattle.std.specs.Prelude.{◌≡◌, true, false, [], ◌∷◌, ℕ, suc, ◌+◌, ◌≤◌, ◌<◌, length, drop};
ghost use Rattle.lists.specs.Fronts.{starts_with};
ghost use Rattle.xml.specs.Bytes.{less_than, comment_opens, cdata_opens};
ghost use Rattle.xml_pieces.specs.Outcome.{InText, ReadsOn};
ghost use Rattle.xml_pieces.specs.Pieces.{PieceRight, ConstructHere, MarkupHere};

use crate::kinds::put_text;
use crate::{Cursor, IN_TEXT, NOT_IN_TEXT, Piece};
use store_types::Refusal;
use xml_scan::bodies::{body_end, data_end};
use xml_scan::strings::{reference, stands};

// How many bytes the openers have, and either closer.
const COMMENT_OPENER: usize = 4;

const CDATA_OPENER: usize = 9;

const CLOSER: usize = 3;

// A reference or a run of character data.
fn text_run(text: &[u8], at: usize) -> Result<Piece, Refusal>
    requires { (at < length text.now) × (starts_with (less_than ∷ []) (drop at text.now) ≡ false) }
    ensures { PieceRight text.now at result }
{
    if text[at] == b'&' {
        let Some(n) = reference(text, at) else {
            return Err(Refusal::NotASheet);
        };
        return Ok(Piece::Text(at + n));
    }
    let Some(e) = data_end(text, at) else {
        return Err(Refusal::NotASheet);
    };
    Ok(Piece::Text(e))
}

// A comment, whose opener stands at a place.
fn comment(text: &[u8], at: usize) -> Result<Piece, Refusal>
    requires { (at + length comment_opens ≤ length text.now) × (starts_with comment_opens (drop at text.now) ≡ true) }
    ensures { PieceRight text.now at result }
{
    let Some(e) = body_end(text, at + COMMENT_OPENER, b"--") else {
        return Err(Refusal::NotASheet);
    };
    if stands(text, e, b"-->") {
        return Ok(Piece::Comment(e + CLOSER));
    }
    Err(Refusal::NotASheet)
}

// A CDATA section, whose opener stands at a place.
fn cdata(text: &[u8], at: usize) -> Result<Piece, Refusal>
    requires { (at + length cdata_opens ≤ length text.now) × (starts_with cdata_opens (drop at text.now) ≡ true) }
    ensures { PieceRight text.now at result }
{
    let Some(e) = body_end(text, at + CDATA_OPENER, b"]]>") else {
        return Err(Refusal::NotASheet);
    };
    Ok(Piece::Text(e + CLOSER))
}

// What begins with <! or <?.
fn markup(text: &[u8], at: usize) -> Result<Piece, Refusal>
    requires { (at < length text.now) × MarkupHere (drop at text.now) }
    ensures { PieceRight text.now at result }
{
    if stands(text, at, b"<!--") {
        return comment(text, at);
    }
    if stands(text, at, b"<![CDATA[") {
        return cdata(text, at);
    }
    if stands(text, at, b"<?") {
        return Err(Refusal::NotRead);
    }
    if stands(text, at, b"<!DOCTYPE") {
        return Err(Refusal::NotRead);
    }
    Err(Refusal::NotASheet)
}

// A construct that is neither an element nor an end tag.
fn construct(text: &[u8], at: usize) -> Result<Piece, Refusal>
    requires { (at < length text.now) × ConstructHere (drop at text.now) }
    ensures { PieceRight text.now at result }
{
    if stands(text, at, b"<") {
        return markup(text, at);
    }
    text_run(text, at)
}

// The same, with the kind of a text where one begins.
pub fn piece(text: &[u8], here: Cursor, kinds: &mut [u8]) -> Result<Cursor, Refusal>
    requires { InText text.now here × (here.at < length text.now) × ConstructHere (drop here.at text.now) }
    ensures { (depth : ℕ) → ReadsOn text.now depth here (suc here.at) kinds.old kinds.new result }
{
    let at = here.at;
    match construct(text, at)? {
        Piece::Text(e) => {
            let n = put_text(kinds, here.count, here.in_text == IN_TEXT);
            Ok(Cursor {
                at: e,
                count: n,
                in_text: IN_TEXT,
            })
        }
        Piece::Comment(e) => Ok(Cursor {
            at: e,
            count: here.count,
            in_text: NOT_IN_TEXT,
        }),
    }
}
