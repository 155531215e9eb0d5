// Runs every entry, and meets every refusal from 1 to 11, and 15 and 16. What it writes is compared with the file stdout, which is
// worked out by hand from documents 01 and 02.
#![tactic(auto)]

use std::io;
use store_types::{Answer, HeldPair, Label, Refusal, TagId, file};

// Writes what a call replied: its numbers, or the refusal's.
fn tell<const N: usize>(
    rt: &impl Print,
    call: &str,
    reply: Result<[u32; N], Refusal>,
) -> io::Result<()> {
    print!(rt; "{call}")?;
    match reply {
        Ok(numbers) => {
            for number in numbers {
                print!(rt; " {number}")?;
            }
            println!(rt; "")
        }
        Err(refusal) => println!(rt; " no {}", refusal.number()),
    }
}

fn load(rt: &impl Print, s: u32, r: u32, kinds: &[u8], words: &mut [u32]) -> io::Result<()> {
    let reply = store::load(s, r, 7, kinds, words);
    tell(rt, "load", reply.map(|l| [l.tags, l.height]))
}

fn insert(rt: &impl Print, kind: u8, place: TagId, words: &mut [u32]) -> io::Result<()> {
    let reply = store::insert(kind, place, words);
    tell(rt, "insert", reply.map(|i| [i.first.0, i.moved, i.split]))
}

fn insert_sheet(rt: &impl Print, kinds: &[u8], place: TagId, words: &mut [u32]) -> io::Result<()> {
    let reply = store::insert_sheet(kinds, place, words);
    tell(rt, "sheet", reply.map(|i| [i.first.0, i.moved, i.split]))
}

fn mark(rt: &impl Print, tag: TagId, words: &mut [u32]) -> io::Result<()> {
    tell(rt, "mark", store::mark(tag, words).map(|n| [n]))
}

fn hold(rt: &impl Print, tag: TagId, words: &[u32]) -> io::Result<()> {
    let reply = store::hold(tag, words);
    tell(
        rt,
        "hold",
        reply.map(|p| [p.book, p.tag.0, p.start.0, p.end.0]),
    )
}

fn pair(book: u32, tag: u32, start: u32, end: u32) -> HeldPair {
    HeldPair {
        book,
        tag: TagId(tag),
        start: Label(start),
        end: Label(end),
    }
}

fn ask(rt: &impl Print, pair: HeldPair, tag: TagId, words: &[u32]) -> io::Result<()> {
    match store::question(pair, tag, words) {
        Ok(Answer::Yes) => println!(rt; "ask yes"),
        Ok(Answer::No) => println!(rt; "ask no, not inside"),
        Ok(Answer::Stale) => println!(rt; "ask stale"),
        Err(refusal) => println!(rt; "ask no {}", refusal.number()),
    }
}

fn list(
    rt: &impl Print,
    begin: TagId,
    words: &[u32],
    tags: &mut [u32],
    labels: &mut [u32],
) -> io::Result<()> {
    match store::list(begin, words, tags, labels) {
        Ok(n) => {
            print!(rt; "list {n}")?;
            for (tag, label) in tags.iter().zip(labels.iter()).take(n as usize) {
                print!(rt; " {tag} {label}")?;
            }
            println!(rt; "")
        }
        Err(refusal) => println!(rt; "list no {}", refusal.number()),
    }
}

fn write(rt: &impl Print, words: &[u32], bytes: &mut [u8]) -> io::Result<()> {
    tell(rt, "write", store::write_file(words, bytes).map(|n| [n]))
}

fn read(rt: &impl Print, bytes: &[u8], words: &mut [u32]) -> io::Result<()> {
    let reply = store::read_file(bytes, words);
    tell(rt, "read", reply.map(|l| [l.tags, l.height]))
}

// Specimens H, I and J: pairs held before the printed case of document 01.
fn holds(rt: &impl Print, words: &mut [u32]) -> io::Result<()> {
    load(rt, 2, 2, b"\x01\x01\x02\x01\x02\x02", words)?;
    hold(rt, TagId(3), words)?;
    hold(rt, TagId(1), words)?;
    hold(rt, TagId(0), words)
}

// Its two insertions, and what the pairs then get.
fn insertions(rt: &impl Print, words: &mut [u32]) -> io::Result<()> {
    insert(rt, 3, TagId(2), words)?;
    ask(rt, pair(7, 3, 4, 6), TagId(6), words)?;
    ask(rt, pair(7, 0, 0, 7), TagId(6), words)?;
    insert(rt, 3, TagId(2), words)?;
    ask(rt, pair(7, 1, 1, 3), TagId(6), words)?;
    ask(rt, pair(7, 0, 0, 7), TagId(6), words)
}

// Words for the tags of each part: 8, 3, 128, 12 and 1,024; words and bytes of the printed load, and where the stamp is in its file.
const PRINTED_WORDS: usize = words::HEADER_WORDS + words::TAG_WORDS * 8;

const FEW_WORDS: usize = words::HEADER_WORDS + words::TAG_WORDS * 3;

const LIMIT_WORDS: usize = words::HEADER_WORDS + words::TAG_WORDS * 128;

const SHEET_WORDS: usize = words::HEADER_WORDS + words::TAG_WORDS * 12;

const LONG_WORDS: usize = words::HEADER_WORDS + words::TAG_WORDS * 1024;

const LOADED_WORDS: usize = words::HEADER_WORDS + words::TAG_WORDS * 6;

const LOADED_BYTES: usize = file::ROW_BYTES + file::ROW_BYTES * 6 + file::END_BYTES;

const STAMP_BYTE: usize = file::FRONT_BYTES + file::WORD_BYTES * 6;

// The printed case of document 01.
fn printed(rt: &impl Print) -> io::Result<()> {
    let mut words = [0u32; PRINTED_WORDS];
    let mut tags = [0u32; 8];
    let mut labels = [0u32; 8];
    holds(rt, &mut words)?;
    insertions(rt, &mut words)?;
    list(rt, TagId::NONE, &words, &mut tags, &mut labels)?;
    list(rt, TagId(0), &words, &mut tags, &mut labels)?;
    insert(rt, 3, TagId::NONE, &mut words)
}

// Refusals of words that say no store, and of loads; the last load is accepted.
fn loads(rt: &impl Print, words: &mut [u32]) -> io::Result<()> {
    mark(rt, TagId::NONE, words)?;
    load(rt, 1, 2, b"", words)?;
    load(rt, 2, 2, b"\x03\x03\x03\x03", words)?;
    load(rt, 2, 2, b"\x01\x04", words)?;
    load(rt, 2, 2, b"\x01\x03", words)?;
    load(rt, 2, 2, b"\x01\x02", words)
}

// Of insertions, mark and hold, on one element.
fn tags_refused(rt: &impl Print, words: &mut [u32]) -> io::Result<()> {
    insert(rt, 2, TagId(9), words)?;
    insert(rt, 3, TagId(2), words)?;
    insert(rt, 1, TagId(0), words)?;
    mark(rt, TagId(1), words)?;
    hold(rt, TagId(1), words)?;
    insert(rt, 3, TagId(0), words)
}

// Of pairs, and of tags that are marked.
fn marks(rt: &impl Print, words: &mut [u32]) -> io::Result<()> {
    ask(rt, pair(8, 0, 0, 2), TagId(2), words)?;
    ask(rt, pair(7, 0, 0, 2), TagId(2), words)?;
    mark(rt, TagId(2), words)?;
    ask(rt, pair(7, 0, 0, 2), TagId(2), words)?;
    mark(rt, TagId(2), words)?;
    mark(rt, TagId(0), words)?;
    ask(rt, pair(7, 0, 0, 2), TagId(1), words)?;
    hold(rt, TagId(1), words)
}

// Refusals, each at least once, in a store for 3 tags.
fn refusals(rt: &impl Print) -> io::Result<()> {
    let mut words = [0u32; FEW_WORDS];
    let mut tags = [0u32; 2];
    let mut labels = [0u32; 3];
    hold(rt, TagId(0), &words[..7])?;
    loads(rt, &mut words)?;
    tags_refused(rt, &mut words)?;
    list(rt, TagId(2), &words, &mut tags, &mut labels)?;
    list(rt, TagId::NONE, &words, &mut tags, &mut labels)?;
    marks(rt, &mut words)
}

// Specimens K and L: labels run out.
fn limits(rt: &impl Print) -> io::Result<()> {
    let mut words = [0u32; LIMIT_WORDS];
    let kinds = [3u8; 128];
    load(rt, 16, 2, &kinds[..127], &mut words)?;
    load(rt, 16, 2, &kinds, &mut words)?;
    load(rt, 12, 2, &kinds, &mut words)
}

// Sheets into the printed load (document 02, CR 5), with each of their refusals but 1 and 7: an accepted one, then, in words for twelve
// tags, none that is left.
fn sheets(rt: &impl Print) -> io::Result<()> {
    let mut words = [0u32; SHEET_WORDS];
    let mut tags = [0u32; 12];
    let mut labels = [0u32; 12];
    insert_sheet(rt, b"\x03", TagId::NONE, &mut words)?;
    load(rt, 2, 2, b"\x01\x01\x02\x01\x02\x02", &mut words)?;
    insert_sheet(rt, b"\x01\x04", TagId(9), &mut words)?;
    insert_sheet(rt, b"\x02\x01", TagId(9), &mut words)?;
    insert_sheet(rt, b"\x03", TagId(6), &mut words)?;
    insert_sheet(rt, b"", TagId(6), &mut words)?;
    insert_sheet(rt, b"", TagId(5), &mut words)?;
    insert_sheet(rt, b"\x01\x01\x03\x02\x03\x02", TagId(1), &mut words)?;
    list(rt, TagId::NONE, &words, &mut tags, &mut labels)?;
    insert_sheet(rt, b"\x03", TagId(11), &mut words)?;
    mark(rt, TagId(6), &mut words)?;
    insert_sheet(rt, b"\x03", TagId(6), &mut words)
}

// The largest sheet that labels of 32 bits allow at s = 16 and r = 2, and one tag more.
fn long_sheets(rt: &impl Print) -> io::Result<()> {
    let mut words = [0u32; LONG_WORDS];
    let kinds = [3u8; 897];
    load(rt, 16, 2, &kinds[..127], &mut words)?;
    insert_sheet(rt, &kinds, TagId(5), &mut words)?;
    insert_sheet(rt, &kinds[..896], TagId(5), &mut words)
}

// The printed load as a file: into enough bytes, and into one too few.
fn saves(rt: &impl Print, words: &mut [u32], bytes: &mut [u8]) -> io::Result<()> {
    let mut few = [0u8; LOADED_BYTES - 1];
    load(rt, 2, 2, b"\x01\x01\x02\x01\x02\x02", words)?;
    write(rt, words, bytes)?;
    write(rt, words, &mut few)
}

// Read back into other words; no file at all; and into one word too few.
fn reads(rt: &impl Print, bytes: &[u8]) -> io::Result<()> {
    let mut back = [0u32; PRINTED_WORDS];
    let mut few = [0u32; LOADED_WORDS - 1];
    read(rt, bytes, &mut back)?;
    hold(rt, TagId(3), &back)?;
    read(rt, b"", &mut back)?;
    read(rt, bytes, &mut few)
}

// With a stamp above n, and with one that is n.
fn stamps(rt: &impl Print, bytes: &mut [u8; LOADED_BYTES]) -> io::Result<()> {
    let mut back = [0u32; PRINTED_WORDS];
    bytes[STAMP_BYTE] = 7;
    read(rt, bytes, &mut back)?;
    bytes[STAMP_BYTE] = 6;
    read(rt, bytes, &mut back)
}

// A book as a file, and back, with the refusals of both.
fn files(rt: &impl Print) -> io::Result<()> {
    let mut words = [0u32; PRINTED_WORDS];
    let mut bytes = [0u8; LOADED_BYTES];
    saves(rt, &mut words, &mut bytes)?;
    reads(rt, &bytes)?;
    stamps(rt, &mut bytes)
}

fn main(rt: HostRuntime) -> io::Result<()> {
    printed(&rt)?;
    refusals(&rt)?;
    limits(&rt)?;
    sheets(&rt)?;
    long_sheets(&rt)?;
    files(&rt)
}
