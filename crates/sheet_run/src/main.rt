// Runs the reader of sheets, and meets every refusal from 11 to 14. What it writes is compared with the file stdout, which is
// worked out by hand from document 02, CR 1.
#![tactic(auto)]

use std::io;

fn number(rt: &impl Print, n: u64) -> io::Result<()> {
    print!(rt; " {n}")
}

fn kind(rt: &impl Print, k: u8) -> io::Result<()> {
    number(rt, u64::from(k))
}

fn show(rt: &impl Print, kinds: &[u8]) -> io::Result<()> {
    for k in kinds {
        kind(rt, *k)?;
    }
    Ok(())
}

// The reply, and all that the list then holds.
fn sheet(rt: &impl Print, text: &[u8], kinds: &mut [u8]) -> io::Result<()> {
    print!(rt; "sheet")?;
    match xml_read::xml_kinds(text, kinds) {
        Ok(n) => number(rt, n as u64)?,
        Err(refusal) => {
            print!(rt; " no")?;
            number(rt, u64::from(refusal.number()))?;
        }
    }
    print!(rt; " :")?;
    show(rt, kinds)?;
    println!(rt; "")
}

// With a list of eight, so that what is not written shows.
fn eight(rt: &impl Print, text: &[u8]) -> io::Result<()> {
    let mut kinds = [9u8; 8];
    sheet(rt, text, &mut kinds)
}

fn sheets(rt: &impl Print) -> io::Result<()> {
    eight(rt, b"")?;
    eight(rt, b" ")?;
    eight(rt, b"<a/>")?;
    eight(rt, b"<a>t<b/>u<!--c-->v<![CDATA[w]]>&gt;</a>")?;
    eight(rt, b"]]<!---->>")?;
    eight(rt, b"<a b = \"1\" c='&lt;\"]]>'/>")?;
    eight(rt, b"<!-- a--->")?;
    eight(rt, b"<a b=\"1\" c=\"2\" b=\"3\"/>")?;
    eight(rt, b"<a></b><?c?>")?;
    eight(rt, b"<a/>\x80")?;
    eight(rt, b"<!DOCTYP")?;
    eight(rt, b"<!DOCTYPEx")?;
    eight(rt, b"<a><?b?></a>")
}

// Start tags one in another, as far as the text has room.
fn nest(text: &mut [u8]) {
    let tag = b"<a>";
    for (i, b) in text.iter_mut().enumerate() {
        *b = tag[i % 3];
    }
}

// 64 elements are open: then a whole tag, one that is not whole, and <?.
fn deep(rt: &impl Print) -> io::Result<()> {
    let mut whole = [0u8; 195];
    let mut broken = [0u8; 194];
    nest(&mut whole);
    nest(&mut broken);
    eight(rt, &whole)?;
    eight(rt, &broken)?;
    whole[193] = b'?';
    eight(rt, &whole)
}

// Lists that are too short, just long enough and longer; the text's own refusal comes before a short list's.
fn lists(rt: &impl Print) -> io::Result<()> {
    let mut two = [9u8; 2];
    let mut three = [9u8; 3];
    let mut five = [9u8; 5];
    sheet(rt, b"<a>x</a>", &mut two)?;
    sheet(rt, b"<a>x</a>", &mut three)?;
    sheet(rt, b"<a>x</a>", &mut five)?;
    sheet(rt, b"<a>x", &mut two)
}

fn main(rt: HostRuntime) -> io::Result<()> {
    sheets(&rt)?;
    deep(&rt)?;
    lists(&rt)
}
