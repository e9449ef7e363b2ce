//! Conversions of contents of about 1 MB, each beside a copy of the same content. On the way back the file that a
//! checkout makes of the content is converted and copied, and the bytes told are the content's.
//!
//! Each line has fields with a tab between: a content, its bytes, a conversion, the bytes that come out and the one in
//! their middle. With times these follow: the nanoseconds of the conversion and of the copy, the least of many turns,
//! and a sum over what was read of the results.
use crate::content::Content;
use crate::conversion::{Work, beside_copy};
use back_convert::Action;
use eol_convert::LineEnds;
use std::io;
use std::io::Print;
use std::rt::Clock;
use tree_encoding::Encoding;

const TO_CRLF: Work = Work::Ends(LineEnds::ToCrlf);

const AUTO_CRLF: Work = Work::Ends(LineEnds::AutoCrlf);

const UTF_16LE: Work = Work::Encoded(Encoding::Utf16Le);

const UTF_32BE: Work = Work::Encoded(Encoding::Utf32Be);

const TEXT_BACK: Work = Work::BackEnds(Action::TextCrlf);

const AUTO_BACK: Work = Work::BackEnds(Action::AutoCrlf);

const UTF_16LE_BACK: Work = Work::BackEncoded(Encoding::Utf16Le);

const UTF_32BE_BACK: Work = Work::BackEncoded(Encoding::Utf32Be);

/// Contents and conversions.
const ROWS: [(&str, Content, &str, Work); 22] = [
    ("lines of 40", Content::Lines, "crlf", TO_CRLF),
    ("lines of 40", Content::Lines, "auto-crlf", AUTO_CRLF),
    ("lines of 60", Content::LongLines, "crlf", TO_CRLF),
    ("lines of 60", Content::LongLines, "auto-crlf", AUTO_CRLF),
    ("CR LF already", Content::CrlfLines, "crlf", TO_CRLF),
    ("CR LF already", Content::CrlfLines, "auto-crlf", AUTO_CRLF),
    ("no `$`", Content::Lines, "ident", Work::Ident),
    ("`$Id$` each 4 KB", Content::Keywords, "ident", Work::Ident),
    ("ASCII", Content::Lines, "UTF-16LE", UTF_16LE),
    ("ASCII", Content::Lines, "UTF-32BE", UTF_32BE),
    ("1 to 4 bytes", Content::Mixed, "UTF-16LE", UTF_16LE),
    ("1 to 4 bytes", Content::Mixed, "UTF-32BE", UTF_32BE),
    ("lines of 40", Content::Lines, "crlf back", TEXT_BACK),
    ("lines of 40", Content::Lines, "auto-crlf back", AUTO_BACK),
    ("lines of 60", Content::LongLines, "crlf back", TEXT_BACK),
    (
        "lines of 60",
        Content::LongLines,
        "auto-crlf back",
        AUTO_BACK,
    ),
    ("no `$`", Content::Lines, "ident back", Work::BackIdent),
    (
        "`$Id$` each 4 KB",
        Content::Keywords,
        "ident back",
        Work::BackIdent,
    ),
    ("ASCII", Content::Lines, "UTF-16LE back", UTF_16LE_BACK),
    ("ASCII", Content::Lines, "UTF-32BE back", UTF_32BE_BACK),
    (
        "1 to 4 bytes",
        Content::Mixed,
        "UTF-16LE back",
        UTF_16LE_BACK,
    ),
    (
        "1 to 4 bytes",
        Content::Mixed,
        "UTF-32BE back",
        UTF_32BE_BACK,
    ),
];

/// Tells what a conversion makes of this content, with times if asked for.
fn tell_work<R: Clock + Print + AllocGlobal>(
    rt: &R,
    work: Work,
    content: &[u8],
    timed: bool,
) -> io::Result<()> {
    let seen = work.seen(rt.alloc(), content)?;
    let after = seen.length;
    let middle = seen.middle;
    print!(rt; "{after}\t{middle}")?;
    if timed {
        let (least, copy) = beside_copy(rt, work, content)?;
        let sum = least.middles.wrapping_add(copy.middles);
        let took = least.nanoseconds;
        let beside = copy.nanoseconds;
        print!(rt; "\t{took}\t{beside}\t{sum}")?;
    }
    println!(rt)
}

/// Tells of a row's conversion, with times if asked for.
fn tell_row<R: Clock + Print + AllocGlobal>(
    rt: &R,
    row: (&str, Content, &str, Work),
    timed: bool,
) -> io::Result<()> {
    let (about, content, name, work) = row;
    let content = content.bytes(rt.alloc())?;
    let before = content.len();
    print!(rt; "{about}\t{before}\t{name}\t")?;
    let content = work.source(rt.alloc(), content)?;
    tell_work(rt, work, &content, timed)
}

/// Tells of each conversion, with times if asked for.
pub fn tell<R: Clock + Print + AllocGlobal>(rt: &R, timed: bool) -> io::Result<()> {
    for row in ROWS {
        tell_row(rt, row, timed)?;
    }
    Ok(())
}
