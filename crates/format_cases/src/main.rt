//! Runs the cases of files about git's formats and about conversions. Each argument is a file of blocks.
//!
//! It prints `ok` and the name of each block of which the wanted text comes, and of any other both texts.
//!
//! With the argument `index` it prints what `git ls-files --stage` prints of the index on standard input, with
//! `attributes` what `git check-attr` prints for a script of attribute files and paths (`script` of `git_listings`),
//! and with `conversions` what a checkout makes of the contents of a table (`task`).
#![tactic(auto)]

mod cells;
mod contents;
mod converted;
mod digests;
mod line_ends;
mod patterns;
mod rows;
mod states;
mod stored_forms;
mod task;
mod texts;
mod words;

use byte_path::{quote_path, unmarked};
use case_kit::{Block, Cases, Cell, Words, found, given, number_of, report_files, unknown};
use git_listings::{attributes, configs, indexes, script, views};
use std::alloc::Global;
use std::io::{Read, Write};
use std::test::Fail;
use std::{env, io};

/// What a block with the one cell of a text is about.
#[derive(Clone, Copy)]
enum Text {
    Index,
    Spelled,
    CutIndex,
    Attributes,
    Config,
    CountedConfig,
    Settings,
    Keyword,
    Encoding,
    Conversions,
    Path,
    Quoted,
    Unquoted,
    Cut,
    Unmarked,
    Copied,
    Kept,
}

const TEXTS: Words<Text> = &[
    (b"index text", Text::Index),
    (b"spelled text", Text::Spelled),
    (b"cut-index text", Text::CutIndex),
    (b"attributes text", Text::Attributes),
    (b"config text", Text::Config),
    (b"counted-config text", Text::CountedConfig),
    (b"settings text", Text::Settings),
    (b"keyword text", Text::Keyword),
    (b"encoding text", Text::Encoding),
    (b"conversions text", Text::Conversions),
    (b"path text", Text::Path),
    (b"quoted text", Text::Quoted),
    (b"unquoted text", Text::Unquoted),
    (b"cut text", Text::Cut),
    (b"unmarked text", Text::Unmarked),
    (b"copied text", Text::Copied),
    (b"kept numbers", Text::Kept),
];

/// What comes of a block with the one cell of a text.
fn text_read(alloc: Global, form: Text, text: &[u8]) -> Result<Vec<u8>, Fail> {
    match form {
        Text::Index => indexes::read(alloc, text),
        Text::Spelled => indexes::spelled(alloc, text),
        Text::CutIndex => indexes::cut(alloc, text),
        Text::Attributes => given(script::answered(alloc, text, true)),
        Text::Config => given(configs::listed(alloc, text)),
        Text::CountedConfig => configs::counted(alloc, text),
        Text::Settings => views::viewed(alloc, text),
        Text::Keyword => given(contents::expanded(alloc, text)),
        Text::Encoding => contents::named(alloc, text),
        Text::Conversions => converted::converted(alloc, text),
        Text::Path => given(texts::checked(alloc, text)),
        Text::Quoted => given(quote_path(alloc, text)),
        Text::Unquoted => texts::unquoted(alloc, text),
        Text::Cut => texts::cut(alloc, text),
        Text::Unmarked => given(Vec::from_slice(alloc, unmarked(text))),
        Text::Copied => texts::copied(alloc, text),
        Text::Kept => texts::kept(alloc, text),
    }
}

/// What a block with two cells is about.
#[derive(Clone, Copy)]
enum Pair {
    Pattern,
    Lines,
    Ends,
    Encoded,
    Decimal,
    Report,
}

const PAIRS: Words<Pair> = &[
    (b"pattern pattern path", Pair::Pattern),
    (b"lines text folder", Pair::Lines),
    (b"ends content ends", Pair::Ends),
    (b"encoded content state", Pair::Encoded),
    (b"decimal text most", Pair::Decimal),
    (b"report form row", Pair::Report),
];

/// What comes of a block with two cells.
fn pair_read(alloc: Global, form: Pair, first: &[u8], second: &[u8]) -> Result<Vec<u8>, Fail> {
    match form {
        Pair::Pattern => given(patterns::matched(alloc, first, second)),
        Pair::Lines => attributes::read(alloc, first, second),
        Pair::Ends => line_ends::converted(alloc, first, second),
        Pair::Encoded => contents::encoded(alloc, first, second),
        Pair::Decimal => texts::decimal(alloc, first, second),
        Pair::Report => rows::formed(alloc, first, second),
    }
}

/// What a block with five cells is about.
#[derive(Clone, Copy)]
enum Five {
    Decided,
    Stored,
    Placed,
}

const FIVES: Words<Five> = &[
    (b"decided text crlf eol auto setting", Five::Decided),
    (b"stored file ident action encoding old", Five::Stored),
    (b"placed encoding sixteen other plain text", Five::Placed),
];

/// What comes of a block with five cells.
fn five_read(alloc: Global, form: Five, cells: [&[u8]; 5]) -> Result<Vec<u8>, Fail> {
    let [a, b, c, d, e] = cells;
    match form {
        Five::Decided => line_ends::decided(alloc, [a, b, c], d, e),
        Five::Stored => stored_forms::stored(alloc, a, [b, c, d, e]),
        Five::Placed => stored_forms::placed(alloc, a, [b, c], [d, e]),
    }
}

/// What comes of a block with one cell or none, about the words of a program or about a text.
fn word_read(alloc: Global, form: &[u8], cells: &[Cell]) -> Result<Vec<u8>, Fail> {
    if form.starts_with(b"checkout_program") {
        return words::plain(alloc, cells);
    }
    if form.starts_with(b"siuwbren") {
        return words::asked(alloc, cells);
    }
    match cells {
        [text] => text_read(alloc, found(TEXTS, form)?, &text.value),
        _ => Err(unknown(form)),
    }
}

/// What comes of a block with four cells.
fn four_read(alloc: Global, form: &[u8], cells: [&[u8]; 4]) -> Result<Vec<u8>, Fail> {
    if form != b"digests a b c d".as_slice() {
        return Err(unknown(form));
    }
    given(digests::digested(alloc, cells))
}

/// What comes of a block with whole cells.
fn whole_read(alloc: Global, block: &Block) -> Result<Vec<u8>, Fail> {
    let form = block.form.as_slice();
    let cells = block.cells.as_slice();
    match cells {
        [] | [_] => word_read(alloc, form, cells),
        [first, second] => { pair_read(alloc, found(PAIRS, form)?, &first.value, &second.value) }
        [a, b, c, d] => four_read(alloc, form, [&a.value, &b.value, &c.value, &d.value]),
        [a, b, c, d, e] => {
            five_read(
                alloc,
                found(FIVES, form)?,
                [&a.value, &b.value, &c.value, &d.value, &e.value],
            )
        }
        _ => Err(unknown(form)),
    }
}

/// The kinds of cases about formats and conversions.
struct FormatCases;

impl Cases for FormatCases {
    fn came_of(&self, alloc: Global, block: &Block) -> Result<Vec<u8>, Fail> {
        let came = whole_read(alloc, &cells::whole(alloc, block)?)?;
        cells::shown_short(alloc, block, came)
    }
}

/// What the first argument asks for of standard input, if it asks for something.
fn listed(alloc: Global, word: &str, text: &[u8]) -> Result<Vec<u8>, Fail> {
    if word == "index" {
        indexes::staged(alloc, text)
    } else if word == "attributes" {
        given(script::answered(alloc, text, false))
    } else {
        converted::converted(alloc, text)
    }
}

/// Prints what the word asks for of standard input.
fn print_list(rt: HostRuntime, word: &str) -> Result<(), Fail> {
    let mut text = Vec::new(rt.alloc());
    rt.reader().read_to_end(&mut text)?;
    let list = listed(rt.alloc(), word, &text)?;
    io::writer(&rt).write_all(&list)?;
    Ok(())
}

/// Whether a first argument asks for something of standard input.
fn is_asked(word: &str) -> bool {
    word == "index" || word == "attributes" || word == "conversions"
}

fn main(rt: HostRuntime) -> Result<(), Fail> {
    let mut words = env::args(&rt)?;
    let _program = words.next();
    match words.next() {
        Some(word) if is_asked(word.as_str()) => print_list(rt, word.as_str()),
        _ => report_files(rt, &FormatCases),
    }
}
