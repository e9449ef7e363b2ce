//! The contents that are converted.
ghost use Rattle.std.specs.Prelude.{◌<◌};

use std::alloc::{AllocError, Global};

/// About how many bytes a content has.
const SIZE: usize = 1_000_000;

/// What lines are cut from.
const SOURCE: &[u8] =
    b"    let found = entries.iter().find(|entry| entry.path == wanted).map(|entry| entry.stage); \
        return table.insert(name, Row { width: 4, height: 2, label: \"north\" });";

/// Words whose characters take 1 to 4 bytes.
const WORDS: [&str; 8] = [
    "value ",
    "größe ",
    "значение ",
    "変換 ",
    "😀 ",
    "€ ",
    "αβγ ",
    "line\n",
];

/// A content that is converted. It is the same in each run.
#[derive(Clone, Copy)]
pub enum Content {
    /// Lines of about 40 bytes, which end in LF.
    Lines,
    /// Lines of about 60 bytes, which end in LF.
    LongLines,
    /// Lines of about 40 bytes, which end in CR LF.
    CrlfLines,
    /// Lines of about 40 bytes, with `$Id$` after each 4 KB.
    Keywords,
    /// Characters of 1 to 4 bytes.
    Mixed,
}

/// Pseudorandom numbers.
#[derive(Drop)]
struct Lot(u64);

impl Lot {
    fn below(&mut self, bound: usize) -> usize
        requires { 0 < bound }
        ensures { result < bound }
    {
        self.0 = self
            .0
            .wrapping_mul(6_364_136_223_846_793_005)
            .wrapping_add(1_442_695_040_888_963_407);
        (self.0 >> 33) as usize % bound
    }
}

/// Lines of a pseudorandom length, from half of `mean` bytes to half as many again.
fn lines(alloc: Global, mean: u8, end: &[u8]) -> Result<Vec<u8>, AllocError>
    requires { 0 < mean }
{
    let mean = usize::from(mean);
    let mut lot = Lot(1);
    let mut text = Vec::with_capacity(alloc, SIZE)?;
    for _ in 0..SIZE / mean {
        let length = (mean / 2 + lot.below(mean)).saturating_sub(end.len());
        let start = lot.below(64);
        let line = SOURCE.get(start..start + length).unwrap_or(SOURCE);
        text.extend_from_slice(line)?;
        text.extend_from_slice(end)?;
    }
    Ok(text)
}

/// These bytes with a keyword after each 4 KB.
fn with_keywords(alloc: Global, bytes: &[u8]) -> Result<Vec<u8>, AllocError> {
    let mut text = Vec::with_capacity(alloc, SIZE)?;
    for chunk in bytes.chunks(4096) {
        text.extend_from_slice(chunk)?;
        text.extend_from_slice(b"$Id$")?;
    }
    Ok(text)
}

/// Pseudorandom words. All of `WORDS` together take 59 bytes.
fn words(alloc: Global) -> Result<Vec<u8>, AllocError> {
    let mut lot = Lot(1);
    let mut text = Vec::with_capacity(alloc, SIZE)?;
    for _ in 0..SIZE * 8 / 59 {
        let word = WORDS[lot.below(WORDS.len())];
        text.extend_from_slice(word.as_bytes())?;
    }
    Ok(text)
}

impl Content {
    pub fn bytes(self, alloc: Global) -> Result<Vec<u8>, AllocError> {
        match self {
            Content::Lines => lines(alloc, 40, b"\n"),
            Content::LongLines => lines(alloc, 60, b"\n"),
            Content::CrlfLines => lines(alloc, 40, b"\r\n"),
            Content::Keywords => {
                let text = lines(alloc, 40, b"\n")?;
                with_keywords(alloc, &text)
            }
            Content::Mixed => words(alloc),
        }
    }
}
