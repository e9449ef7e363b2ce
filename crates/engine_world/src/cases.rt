//! What a run meets.
//!
//! The cells of a case are these. Any other is an error:
//!
//! - `words`: the words after the two folders, `checkout` if there are none;
//! - `entry`: the letters of its kind and of its object, and its path;
//! - `file`: the letter of its kind, its path, and what its object holds;
//! - `given`: the same letters, and the bytes of the entry from its flags on;
//! - `version`: that of the index. Without it, it is 3 if the kind of an entry asks for it, and else 2;
//! - `plain`: so many plain files of the object `HI`, `gitlinks`: so many gitlinks, and `more`: the letter of an
//!   object, and how many plain files have it. The path of each is `p` and its number among the entries, behind 10000;
//! - `tail`: the extensions of the index, and `hash`: its hash, if it has one;
//! - `absent`: there is no index;
//! - `object`: the letter of another name for the object `HI`, `bytes`: its bytes, and `nuls` or `letters`: how many
//!   NULs or letters `a` follow;
//! - `config` and `info`: the configuration, and what `info/attributes` holds;
//! - `xdg`: a number, and a text: the system's and the user's attribute files hold the text so many times;
//! - `rehearsed`: the repository and its drivers are those of a rehearsal of so many paths;
//! - `read-fails`: what can't be read: the `index`, the `config`, the `info`, the `base` (the user's file), or the
//!   object with this letter;
//! - `memory`: whether memory runs out at the `make` or the `read` of a blob, and the letter of its object;
//! - `leaf`: which call on a leaf fails, and its path, and `sink`: the write that fails;
//! - `full`: the worktree isn't empty, and `unchecked`: it can't tell;
//! - `driver`: a driver's command, and what it writes in its only session;
//! - the starts of the driver `lfs`, in order: `gives`: one in which it writes this, `fails`: one that fails, `piece`:
//!   a read of those that follow gives at most so many bytes, and `cut`: the first `send` or the first `read` of the
//!   last one fails;
//! - single runs: `single`: a command, `reads`: its input, `writes`: its output, and `broken`: it ends badly;
//! - `meet`: a path and a point, where the actor that has claimed path 0 is met, and `hold`: the `odd` or the `even`
//!   actors are held.
use crate::gate::Watch;
use crate::index::IndexCase;
use crate::scripts::DriverCase;
use crate::stored::RepoCase;
use byte_path::Bytes;
use case_kit::{Cell, Words, found, number_of, parted, push_all, unknown};
use edge_kit::{LeafCall, Point};
use std::alloc::Global;
use std::string::String;
use std::test::Fail;
use std::vec::Vec;

/// What a run meets.
#[derive(Drop)]
pub struct Case {
    pub words: Vec<String>,
    pub index: IndexCase,
    pub repo: RepoCase,
    pub drivers: DriverCase,
    /// Of how many paths the rehearsal is that stands for the repository and the drivers.
    pub rehearsed: Option<u32>,
    pub leaf_fails: Vec<(Bytes, LeafCall)>,
    pub sink_fails: Option<u32>,
    pub empty: bool,
    pub check_fails: bool,
    pub gate: Watch,
}

/// Appends each word of a text, parted by spaces.
fn push_words(alloc: Global, words: &mut Vec<String>, text: &[u8]) -> Result<(), Fail> {
    for word in text.split(|byte| *byte == b' ') {
        words.push(String::from_str(alloc, str::from_utf8(word)?)?)?;
    }
    Ok(())
}

/// The words that are parted by spaces.
pub fn words_of(alloc: Global, text: &[u8]) -> Result<Vec<String>, Fail> {
    let mut words = Vec::new(alloc);
    push_words(alloc, &mut words, text)?;
    Ok(words)
}

/// The two folders, and then these words.
fn engine_words(alloc: Global, text: &[u8]) -> Result<Vec<String>, Fail> {
    let mut all = Vec::new(alloc);
    push_all(&mut all, &[b"R T ", text])?;
    words_of(alloc, &all)
}

/// A checkout of no path.
fn no_case(alloc: Global) -> Result<Case, Fail> {
    Ok(Case {
        words: engine_words(alloc, b"checkout")?,
        index: IndexCase::new(alloc),
        repo: RepoCase::new(alloc)?,
        drivers: DriverCase::new(alloc),
        rehearsed: None,
        leaf_fails: Vec::new(alloc),
        sink_fails: None,
        empty: true,
        check_fails: false,
        gate: Watch::new(),
    })
}

const LEAF_CALLS: Words<LeafCall> = &[
    (b"put", LeafCall::Put),
    (b"seal", LeafCall::Seal),
    (b"restart", LeafCall::Restart),
    (b"discard", LeafCall::Discard),
];

const POINTS: Words<Point> = &[(b"claimed", Point::Claimed), (b"replied", Point::Replied)];

/// Whether the odd actors are held, or else the even ones.
const HELD: Words<bool> = &[(b"odd", true), (b"even", false)];

/// A path, and the point at which it is met.
fn meeting_of(value: &[u8]) -> Result<(u32, Point), Fail> {
    let (path, word) = parted(value);
    Ok((number_of(path)?, found(POINTS, word)?))
}

/// Adds an entry, and its object.
fn add_file(alloc: Global, case: &mut Case, value: &[u8]) -> Result<(), Fail> {
    let (front, content) = parted(value);
    let Some((kind, path)) = front.split_first() else {
        return Err(unknown(value));
    };
    let name = case.repo.add(alloc, content)?;
    case.index.add(*kind, &name, path)
}

/// Adds a call on a leaf that fails.
fn add_leaf_fail(alloc: Global, case: &mut Case, value: &[u8]) -> Result<(), Fail> {
    let (call, path) = parted(value);
    let call = found(LEAF_CALLS, call)?;
    case.leaf_fails.push((Bytes::copy_of(alloc, path)?, call))?;
    Ok(())
}

/// What a cell says of all else.
#[derive(Clone, Copy)]
enum Word {
    Words,
    File,
    Rehearsed,
    Leaf,
    Sink,
    Full,
    Unchecked,
    Meet,
    Hold,
    /// It asks for more lines of what a run leaves.
    Asks,
}

const WORDS: Words<Word> = &[
    (b"words", Word::Words),
    (b"file", Word::File),
    (b"rehearsed", Word::Rehearsed),
    (b"leaf", Word::Leaf),
    (b"sink", Word::Sink),
    (b"full", Word::Full),
    (b"unchecked", Word::Unchecked),
    (b"meet", Word::Meet),
    (b"hold", Word::Hold),
    (b"below", Word::Asks),
    (b"closer", Word::Asks),
    (b"hands", Word::Asks),
    (b"steps", Word::Asks),
    (b"notes", Word::Asks),
    (b"met", Word::Asks),
    (b"back", Word::Asks),
];

/// Takes what a cell says of all else.
fn set_rest(alloc: Global, case: &mut Case, word: Word, value: &[u8]) -> Result<(), Fail> {
    match word {
        Word::Words => case.words = engine_words(alloc, value)?,
        Word::File => add_file(alloc, case, value)?,
        Word::Rehearsed => case.rehearsed = Some(number_of(value)?),
        Word::Leaf => add_leaf_fail(alloc, case, value)?,
        Word::Sink => case.sink_fails = Some(number_of(value)?),
        Word::Full => case.empty = false,
        Word::Unchecked => case.check_fails = true,
        Word::Meet => case.gate.meeting = Some(meeting_of(value)?),
        Word::Hold => case.gate.held = Some(found(HELD, value)?),
        Word::Asks => {}
    }
    Ok(())
}

/// Takes what a cell says of a case.
fn set(alloc: Global, case: &mut Case, cell: &Cell) -> Result<(), Fail> {
    let word = cell.key.as_slice();
    let value = cell.value.as_slice();
    if case.index.set(alloc, word, value)?
        || case.repo.set(alloc, word, value)?
        || case.drivers.set(alloc, word, value)?
    {
        return Ok(());
    }
    set_rest(alloc, case, found(WORDS, word)?, value)
}

/// Takes what each cell says of a case.
fn set_all(alloc: Global, case: &mut Case, cells: &[Cell]) -> Result<(), Fail> {
    for cell in cells {
        set(alloc, case, cell)?;
    }
    Ok(())
}

/// Takes other words, if there are any.
fn set_words(alloc: Global, case: &mut Case, words: &[u8]) -> Result<(), Fail> {
    if !words.is_empty() {
        case.words = engine_words(alloc, words)?;
    }
    Ok(())
}

/// Takes what the cells say, and these words.
fn fill(alloc: Global, case: &mut Case, cells: &[Cell], words: &[u8]) -> Result<(), Fail> {
    set_all(alloc, case, cells)?;
    set_words(alloc, case, words)
}

/// The case of these cells, with these words, if there are any. What asks for lines says nothing of it.
pub fn case_of(alloc: Global, cells: &[Cell], words: &[u8]) -> Result<Case, Fail> {
    let mut case = no_case(alloc)?;
    fill(alloc, &mut case, cells, words)?;
    Ok(case)
}
