//! What a check-in meets.
//!
//! Each cell of a block says a part of it:
//!
//! - `word`: the word after the two folders, `checkin` if there is none;
//! - `entry`: the letters of its kind and of its object, and its path;
//! - `absent`: there is no index;
//! - `config` and `info`: the configuration, and what `info/attributes` holds;
//! - `drivers`: so many entries `a`, `b` and so on, each with a driver of its own that has a `smudge` alone;
//! - `read-fails`: what can't be read: the `index`, the `config`, or the object with this letter;
//! - `file`: its path and its bytes, and `long`: its path and how many bytes it has, if they are more than is taken;
//! - `unread`: the path of a file that can't be read;
//! - `keep` and `sink`: the call of the keeper and the write that fails, counted from 0;
//! - `process`: the command of a driver, and of its starts, in order, `gives`: all that it writes in the session, and
//!   `not-started`: a start that fails;
//! - `once`: a command that runs once, `takes` and `yields`: its input and its output, and `bad`: its exit status
//!   isn't 0.
use crate::index::{index_bytes, kind_of, push_entry};
use crate::objects::{name_of, objects};
use byte_path::Bytes;
use case_kit::{push_all, unknown};
use edge_kit::{Mark, MemoryRepo, RepoFail, SessionScript, TreeFile};
use one_shot::OnceScript;
use std::alloc::{AllocError, Global};
use std::test::Fail;

/// What a check-in meets.
#[derive(Drop)]
pub struct Case {
    pub words: Vec<String>,
    pub version: u32,
    pub count: u32,
    pub entries: Vec<u8>,
    pub has_index: bool,
    pub config: Vec<u8>,
    pub info: Vec<u8>,
    pub read_fails: Vec<RepoFail>,
    pub files: Vec<TreeFile>,
    pub long: Vec<(Bytes, u32)>,
    pub unread: Vec<Bytes>,
    pub keep_fails: Option<u32>,
    pub sink_fails: Option<u32>,
    pub process: Bytes,
    pub starts: Vec<SessionScript>,
    pub once: OnceScript,
}

/// Appends a word.
fn push_word(alloc: Global, words: &mut Vec<String>, word: &str) -> Result<(), AllocError> {
    words.push(String::from_str(alloc, word)?)?;
    Ok(())
}

/// Appends the two folders and this word.
fn push_words(alloc: Global, words: &mut Vec<String>, last: &str) -> Result<(), AllocError> {
    push_word(alloc, words, "R")?;
    push_word(alloc, words, "T")?;
    push_word(alloc, words, last)
}

/// The two folders and this word.
pub fn words_of(alloc: Global, last: &[u8]) -> Result<Vec<String>, Fail> {
    let last = str::from_utf8(last)?;
    let mut words = Vec::new(alloc);
    push_words(alloc, &mut words, last)?;
    Ok(words)
}

/// No command that runs once.
pub fn no_once(alloc: Global) -> Result<OnceScript, AllocError> {
    Ok(OnceScript {
        command: Bytes::copy_of(alloc, b"")?,
        input: Bytes::copy_of(alloc, b"")?,
        output: Bytes::copy_of(alloc, b"")?,
        zero: true,
    })
}

/// A check-in of no path.
pub fn no_case(alloc: Global) -> Result<Case, Fail> {
    let process = Bytes::copy_of(alloc, b"")?;
    let words = words_of(alloc, b"checkin")?;
    let once = no_once(alloc)?;
    Ok(Case {
        words,
        version: 2,
        count: 0,
        entries: Vec::new(alloc),
        has_index: true,
        config: Vec::new(alloc),
        info: Vec::new(alloc),
        read_fails: Vec::new(alloc),
        files: Vec::new(alloc),
        long: Vec::new(alloc),
        unread: Vec::new(alloc),
        keep_fails: None,
        sink_fails: None,
        process,
        starts: Vec::new(alloc),
        once,
    })
}

impl Case {
    /// Adds the entry that a cell says.
    pub fn add_entry(&mut self, value: &[u8]) -> Result<(), Fail> {
        let [kind, object, b' ', path @ ..] = value else {
            return Err(unknown(value));
        };
        let kind = kind_of(*kind)?;
        if kind.more != 0 {
            self.version = 3;
        }
        push_entry(&mut self.entries, kind, &name_of(*object)?, path)?;
        self.count = self.count.wrapping_add(1);
        Ok(())
    }

    /// Adds an entry of this name, and a driver of the same name that has it.
    fn add_driver(&mut self, name: &[u8]) -> Result<(), Fail> {
        push_entry(&mut self.entries, kind_of(b'-')?, &name_of(b'o')?, name)?;
        self.count = self.count.wrapping_add(1);
        push_all(
            &mut self.config,
            &[b"[filter \"", name, b"\"]\nsmudge = cat\n"],
        )?;
        push_all(&mut self.info, &[name, b" filter=", name, b"\n"])?;
        Ok(())
    }

    /// Adds an entry for each of so many letters, and a driver of the same name that has it.
    pub fn add_drivers(&mut self, count: u32) -> Result<(), Fail> {
        let mut letter = b'a';
        for _ in 0..count {
            self.add_driver(&[letter])?;
            letter = letter.wrapping_add(1);
        }
        Ok(())
    }

    /// Adds a file.
    pub fn add_file(&mut self, alloc: Global, path: &[u8], bytes: &[u8]) -> Result<(), AllocError> {
        self.files.push(TreeFile {
            path: Bytes::copy_of(alloc, path)?,
            bytes: Bytes::copy_of(alloc, bytes)?,
            mark: Mark::Plain,
        })?;
        Ok(())
    }

    /// Adds a start of the driver, with all that it writes in the session.
    pub fn add_start(
        &mut self,
        alloc: Global,
        starts: bool,
        output: &[u8],
    ) -> Result<(), AllocError> {
        self.starts.push(SessionScript {
            starts,
            output: Bytes::copy_of(alloc, output)?,
            piece: u32::MAX,
            fail_send: None,
            fail_read: None,
        })?;
        Ok(())
    }
}

/// What of a repository can't be read.
pub fn read_fail_of(word: &[u8]) -> Result<RepoFail, Fail> {
    if word == b"index".as_slice() {
        return Ok(RepoFail::Index);
    }
    if word == b"config".as_slice() {
        return Ok(RepoFail::Config);
    }
    match word {
        [letter] => Ok(RepoFail::Object(name_of(*letter)?)),
        _ => Err(unknown(word)),
    }
}

/// The index of a case, if it has one.
fn index_of(alloc: Global, case: &Case) -> Result<Option<Vec<u8>>, AllocError> {
    if !case.has_index {
        return Ok(None);
    }
    let bytes = index_bytes(alloc, case.version, case.count, &case.entries)?;
    Ok(Some(bytes))
}

/// The repository of a case.
pub fn repo_of(alloc: Global, case: &Case) -> Result<MemoryRepo, AllocError> {
    let fails = Vec::from_slice(alloc, &case.read_fails)?;
    let config = Vec::from_slice(alloc, &case.config)?;
    let info = Vec::from_slice(alloc, &case.info)?;
    let index = index_of(alloc, case)?;
    let objects = objects(alloc)?;
    Ok(MemoryRepo::new(alloc, index, Some(config), Some(info), objects, fails))
}
