//! The index of a case, as git spells it (gitformat-index(5)).
use crate::objects::{HI, NO_ENTRIES, ONE_ENTRY, name_of, named_by};
use byte_path::ObjectId;
use case_kit::{Words, found, given, meant, number_of, parted, unknown};
use std::alloc::{AllocError, Global};
use std::test::Fail;

const PLAIN: u32 = 0o100644;

const EXECUTABLE: u32 = 0o100755;

const LINK: u32 = 0o120000;

const GITLINK: u32 = 0o160000;

const SPARSE: u16 = 0x4000;

const INTENT: u16 = 0x2000;

/// What the fixed part of an entry says beside its object.
#[derive(Clone, Copy)]
struct Kind {
    mode: u32,
    stage: u16,
    /// The 16 more bits, which are there if one is set.
    more: u16,
}

/// The kind of an entry of stage 0 with this mode.
fn whole(mode: u32) -> Kind {
    Kind {
        mode,
        stage: 0,
        more: 0,
    }
}

/// The kind of a plain entry with one of git's stage numbers: 0, or 1 to 3 for a side of a merge (git-ls-files(1)).
fn staged(stage: u16) -> Kind {
    Kind {
        mode: PLAIN,
        stage,
        more: 0,
    }
}

/// The kind of an entry of stage 0 with this mode and these bits.
fn marked(mode: u32, more: u16) -> Kind {
    Kind {
        mode,
        stage: 0,
        more,
    }
}

/// The kind of an entry, by a letter: `-` plain, `x` executable, `l` link, `g` gitlink, a digit a plain one of that
/// stage, `y` an executable one of stage 1, and `6` one with a mode that isn't right. `s` is a sparse plain one, `i`
/// one that is to be added, `b` both, `t` a sparse gitlink, and `u` a sparse one of stage 1.
fn kind_of(letter: u8) -> Result<Kind, Fail> {
    match letter {
        b'-' => Ok(whole(PLAIN)),
        b'x' => Ok(whole(EXECUTABLE)),
        b'l' => Ok(whole(LINK)),
        b'g' => Ok(whole(GITLINK)),
        b'1' => Ok(staged(1)),
        b'2' => Ok(staged(2)),
        b'3' => Ok(staged(3)),
        b'6' => Ok(whole(0o100600)),
        b'y' => Ok(Kind {
            mode: EXECUTABLE,
            stage: 1,
            more: 0,
        }),
        b's' => Ok(marked(PLAIN, SPARSE)),
        b'i' => Ok(marked(PLAIN, INTENT)),
        b'b' => Ok(marked(PLAIN, SPARSE | INTENT)),
        b't' => Ok(marked(GITLINK, SPARSE)),
        b'u' => Ok(Kind {
            mode: PLAIN,
            stage: 1,
            more: SPARSE,
        }),
        _ => Err(unknown(&[letter])),
    }
}

/// Appends the fixed part of an entry up to its flags.
fn push_head(index: &mut Vec<u8>, mode: u32, name: &ObjectId) -> Result<(), AllocError> {
    index.extend_from_slice(&[0; 24])?;
    index.extend_from_slice(&mode.to_be_bytes())?;
    index.extend_from_slice(&[0; 12])?;
    index.extend_from_slice(name)?;
    Ok(())
}

/// Appends an entry.
fn push_entry(
    index: &mut Vec<u8>,
    kind: Kind,
    name: &ObjectId,
    path: &[u8],
) -> Result<(), AllocError> {
    let len = path.len() % 0x1000;
    let (extended, head) = if kind.more == 0 {
        (0, 62)
    } else {
        (0x4000, 64)
    };
    let flags = extended + (kind.stage % 4) * 0x1000 + len as u16;
    push_head(index, kind.mode, name)?;
    index.extend_from_slice(&flags.to_be_bytes())?;
    if kind.more != 0 {
        index.extend_from_slice(&kind.more.to_be_bytes())?;
    }
    index.extend_from_slice(path)?;
    let padding = 8 - (head + len) % 8;
    index.extend_from_slice([0u8; 8].split_at(padding).0)?;
    Ok(())
}

const HASHES: Words<ObjectId> = &[
    (b"one", ONE_ENTRY),
    (b"none", NO_ENTRIES),
    (b"other", [1; 20]),
];

/// What a cell says of the index.
#[derive(Clone, Copy)]
enum Word {
    Entry,
    Given,
    Version,
    Plain,
    More,
    Gitlinks,
    Tail,
    Hash,
    Absent,
}

const WORDS: Words<Word> = &[
    (b"entry", Word::Entry),
    (b"given", Word::Given),
    (b"version", Word::Version),
    (b"plain", Word::Plain),
    (b"more", Word::More),
    (b"gitlinks", Word::Gitlinks),
    (b"tail", Word::Tail),
    (b"hash", Word::Hash),
    (b"absent", Word::Absent),
];

/// The index of a case.
#[derive(Drop)]
pub struct IndexCase {
    is_there: bool,
    version: u32,
    entries: Vec<u8>,
    /// How many entries there are.
    pub count: u32,
    tail: Vec<u8>,
    hash: ObjectId,
}

impl IndexCase {
    /// An index of no entries.
    pub fn new(alloc: Global) -> IndexCase {
        IndexCase {
            is_there: true,
            version: 2,
            entries: Vec::new(alloc),
            count: 0,
            tail: Vec::new(alloc),
            hash: [0; 20],
        }
    }

    /// The bytes of the index, if there is one: its entries, and what follows them, extensions and the hash.
    pub fn bytes(&self, alloc: Global) -> Result<Option<Vec<u8>>, AllocError> {
        if !self.is_there {
            return Ok(None);
        }
        let mut index = Vec::from_slice(alloc, b"DIRC")?;
        index.extend_from_slice(&self.version.to_be_bytes())?;
        index.extend_from_slice(&self.count.to_be_bytes())?;
        index.extend_from_slice(&self.entries)?;
        index.extend_from_slice(&self.tail)?;
        index.extend_from_slice(&self.hash)?;
        Ok(Some(index))
    }

    /// Adds an entry of this kind with the object of this name.
    pub fn add(&mut self, kind: u8, name: &ObjectId, path: &[u8]) -> Result<(), Fail> {
        let kind = kind_of(kind)?;
        if kind.more != 0 {
            self.version = 3;
        }
        push_entry(&mut self.entries, kind, name, path)?;
        self.count = self.count.wrapping_add(1);
        Ok(())
    }

    /// Adds an entry of the kind and the object of these letters.
    fn add_lettered(&mut self, letters: &[u8], path: &[u8]) -> Result<(), Fail> {
        let [kind, object] = letters else {
            return Err(unknown(letters));
        };
        self.add(*kind, &name_of(*object)?, path)
    }

    /// Adds an entry of the kind and the object of these letters, with these bytes from its flags on.
    fn add_given(&mut self, letters: &[u8], bytes: &[u8]) -> Result<(), Fail> {
        let [kind, object] = letters else {
            return Err(unknown(letters));
        };
        let mode = kind_of(*kind)?.mode;
        push_head(&mut self.entries, mode, &name_of(*object)?)?;
        self.entries.extend_from_slice(bytes)?;
        self.count = self.count.wrapping_add(1);
        Ok(())
    }

    /// Adds so many entries with this mode and this object.
    fn add_many(
        &mut self,
        alloc: Global,
        mode: u32,
        object: &ObjectId,
        count: u32,
    ) -> Result<(), AllocError> {
        for _ in 0..count {
            let path = format!(in alloc; "p{}", 10_000u32.wrapping_add(self.count))?;
            push_entry(&mut self.entries, whole(mode), object, path.as_bytes())?;
            self.count = self.count.wrapping_add(1);
        }
        Ok(())
    }

    /// Adds so many plain entries of the object of this letter.
    fn add_more(&mut self, alloc: Global, letter: &[u8], digits: &[u8]) -> Result<(), Fail> {
        let object = named_by(letter)?;
        given(self.add_many(alloc, PLAIN, &object, number_of(digits)?))
    }

    /// Adds so many entries with this mode and this object.
    fn add_counted(
        &mut self,
        alloc: Global,
        mode: u32,
        object: &ObjectId,
        digits: &[u8],
    ) -> Result<(), Fail> {
        given(self.add_many(alloc, mode, object, number_of(digits)?))
    }

    /// Takes what a cell says of the index.
    fn take(&mut self, alloc: Global, word: Word, value: &[u8]) -> Result<(), Fail> {
        let (front, rest) = parted(value);
        match word {
            Word::Entry => return self.add_lettered(front, rest),
            Word::Given => return self.add_given(front, rest),
            Word::Plain => return self.add_counted(alloc, PLAIN, &HI, value),
            Word::More => return self.add_more(alloc, front, rest),
            Word::Gitlinks => return self.add_counted(alloc, GITLINK, &[0; 20], value),
            Word::Version => self.version = number_of(value)?,
            Word::Tail => self.tail = Vec::from_slice(alloc, value)?,
            Word::Hash => self.hash = found(HASHES, value)?,
            Word::Absent => self.is_there = false,
        }
        Ok(())
    }

    /// Takes what a cell says of the index. Whether it is such a cell.
    pub fn set(&mut self, alloc: Global, word: &[u8], value: &[u8]) -> Result<bool, Fail> {
        match meant(WORDS, word) {
            Some(word) => {
                self.take(alloc, word, value)?;
                Ok(true)
            }
            None => Ok(false),
        }
    }
}
