//! The repository of a case but for its index.
use crate::objects::{HI, OBJECTS, named_by};
use byte_path::ObjectId;
use case_kit::{Words, given, meant, number_of, parted, unknown};
use edge_kit::{MemoryRepo, RepoFail};
use object_dir::{blob_name, spell_blob};
use std::alloc::{AllocError, Global};
use std::test::Fail;
use std::vec::Vec;

/// What can't be read, but for objects.
const FAILS: Words<RepoFail> = &[
    (b"index", RepoFail::Index),
    (b"config", RepoFail::Config),
    (b"info", RepoFail::Info),
    (b"base", RepoFail::Base),
];

fn read_fail_of(word: &[u8]) -> Result<RepoFail, Fail> {
    match meant(FAILS, word) {
        Some(fail) => Ok(fail),
        None => Ok(RepoFail::Object(named_by(word)?)),
    }
}

/// What a cell says of the repository.
#[derive(Clone, Copy)]
enum Word {
    Object,
    Bytes,
    Nuls,
    Letters,
    Config,
    Info,
    Xdg,
    ReadFails,
    Memory,
}

const WORDS: Words<Word> = &[
    (b"object", Word::Object),
    (b"bytes", Word::Bytes),
    (b"nuls", Word::Nuls),
    (b"letters", Word::Letters),
    (b"config", Word::Config),
    (b"info", Word::Info),
    (b"xdg", Word::Xdg),
    (b"read-fails", Word::ReadFails),
    (b"memory", Word::Memory),
];

/// A text, so many times as the number before it says.
fn repeated(alloc: Global, value: &[u8]) -> Result<Vec<u8>, Fail> {
    let (count, text) = parted(value);
    let mut all = Vec::new(alloc);
    for _ in 0..number_of(count)? {
        all.extend_from_slice(text)?;
    }
    Ok(all)
}

fn copied(alloc: Global, file: &Option<Vec<u8>>) -> Result<Option<Vec<u8>>, AllocError> {
    match file {
        Some(bytes) => Ok(Some(Vec::from_slice(alloc, bytes)?)),
        None => Ok(None),
    }
}

/// The repository of a case but for its index.
#[derive(Drop)]
pub struct RepoCase {
    object: ObjectId,
    stored: Vec<u8>,
    /// The names of the other objects, and what is stored.
    objects: Vec<(ObjectId, Vec<u8>)>,
    config: Option<Vec<u8>>,
    info: Option<Vec<u8>>,
    base: Option<Vec<u8>>,
    fails: Vec<RepoFail>,
    /// The blob that can't be made, and the one that can't be read.
    pub unmade: Option<ObjectId>,
    pub unread: Option<ObjectId>,
}

impl RepoCase {
    /// A repository with the object `HI`.
    pub fn new(alloc: Global) -> Result<RepoCase, AllocError> {
        Ok(RepoCase {
            object: HI,
            stored: Vec::from_slice(alloc, b"blob 3\0hi\n")?,
            objects: Vec::new(alloc),
            config: None,
            info: None,
            base: None,
            fails: Vec::new(alloc),
            unmade: None,
            unread: None,
        })
    }

    /// Adds an object with this content, and gives its name.
    pub fn add(&mut self, alloc: Global, content: &[u8]) -> Result<ObjectId, AllocError> {
        let name = blob_name(content);
        self.objects.push((name, spell_blob(alloc, content)?))?;
        Ok(name)
    }

    /// The names of all objects, and what is stored. The first of two with one name counts.
    fn all_objects(&self, alloc: Global) -> Result<Vec<(ObjectId, Vec<u8>)>, AllocError> {
        let mut objects = Vec::new(alloc);
        objects.push((self.object, Vec::from_slice(alloc, &self.stored)?))?;
        for (name, stored) in OBJECTS {
            objects.push((name, Vec::from_slice(alloc, stored)?))?;
        }
        for (name, stored) in self.objects.as_slice() {
            objects.push((*name, Vec::from_slice(alloc, stored)?))?;
        }
        Ok(objects)
    }

    /// The repository, with this index.
    pub fn with_index(
        &self,
        alloc: Global,
        index: Option<Vec<u8>>,
    ) -> Result<MemoryRepo, AllocError> {
        let objects = self.all_objects(alloc)?;
        let config = copied(alloc, &self.config)?;
        let info = copied(alloc, &self.info)?;
        let fails = Vec::from_slice(alloc, &self.fails)?;
        let repo = MemoryRepo::new(alloc, index, config, info, objects, fails);
        match &self.base {
            Some(base) => Ok(repo.with_base(Vec::from_slice(alloc, base)?)),
            None => Ok(repo),
        }
    }

    /// Takes what a cell says of memory that runs out.
    fn set_memory(&mut self, value: &[u8]) -> Result<(), Fail> {
        let (word, letter) = parted(value);
        let name = Some(named_by(letter)?);
        if word == b"make".as_slice() {
            self.unmade = name;
        } else if word == b"read".as_slice() {
            self.unread = name;
        } else {
            return Err(unknown(word));
        }
        Ok(())
    }

    /// Appends a byte to what is stored, so many times as the digits say.
    fn store_many(&mut self, alloc: Global, byte: u8, digits: &[u8]) -> Result<(), Fail> {
        let bytes = vec![in alloc; byte; number_of(digits)? as usize]?;
        given(self.stored.extend_from_slice(&bytes))
    }

    /// Takes what a cell says of the repository.
    fn take(&mut self, alloc: Global, word: Word, value: &[u8]) -> Result<(), Fail> {
        match word {
            Word::Object => self.object = named_by(value)?,
            Word::Bytes => self.stored = Vec::from_slice(alloc, value)?,
            Word::Nuls => self.store_many(alloc, 0, value)?,
            Word::Letters => self.store_many(alloc, b'a', value)?,
            Word::Config => self.config = Some(Vec::from_slice(alloc, value)?),
            Word::Info => self.info = Some(Vec::from_slice(alloc, value)?),
            Word::Xdg => self.base = Some(repeated(alloc, value)?),
            Word::ReadFails => self.fails.push(read_fail_of(value)?)?,
            Word::Memory => self.set_memory(value)?,
        }
        Ok(())
    }

    /// Takes what a cell says of the repository. Whether it is such a cell.
    pub fn set(&mut self, alloc: Global, word: &[u8], value: &[u8]) -> Result<bool, Fail> {
        match meant(WORDS, word) {
            Some(word) => {
                self.take(alloc, word, value)?;
                Ok(true)
            }
            None => Ok(false),
        }
    }
}
