//! An index as git spells it (gitformat-index(5)).
use byte_path::ObjectId;
use case_kit::unknown;
use std::alloc::{AllocError, Global};
use std::test::Fail;

/// What an entry says beside its object and its path.
#[derive(Clone, Copy)]
pub struct Kind {
    mode: u32,
    /// Its stage, as its flags have it.
    stage: u16,
    /// The 16 more bits, which are there if one is set.
    pub more: u16,
}

fn made(mode: u32, stage: u16, more: u16) -> Kind {
    Kind { mode, stage, more }
}

/// The kind of an entry, by a letter: `-` plain, `x` executable, `l` link, `g` gitlink, a digit a plain one of that
/// stage, `s` a sparse plain one, and `i` one that is to be added.
pub fn kind_of(letter: u8) -> Result<Kind, Fail> {
    match letter {
        b'-' => Ok(made(0o100644, 0, 0)),
        b'x' => Ok(made(0o100755, 0, 0)),
        b'l' => Ok(made(0o120000, 0, 0)),
        b'g' => Ok(made(0o160000, 0, 0)),
        b'1' => Ok(made(0o100644, 0x1000, 0)),
        b'2' => Ok(made(0o100644, 0x2000, 0)),
        b'3' => Ok(made(0o100644, 0x3000, 0)),
        b's' => Ok(made(0o100644, 0, 0x4000)),
        b'i' => Ok(made(0o100644, 0, 0x2000)),
        _ => Err(unknown(&[letter])),
    }
}

/// Appends an entry.
pub fn push_entry(
    index: &mut Vec<u8>,
    kind: Kind,
    name: &ObjectId,
    path: &[u8],
) -> Result<(), AllocError> {
    let len = path.len() % 0x1000;
    let (extended, head) = if kind.more == 0 {
        (0, 62)
    } else {
        (0x4000, 64)
    };
    let flags = extended | kind.stage | len as u16;
    index.extend_from_slice(&[0; 24])?;
    index.extend_from_slice(&kind.mode.to_be_bytes())?;
    index.extend_from_slice(&[0; 12])?;
    index.extend_from_slice(name)?;
    index.extend_from_slice(&flags.to_be_bytes())?;
    if kind.more != 0 {
        index.extend_from_slice(&kind.more.to_be_bytes())?;
    }
    index.extend_from_slice(path)?;
    let padding = 8 - (head + len) % 8;
    index.extend_from_slice([0u8; 8].split_at(padding).0)?;
    Ok(())
}

/// The bytes of an index of this version, with so many entries and without a hash.
pub fn index_bytes(
    alloc: Global,
    version: u32,
    count: u32,
    entries: &[u8],
) -> Result<Vec<u8>, AllocError> {
    let version = version.to_be_bytes();
    let count = count.to_be_bytes();
    [b"DIRC".as_slice(), &version, &count, entries, &[0; 20]].concat(alloc)
}
