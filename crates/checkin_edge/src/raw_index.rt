//! The bytes of an index, entry by entry (gitformat-index(5), versions 2 to 4), with the marks that nothing else reads.
use std::alloc::{AllocError, Global};

/// How many bytes stand before the first entry.
const HEADER: usize = 12;

/// How many bytes the hash at an index's end has.
const HASH: usize = 20;

/// How many bytes stand before an entry's path, or before the 16 more bits if it has these.
const FIELDS: usize = 62;

/// How many bytes stand before the path of an entry with the 16 more bits.
const MORE_FIELDS: usize = 64;

/// How many bytes of an entry stand before its mode: two times, the device and the inode.
const BEFORE_MODE: usize = 24;

/// In the first byte of the flags: assume-valid, whether 16 more bits follow, and the stage.
const VALID: u8 = 0x80;

const EXTENDED: u8 = 0x40;

const STAGE: u8 = 0x30;

/// In the first byte of the 16 more bits: skip-worktree.
const SPARSE: u8 = 0x40;

/// An entry as it stands in an index.
#[derive(Clone, Copy)]
pub struct RawEntry<'a> {
    /// What stands before its mode.
    front: &'a [u8],
    mode: [u8; 4],
    /// What stands between its mode and its flags: the user, the group, the size and the name of its object.
    behind: &'a [u8],
    flags: [u8; 2],
    /// The 16 more bits, if it has them.
    more: Option<[u8; 2]>,
    /// The path and its end. In version 4 it is what the path has otherwise than the one before.
    rest: &'a [u8],
}

/// The entries of an index, and what follows them.
#[derive(Drop)]
pub struct RawIndex<'a> {
    pub version: u8,
    count: [u8; 4],
    pub entries: Vec<RawEntry<'a>>,
    /// The extensions and the hash.
    behind: &'a [u8],
}

fn nul_in(bytes: &[u8]) -> Option<usize> {
    bytes.iter().position(|byte| *byte == 0)
}

/// How many bytes make the length of an entry a multiple of eight, at least one.
fn padding(len: usize) -> usize {
    8 - len % 8
}

/// How many bytes a path has with its padding, behind so many others of its entry.
fn padded_len(head: usize, tail: &[u8]) -> Option<usize> {
    let len = nul_in(tail)?;
    len.checked_add(padding(head.checked_add(len)?))
}

/// How many bytes a path of version 4 has: a number by seven bits, what is added, and a NUL.
fn changed_len(tail: &[u8]) -> Option<usize> {
    let last = tail.iter().position(|byte| *byte < 128)?;
    let digits = last.checked_add(1)?;
    let (_, added) = tail.split_at_checked(digits)?;
    nul_in(added)?.checked_add(1)?.checked_add(digits)
}

/// The 16 more bits behind the fields of an entry.
fn more_of(tail: &[u8]) -> Option<[u8; 2]> {
    match tail {
        [high, low, ..] => Some([*high, *low]),
        _ => None,
    }
}

/// The fields of an entry, without those that follow its flags.
fn fields_of(fields: &[u8]) -> Option<RawEntry<'_>> {
    let (front, others) = fields.split_at_checked(BEFORE_MODE)?;
    let [a, b, c, d, behind @ .., high, low] = others else {
        return None;
    };
    Some(RawEntry {
        front,
        mode: [*a, *b, *c, *d],
        behind,
        flags: [*high, *low],
        more: None,
        rest: &[],
    })
}

/// The entry that the bytes begin with, and what follows it.
fn split_entry(version: u8, bytes: &[u8]) -> Option<(RawEntry<'_>, &[u8])> {
    let (fields, tail) = bytes.split_at_checked(FIELDS)?;
    let fields = fields_of(fields)?;
    let [high, _] = fields.flags;
    let (head, more) = if high & EXTENDED == 0 {
        (FIELDS, None)
    } else {
        (MORE_FIELDS, Some(more_of(tail)?))
    };
    let (_, tail) = bytes.split_at_checked(head)?;
    let len = match version {
        4 => changed_len(tail)?,
        _ => padded_len(head, tail)?,
    };
    let (rest, after) = tail.split_at_checked(len)?;
    let entry = RawEntry {
        more,
        rest,
        ..fields
    };
    Some((entry, after))
}

/// The second fields of flags without skip-worktree.
fn without_sparse(more: Option<[u8; 2]>) -> Option<[u8; 2]> {
    let fields = more?;
    let [high, low] = fields;
    Some([high & !SPARSE, low])
}

impl<'a> RawEntry<'a> {
    /// Whether it is assumed to be as its file is (assume-valid), and merged.
    pub fn is_assumed(&self) -> bool {
        let [high, _] = self.flags;
        high & VALID != 0 && high & STAGE == 0
    }

    /// Its path, in versions 2 and 3.
    pub fn path(&self) -> &'a [u8] {
        match self.rest.split(|byte| *byte == 0).next() {
            Some(path) => path,
            None => &[],
        }
    }

    /// Appends its bytes.
    pub fn push(&self, version: u8, index: &mut Vec<u8>) -> Result<(), AllocError> {
        index.extend_from_slice(self.front)?;
        index.extend_from_slice(self.mode.as_slice())?;
        index.extend_from_slice(self.behind)?;
        index.extend_from_slice(self.flags.as_slice())?;
        if let Some(more) = self.more {
            index.extend_from_slice(more.as_slice())?;
        }
        if version == 4 {
            return index.extend_from_slice(self.rest);
        }
        let head = if self.more.is_some() {
            MORE_FIELDS
        } else {
            FIELDS
        };
        let path = self.path();
        index.extend_from_slice(path)?;
        for _ in 0..padding(head.saturating_add(path.len())) {
            index.push(0)?;
        }
        Ok(())
    }

    /// This entry with the mode that this number says.
    pub fn of_mode(self, number: u32) -> RawEntry<'a> {
        RawEntry {
            mode: number.to_be_bytes(),
            ..self
        }
    }

    /// What it tells of its file, but for the device, which git passes over: the times, the inode, the user, the group
    /// and the size.
    pub fn told(&self) -> [&'a [u8]; 3] {
        let (times, place) = self.front.split_at_checked(16).unwrap_or((self.front, &[]));
        let (_, inode) = place.split_at_checked(4).unwrap_or((&[], place));
        let (owner, _) = self
            .behind
            .split_at_checked(12)
            .unwrap_or((self.behind, &[]));
        [times, inode, owner]
    }

    /// This entry with skip-worktree.
    fn sparse(self) -> RawEntry<'a> {
        let [high, low] = self.flags;
        let [more_high, more_low] = self.more.unwrap_or([0, 0]);
        RawEntry {
            flags: [high | EXTENDED, low],
            more: Some([more_high | SPARSE, more_low]),
            ..self
        }
    }

    /// This entry with assume-valid, and with skip-worktree only if it is to have that.
    pub fn assumed(self, sparse: bool) -> RawEntry<'a> {
        let [high, low] = self.flags;
        let more = if sparse {
            self.more
        } else {
            without_sparse(self.more)
        };
        RawEntry {
            flags: [high | VALID, low],
            more,
            ..self
        }
    }
}

impl<'a> RawIndex<'a> {
    /// The index with these bytes, if they go on like one.
    pub fn read(alloc: Global, index: &'a [u8]) -> Result<Option<RawIndex<'a>>, AllocError> {
        let Some((header, mut rest)) = index.split_at_checked(HEADER) else {
            return Ok(None);
        };
        let [.., version, a, b, c, d] = header else {
            return Ok(None);
        };
        let count = [*a, *b, *c, *d];
        let mut entries = Vec::new(alloc);
        for _ in 0..u32::from_be_bytes(count) {
            let Some((entry, after)) = split_entry(*version, rest) else {
                return Ok(None);
            };
            entries.push(entry)?;
            rest = after;
        }
        Ok(Some(RawIndex {
            version: *version,
            count,
            entries,
            behind: rest,
        }))
    }

    /// The signatures of its extensions.
    pub fn extensions(&self, alloc: Global) -> Result<Vec<[u8; 4]>, AllocError> {
        let mut found = Vec::new(alloc);
        let mut rest = self.behind;
        for _ in 0..self.behind.len() {
            let [a, b, c, d, e, f, g, h, content @ ..] = rest else {
                break;
            };
            let size = u32::from_be_bytes([*e, *f, *g, *h]) as usize;
            let Some((_, after)) = content.split_at_checked(size) else {
                break;
            };
            if after.len() < HASH {
                break;
            }
            found.push([*a, *b, *c, *d])?;
            rest = after;
        }
        Ok(found)
    }

    /// Its front.
    pub fn begun(&self, alloc: Global) -> Result<Vec<u8>, AllocError> {
        self.begun_as(alloc, self.version)
    }

    /// The front of an index of this version with as many entries.
    fn begun_as(&self, alloc: Global, version: u8) -> Result<Vec<u8>, AllocError> {
        let mut index = Vec::new(alloc);
        index.extend_from_slice(b"DIRC\0\0\0")?;
        index.push(version)?;
        index.extend_from_slice(self.count.as_slice())?;
        Ok(index)
    }

    /// Appends its extensions, and no hash: 20 NULs.
    pub fn end(&self, index: &mut Vec<u8>) -> Result<(), AllocError> {
        let kept = self.behind.len().saturating_sub(HASH);
        if let Some((extensions, _)) = self.behind.split_at_checked(kept) {
            index.extend_from_slice(extensions)?;
        }
        index.extend_from_slice([0u8; HASH].as_slice())
    }

    /// The index with skip-worktree at each entry that is assumed to be as its file is, and with no hash.
    pub fn with_assumed_sparse(&self, alloc: Global) -> Result<Vec<u8>, AllocError> {
        let version = self.version.max(3);
        let mut index = self.begun_as(alloc, version)?;
        for entry in self.entries.iter() {
            if entry.is_assumed() {
                entry.sparse().push(version, &mut index)?;
            } else {
                entry.push(version, &mut index)?;
            }
        }
        self.end(&mut index)?;
        Ok(index)
    }
}
