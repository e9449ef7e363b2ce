//! The trees and commits of a repository, each checked against its name.
ghost use Rattle.std.specs.Prelude.{◌≤◌, IfOk, length};
ghost use Rattle.edge_kit.specs.Told.{Untold};

use crate::object_lack::ObjectLack;
use crate::stored_objects::StoredObjects;
use byte_path::{ObjectId, read_decimal};
use edge_kit::TakeFault;
use git_trees::TreeSource;
use memchr::memchr;
use sha1::Sha1;
use std::alloc::Global;

/// The most bytes of a commit, a tree or a tag.
const MOST: u64 = 67_108_864;

/// The most trees that are taken. Trees that hold nothing but each other many times over could be without end.
const MOST_TREES: u32 = 1_000_000;

/// The longest text before a content.
const HEAD: u64 = 32;

/// What stands before the first byte like this, and what stands behind it.
fn cut(bytes: &[u8], at: u8) -> Option<(&[u8], &[u8])> {
    let place = memchr(at, bytes)?;
    let (front, rest) = bytes.split_at(place);
    let (_, behind) = rest.split_at(1);
    Some((front, behind))
}

/// The content of a stored object of this kind and name.
fn checked<'a>(stored: &'a [u8], kind: &[u8], name: &ObjectId) -> Result<&'a [u8], ObjectLack> {
    let (head, content) = cut(stored, 0).ok_or(ObjectLack::Header)?;
    let (told, size) = cut(head, b' ').ok_or(ObjectLack::Header)?;
    if told != kind {
        return Err(ObjectLack::Header);
    }
    if read_decimal(size, u64::MAX) != Some(content.len() as u64) {
        return Err(ObjectLack::Size);
    }
    if Sha1::digest(stored) != *name {
        return Err(ObjectLack::Name);
    }
    Ok(content)
}

/// The stored form of an object.
fn stored_of<S: StoredObjects>(
    objects: &S,
    name: &ObjectId,
    limit: u64,
) -> Result<Vec<u8>, ObjectLack> {
    match objects.stored(name, limit.saturating_add(HEAD)) {
        Ok(Some(stored)) => Ok(stored),
        Ok(None) => Err(ObjectLack::Absent),
        Err(TakeFault::TooLong) => Err(ObjectLack::TooLarge),
        Err(TakeFault::Failed) => Err(ObjectLack::Unread),
        Err(TakeFault::NoMemory) => Err(ObjectLack::NoMemory),
    }
}

/// The name that a commit's first line gives its tree (gitformat "commit").
fn tree_in(commit: &[u8]) -> Option<ObjectId> {
    let (line, _) = cut(commit, b'\n')?;
    let mut name = [0u8; 20];
    match hex::decode_to_slice(line.strip_prefix(b"tree ")?, name.as_mut_slice()) {
        Ok(()) => Some(name),
        Err(_) => None,
    }
}

/// The name of the tree of a commit, or of the tree itself. `None` if it is neither, or isn't given.
pub fn root_tree<S: StoredObjects>(objects: &S, name: &ObjectId) -> Option<ObjectId> {
    let stored = stored_of(objects, name, MOST).ok()?;
    if stored.starts_with(b"tree ") {
        return Some(*name);
    }
    tree_in(checked(stored.as_slice(), b"commit", name).ok()?)
}

/// The trees among stored objects, each checked against its name.
#[derive(Drop)]
pub struct TreeObjects<'a, S> {
    objects: &'a S,
    alloc: Global,
    /// The name of the tree that was asked for last.
    pub last: ObjectId,
    /// Why that one wasn't taken, if taking it failed.
    pub lack: ObjectLack,
    taken: u32,
    faults: u64,
}

impl<'a, S> TreeObjects<'a, S> {
    /// The trees among these objects, of which none was asked for.
    pub fn new(objects: &'a S, alloc: Global) -> TreeObjects<'a, S> {
        TreeObjects {
            objects,
            alloc,
            last: [0; 20],
            lack: ObjectLack::Absent,
            taken: 0,
            faults: 0,
        }
    }
}

/// The content of a tree.
fn tree_content<S: StoredObjects>(
    objects: &S,
    alloc: Global,
    name: &ObjectId,
    limit: u64,
) -> Result<Vec<u8>, ObjectLack>
    ensures { IfOk result (λ v. length v.items ≤ limit) }
{
    let stored = stored_of(objects, name, limit)?;
    let content = checked(stored.as_slice(), b"tree", name)?;
    if content.len() as u64 > limit {
        return Err(ObjectLack::TooLarge);
    }
    Ok(Vec::from_slice(alloc, content)?)
}

impl<S: StoredObjects> TreeSource for TreeObjects<'_, S> {
    ghost told = { λ _. λ _. Untold };

    ghost faults = { λ s. s.faults };

    fn tree(&mut self, name: &ObjectId, limit: u64) -> Result<Option<Vec<u8>>, TakeFault> {
        self.last = *name;
        self.taken = self.taken.saturating_add(1);
        let content = if self.taken > MOST_TREES {
            Err(ObjectLack::TooMany)
        } else {
            tree_content(self.objects, self.alloc, name, limit)
        };
        match content {
            Ok(content) => Ok(Some(content)),
            Err(ObjectLack::Absent) => Ok(None),
            Err(ObjectLack::NoMemory) => Err(TakeFault::NoMemory),
            Err(lack) => {
                self.lack = lack;
                self.faults = self.faults.saturating_add(1);
                Err(TakeFault::Failed)
            }
        }
    }
}
