//! Loose objects: each is a zlib stream in a file of its own (gitrepository-layout(5)).
ghost use Rattle.std.specs.Prelude.{IfOk, IfSome, ◌≤◌, length};

use crate::fault::ObjectsFault;
use crate::pack::deflated;
use byte_path::ObjectId;
use edge_adapters::read_whole;
use inflate::inflate;
use std::alloc::{AllocError, Global};

/// The path of the file of the object with this name, in a folder of objects.
fn loose_path(alloc: Global, folder: &str, name: &ObjectId) -> Result<String, AllocError> {
    let (first, others) = name.as_slice().split_at(1);
    let first = hex::encode(alloc, first)?;
    let others = hex::encode(alloc, others)?;
    format!(in alloc; "{folder}/{first}/{others}")
}

/// The stored form of the object with this name, if a folder of objects has a file of it.
pub fn loose_object(
    rt: HostRuntime,
    folder: &str,
    name: &ObjectId,
    limit: u64,
) -> Result<Option<Vec<u8>>, ObjectsFault>
    ensures { IfOk result (λ taken. IfSome taken (λ stored. length stored.items ≤ limit)) }
{
    let alloc = rt.alloc();
    let path = loose_path(alloc, folder, name)?;
    let Some(file) = read_whole(rt, alloc, path.as_str(), deflated(limit))? else {
        return Ok(None);
    };
    let mut stored = Vec::new(alloc);
    let used = inflate(alloc, file.as_slice(), &mut stored, limit as usize)?;
    if used != file.len() {
        return Err(ObjectsFault::Broken);
    }
    Ok(Some(stored))
}
