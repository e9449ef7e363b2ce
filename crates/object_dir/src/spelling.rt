//! A blob's object as bytes, its name and its path.
ghost use Rattle.std.specs.Prelude.{◌≡◌, IfOk, string_bytes};
ghost use Rattle.sha1.specs.Sha1.{sha1};
ghost use Rattle.object_dir.specs.Spelling.{spelled_blob, path_of};

use byte_path::ObjectId;
use itoa::Buffer;
use sha1::Sha1;
use std::alloc::{AllocError, Global};

/// The name of the blob with this content: the SHA-1 of its stored bytes. It takes no memory.
pub fn blob_name(content: &[u8]) -> ObjectId
    ensures { result ≡ sha1 (spelled_blob content.now) }
{
    let mut size = Buffer::new();
    let mut hasher = Sha1::new();
    hasher.update(b"blob ");
    hasher.update(size.format(content.len()).as_bytes());
    hasher.update(b"\0");
    hasher.update(content);
    hasher.finalize()
}

/// The most bytes of a header: `blob `, twenty digits and a NUL.
const MAX_HEADER: usize = 26;

/// The stored bytes of a content.
pub fn spell_blob(alloc: Global, content: &[u8]) -> Result<Vec<u8>, AllocError>
    ensures { IfOk result (λ stored. stored.items ≡ spelled_blob content.now) }
{
    let mut size = Buffer::new();
    let mut stored = Vec::with_capacity(alloc, content.len() + MAX_HEADER)?;
    stored.extend_from_slice(b"blob ")?;
    stored.extend_from_slice(size.format(content.len()).as_bytes())?;
    stored.push(0)?;
    stored.extend_from_slice(content)?;
    Ok(stored)
}

/// The path of an object's file in its repository: `objects/`, two hexadecimal digits of the name, `/`, the other 38.
pub fn object_path(alloc: Global, name: &ObjectId) -> Result<String, AllocError>
    ensures { IfOk result (λ path. string_bytes path ≡ path_of name.now) }
{
    let (first, others) = name.as_slice().split_at(1);
    let folder = hex::encode(alloc, first)?;
    let file = hex::encode(alloc, others)?;
    let mut path = String::from_str(alloc, "objects/")?;
    path.push_str(folder.as_str())?;
    path.push_str("/")?;
    path.push_str(file.as_str())?;
    Ok(path)
}
