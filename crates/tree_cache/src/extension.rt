//! An index with its tree cache.
ghost use Rattle.std.specs.Prelude.{◌≡◌, ◌<◌, ◌^◌, List, length, IfOk};
ghost use Rattle.git_index.specs.Spelling.{IsIndexText};
ghost use Rattle.git_index.specs.declared.entry.Entry.{Entry};
ghost use Rattle.tree_cache.specs.Extension.{with_extension};

use sha1::Sha1;
use std::alloc::{AllocError, Global};

/// The index with this tree cache behind its other extensions. Who reads it has the same entries.
pub fn with_tree_cache(alloc: Global, index: &[u8], cache: &[u8]) -> Result<Vec<u8>, AllocError>
    requires { length cache.now < 2 ^ 32 }
    ensures value { IfOk result (λ text. text.items ≡ with_extension index.now cache.now) }
    ensures same { IfOk result (λ text. (entries : List Entry) → IsIndexText index.now entries
        → IsIndexText text.items entries) }
{
    let (body, _) = index.split_at(index.len().saturating_sub(20));
    let mut text = Vec::from_slice(alloc, body)?;
    text.extend_from_slice(b"TREE")?;
    text.extend_from_slice(&(cache.len() as u32).to_be_bytes())?;
    text.extend_from_slice(cache)?;
    let hash = Sha1::digest(&text);
    text.extend_from_slice(&hash)?;
    Ok(text)
}
