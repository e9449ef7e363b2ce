//! The paths of the files that the program opens.
ghost use Rattle.std.specs.Prelude.{◌≡◌, IfOk, string_bytes};
ghost use Rattle.edge_adapters.specs.Paths.{path_in};

use std::alloc::{AllocError, Global};

/// The path of a file in a folder. The empty text names no folder, so nothing in it has a path: it must not become a
/// path from the root.
pub fn path_in(alloc: Global, folder: &str, file: &str) -> Result<String, AllocError>
    ensures { IfOk result (λ path. string_bytes path ≡ path_in folder.now file.now) }
{
    if folder.is_empty() {
        return Ok(String::new(alloc));
    }
    let mut path = String::with_capacity(alloc, folder.len() + 1 + file.len())?;
    path.push_str(folder)?;
    path.push_str("/")?;
    path.push_str(file)?;
    Ok(path)
}
