//! The lines that `git ls-files --stage` prints.
ghost use Rattle.std.specs.Prelude.{◌≡◌, ◌++◌, OnOk, IfOk};
ghost use Rattle.std.specs.List.{flat_map};
ghost use Rattle.git_listings.specs.IndexRows.{octal, line};

use byte_path::quote_path;
use git_index::{Entry, Mode};
use std::alloc::{AllocError, Global};

fn octal_of(mode: Mode) -> &'static [u8]
    ensures { result.now ≡ octal mode }
{
    match mode {
        Mode::Plain => b"100644",
        Mode::Executable => b"100755",
        Mode::Link => b"120000",
        Mode::Gitlink => b"160000",
    }
}

fn push_line(text: &mut Vec<u8>, alloc: Global, entry: &Entry) -> Result<(), AllocError>
    ensures { OnOk result (text.new.items ≡ text.old.items ++ line entry.now) }
{
    let name = hex::encode(alloc, entry.name)?;
    let path = quote_path(alloc, entry.path.as_slice())?;
    text.extend_from_slice(octal_of(entry.mode))?;
    text.push(b' ')?;
    text.extend_from_slice(name.as_bytes())?;
    text.extend_from_slice(&[b' ', b'0' + entry.stage % 10, b'\t'])?;
    text.extend_from_slice(&path)?;
    text.push(b'\n')?;
    Ok(())
}

/// A line for each entry, with its path quoted if git quotes it.
pub fn listing_of(alloc: Global, entries: &[Entry]) -> Result<Vec<u8>, AllocError>
    ensures { IfOk result (λ text. text.items ≡ flat_map line entries.now) }
{
    let mut text = Vec::new(alloc);
    for entry in entries {
        push_line(&mut text, alloc, entry)?;
    }
    Ok(text)
}
