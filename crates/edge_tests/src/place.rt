//! A folder of a test's own, with what is to be in it.
use crate::table::cut;
use std::env::temp_dir;
use std::fs::{create_dir, read_to_string, remove_dir_all};
use std::os::unix::fs::symlink;
use std::{io, process};

/// The path of what is in a folder.
pub fn path_in(rt: HostRuntime, folder: &str, path: &str) -> io::Result<String> {
    Ok(format!(in rt.alloc(); "{folder}/{path}")?)
}

/// Makes one thing: `d` and a folder's path, `f`, a file's path and its text, or `l`, a link's path
/// and where it leads.
fn make(rt: HostRuntime, folder: &str, thing: &str) -> io::Result<()> {
    let (kind, rest) = cut(thing, ' ');
    let (path, text) = cut(rest, ' ');
    let path = path_in(rt, folder, path)?;
    match kind {
        "d" => create_dir(&rt, path.as_str()),
        "f" => std::fs::write(&rt, path.as_str(), text),
        _ => symlink(&rt, text, path.as_str()),
    }
}

/// Makes what `;` stands between.
fn make_all(rt: HostRuntime, folder: &str, things: &str) -> io::Result<()> {
    let mut rest = things;
    for _ in 0..things.len() {
        if rest.is_empty() {
            break;
        }
        let (thing, more) = cut(rest, ';');
        make(rt, folder, thing)?;
        rest = more;
    }
    Ok(())
}

/// A fresh folder for the test with this name, and what is to be in it.
pub fn folder_with(rt: HostRuntime, test: &str, things: &str) -> io::Result<String> {
    let base = temp_dir(&rt)?;
    let id = process::id(rt.process());
    let folder = format!(in rt.alloc(); "{}/checkout-{test}-{id}", base.display())?;
    let _ = remove_dir_all(&rt, folder.as_str());
    create_dir(&rt, folder.as_str())?;
    make_all(rt, folder.as_str(), things)?;
    Ok(folder)
}

/// Whether the file at a path of a test's folder has that text, or nothing is there if that is `!`.
pub fn holds(rt: HostRuntime, folder: &str, path: &str, text: &str) -> io::Result<bool> {
    let path = path_in(rt, folder, path)?;
    if text == "!" {
        return Ok(!std::fs::exists(&rt, path.as_str())?);
    }
    Ok(read_to_string(&rt, path.as_str())?.as_str() == text)
}
