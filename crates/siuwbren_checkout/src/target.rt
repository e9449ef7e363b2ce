//! The place of the folder that a checkout fills, looked at before anything is done, and the folder itself.
use exit_status::ExitStatus;
use reports::ReportForm;
use siuwbren_index::refuse_wish;
use std::alloc::AllocError;
use std::fs::{create_dir_all, metadata, symlink_metadata};
use std::io;
use std::io::{Error, ErrorKind};

/// The path itself, or the first of the folders that it is in, from the inmost one on, at which something stands.
fn standing(rt: HostRuntime, tree: &str) -> Option<&str> {
    let mut path = tree.trim_end_matches('/');
    for _ in 0..tree.len() {
        if symlink_metadata(&rt, path).is_ok() {
            return Some(path);
        }
        match path.rsplit_once('/') {
            Some((folder, _)) => path = folder,
            None => return None,
        }
    }
    None
}

/// A folder has to be at the path, also over links.
fn need_folder(rt: HostRuntime, path: &str) -> io::Result<()> {
    if metadata(&rt, path)?.is_dir() {
        Ok(())
    } else {
        Err(Error::from(ErrorKind::NotADirectory))
    }
}

/// The status if no folder can be at this path: it is empty, or a file or a link that leads to no folder stands at it or
/// at a part of it. It is said why, where a report is to have this form.
pub fn refused_target(
    rt: HostRuntime,
    form: ReportForm,
    tree: &str,
) -> Result<Option<ExitStatus>, AllocError> {
    if tree.is_empty() {
        return Ok(Some(refuse_wish(rt, form, "TREE is an empty text")));
    }
    let Some(path) = standing(rt, tree) else {
        return Ok(None);
    };
    let Err(error) = need_folder(rt, path) else {
        return Ok(None);
    };
    let words = format!(in rt.alloc(); "TREE can't be a folder: {path}: {error}")?;
    Ok(Some(refuse_wish(rt, form, words.as_str())))
}

/// Makes the folder if it isn't there: a checkout of no files has made none. Standard error says why it can't be made.
pub fn make_target(rt: HostRuntime, tree: &str) {
    if let Err(error) = create_dir_all(&rt, tree) {
        let _ = eprintln!(rt; "warning: the folder {tree}: {error}");
    }
}
