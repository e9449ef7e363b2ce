//! What is to be said of a repository beside the report, and where its drivers run.
use crate::finding::FoundRepository;
use crate::git::Git;
use byte_path::{Bytes, ObjectId, quote_path};
use edge_adapters::DriverPlace;
use std::alloc::{AllocError, Global};
use std::env::var;

/// What git with these words gives, or nothing if it fails.
fn said(git: &Git, words: &[&str]) -> Result<Vec<u8>, AllocError> {
    match git.ask(words) {
        Ok(answer) if answer.is_good() => Ok(answer.bytes),
        _ => Ok(Vec::new(git.alloc)),
    }
}

/// Bytes as a text, quoted as in the report if they have to be.
fn text_of(alloc: Global, bytes: &[u8]) -> Result<String, AllocError> {
    match String::from_utf8(quote_path(alloc, bytes)?) {
        Ok(text) => Ok(text),
        Err(_) => Ok(String::new(alloc)),
    }
}

/// Names the attribute files that git reads at their second stage.
fn add_unmerged(
    alloc: Global,
    unmerged: &[Bytes],
    notes: &mut Vec<String>,
) -> Result<(), AllocError> {
    for path in unmerged {
        let path = text_of(alloc, path.as_slice())?;
        notes.push(format!(in alloc;
            "{path} is unmerged: git reads its second stage, and this program none"
        )?)?;
    }
    Ok(())
}

fn hex_of(alloc: Global, name: &ObjectId) -> Result<String, AllocError> {
    hex::encode(alloc, name.as_slice())
}

/// The names, each once and in order.
fn each_once(mut names: Vec<ObjectId>) -> Vec<ObjectId> {
    names.sort_unstable();
    names.dedup();
    names
}

/// Whether a byte means itself wherever it stands in a shell's word.
fn is_plain(byte: u8) -> bool {
    byte.is_ascii_alphanumeric() || b"/._-".contains(&byte)
}

/// A text as one word of a shell's command.
pub fn word_of(alloc: Global, text: &str) -> Result<String, AllocError> {
    if text.bytes().all(is_plain) {
        return String::from_str(alloc, text);
    }
    let mut word = String::from_str(alloc, "'")?;
    for (place, part) in text.split('\'').enumerate() {
        if place > 0 {
            word.push_str("'\\''")?;
        }
        word.push_str(part)?;
    }
    word.push_str("'")?;
    Ok(word)
}

/// How a shell calls git for the same repository.
fn call_of(git: &Git) -> Result<String, AllocError> {
    if let Some(folder) = &git.folder {
        let folder = word_of(git.alloc, folder.as_str())?;
        return format!(in git.alloc; "git -C {folder}");
    }
    match &git.named {
        Some(folder) => {
            let folder = word_of(git.alloc, folder.as_str())?;
            format!(in git.alloc; "git --git-dir={folder}")
        }
        None => String::from_str(git.alloc, "git"),
    }
}

/// The command that fetches all that the clone lacks of a tree, or else of its own index, however much that is. It
/// fetches as git itself does what was promised, without a word on the commits that are here, whose objects may be
/// lacking.
fn fetch_of(git: &Git, remote: &[u8], tree: Option<&str>) -> Result<String, AllocError> {
    let call = call_of(git)?;
    let remote = word_of(git.alloc, text_of(git.alloc, remote)?.as_str())?;
    let wanted = tree.unwrap_or("--indexed-objects");
    format!(in git.alloc;
        "{call} rev-list --objects --missing=print {wanted} | sed -n 's/^?//p' | \
         {call} -c fetch.negotiationAlgorithm=noop fetch -q --no-tags --no-write-fetch-head --filter=blob:none \
         --stdin {remote}"
    )
}

/// How many objects a clone lacks of a tree, or else of its own index, as git counts them.
fn lacked(git: &Git, tree: Option<&str>) -> Result<usize, AllocError> {
    let wanted = tree.unwrap_or("--indexed-objects");
    let listed = said(git, &["rev-list", "--objects", "--missing=print", wanted])?;
    Ok(
        listed
            .split(|byte| *byte == b'\n')
            .filter(|line| line.starts_with(b"?"))
            .count(),
    )
}

/// The note on the objects that a partial clone lacks: at least those that were met, each once.
fn lack_of(
    git: &Git,
    remote: &[u8],
    tree: Option<&str>,
    absent: &[ObjectId],
) -> Result<String, AllocError> {
    let met = each_once(absent.to_vec(git.alloc)?).len();
    let count = lacked(git, tree)?.max(met);
    let unit = if count == 1 { "object" } else { "objects" };
    let fetch = fetch_of(git, remote, tree)?;
    format!(in git.alloc; "this partial clone lacks {count} {unit}. To fetch them: {fetch}")
}

fn add_replaced(
    git: &Git,
    returned: &[(ObjectId, u64)],
    notes: &mut Vec<String>,
) -> Result<(), AllocError> {
    let listed = said(
        git,
        &[
            "for-each-ref",
            "--format=%(refname:lstrip=2)",
            "refs/replace/",
        ],
    )?;
    if listed.is_empty() {
        return Ok(());
    }
    let read = each_once(returned.iter().map(|blob| blob.0).collect(git.alloc)?);
    for digits in listed.split(|byte| *byte == b'\n') {
        let mut name = [0u8; 20];
        if hex::decode_to_slice(digits, name.as_mut_slice()).is_ok()
            && read.binary_search(&name).is_ok()
        {
            let digits = hex_of(git.alloc, &name)?;
            notes.push(format!(in git.alloc;
                "object {digits} is replaced (git replace): git writes what replaces it, \
                 and this program the object itself"
            )?)?;
        }
    }
    Ok(())
}

/// Copies of lines.
fn copies_of(alloc: Global, lines: &[String]) -> Result<Vec<String>, AllocError> {
    let mut copies = Vec::with_capacity(alloc, lines.len())?;
    for line in lines {
        copies.push(line.clone()?)?;
    }
    Ok(copies)
}

/// What was met in a repository that is to be said.
#[derive(Clone, Copy)]
pub struct Met<'a> {
    /// Why attribute files of the system and of the user are left out, which git says too.
    pub left_out: &'a [String],
    /// The attribute files of its index that have a second stage.
    pub unmerged: &'a [Bytes],
    /// The names of objects that aren't there.
    pub absent: &'a [ObjectId],
    /// The objects that were given back, if some may be replaced.
    pub returned: Option<&'a [(ObjectId, u64)]>,
}

/// What is to be said of a repository, of which this was met: of its own index or of this tree, and of the objects that
/// a clone of part of this remote lacks.
pub fn notes_of(
    git: &Git,
    tree: Option<&str>,
    remote: Option<&[u8]>,
    met: Met<'_>,
) -> Result<Vec<String>, AllocError> {
    let mut notes = copies_of(git.alloc, met.left_out)?;
    add_unmerged(git.alloc, met.unmerged, &mut notes)?;
    if let Some(remote) = remote {
        if !met.absent.is_empty() {
            notes.push(lack_of(git, remote, tree, met.absent)?)?;
        }
    }
    if let Some(returned) = met.returned {
        add_replaced(git, returned, &mut notes)?;
    }
    Ok(notes)
}

/// Where git runs the drivers of this repository: at the top of the worktree, or in the Git folder of a repository
/// without one. The Git folder is named if git wouldn't find it there by its usual name, or would look for another one.
pub fn place_of(git: &Git, found: &FoundRepository) -> Result<DriverPlace, AllocError> {
    let git_dir = found.git_dir.as_str();
    let folder = String::from_str(git.alloc, found.top.as_deref().unwrap_or(git_dir))?;
    let usual = format!(in git.alloc; "{folder}/.git")?;
    let is_found = usual.as_str() == git_dir && var(&git.rt, "GIT_DIR").is_err();
    let git_dir = if is_found {
        None
    } else {
        Some(String::from_str(git.alloc, git_dir)?)
    };
    Ok(DriverPlace { folder, git_dir })
}
