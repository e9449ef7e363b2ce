//! How git is asked about one repository.
use edge_kit::TakeFault;
use std::alloc::{AllocError, Global};
use std::fs::symlink_metadata;
use std::io;
use std::io::ErrorKind;
use std::process::{Command, Output, Stdio};

/// What git is asked by: the program's own environment, and the Git folder if one was named. Without one git finds
/// it as it always does.
#[derive(Drop)]
pub struct Git {
    pub rt: HostRuntime,
    pub alloc: Global,
    // the name or the path of the program git
    program: String,
    pub named: Option<String>,
    /// The folder in which git is started, if it isn't that of the program: the worktree that was named in place of a
    /// Git folder.
    pub folder: Option<String>,
    // the folder of objects, if git isn't to use the one that it finds
    objects: Option<String>,
}

/// What a process of git gave.
#[derive(Drop)]
pub struct Answer {
    pub status: Option<i32>,
    pub bytes: Vec<u8>,
    /// What it wrote on standard error.
    pub said: Vec<u8>,
}

impl Answer {
    pub fn is_good(&self) -> bool {
        self.status == Some(0)
    }
}

/// No object is fetched, and nobody is asked for a password.
const VARIABLES: [(&str, &str); 5] = [
    ("GIT_NO_LAZY_FETCH", "1"),
    // for a git that doesn't know the one above: no protocol is allowed
    ("GIT_ALLOW_PROTOCOL", "none"),
    ("GIT_OPTIONAL_LOCKS", "0"),
    ("GIT_TERMINAL_PROMPT", "0"),
    ("GIT_EDITOR", "false"),
];

/// The words by which git runs no program that a repository names, as it only looks: no watcher of files, no hook and
/// no pager.
const QUIET: [&str; 5] = [
    "-c",
    "core.fsmonitor=false",
    "-c",
    "core.hooksPath=/dev/null",
    "--no-pager",
];

/// The settings by which git writes a whole index, and leaves it to others which paths are bad.
const WHOLE: [&str; 8] = [
    "-c",
    "core.splitIndex=false",
    "-c",
    "index.sparse=false",
    "-c",
    "core.protectNTFS=false",
    "-c",
    "core.protectHFS=false",
];

fn add_words(command: &mut Command, words: &[&str]) -> Result<(), AllocError> {
    for word in words {
        command.arg(*word)?;
    }
    Ok(())
}

fn add_variables(command: &mut Command) -> Result<(), AllocError> {
    for (name, value) in VARIABLES {
        command.env(name, value)?;
    }
    // it names a file to `git config` alone, and no other command goes by it
    command.env_remove("GIT_CONFIG")?;
    Ok(())
}

/// How an error of the system is told.
pub fn fault_of(error: &io::Error) -> TakeFault {
    match error.kind() {
        ErrorKind::OutOfMemory => TakeFault::NoMemory,
        _ => TakeFault::Failed,
    }
}

/// The text in memory of its own, if there is one.
pub fn copy_of(alloc: Global, text: Option<&str>) -> Result<Option<String>, AllocError> {
    match text {
        Some(text) => Ok(Some(String::from_str(alloc, text)?)),
        None => Ok(None),
    }
}

/// Whether something stands at the folder's path and this one in it.
fn has(rt: HostRuntime, alloc: Global, folder: &str, name: &str) -> Result<bool, AllocError> {
    let path = format!(in alloc; "{folder}/{name}")?;
    Ok(symlink_metadata(&rt, path.as_str()).is_ok())
}

/// Whether the folder is the top of a worktree, and no Git folder itself (gitrepository-layout(5)).
fn is_worktree(rt: HostRuntime, alloc: Global, folder: &str) -> Result<bool, AllocError> {
    if !has(rt, alloc, folder, ".git")? {
        return Ok(false);
    }
    let is_git_dir = has(rt, alloc, folder, "HEAD")? && has(rt, alloc, folder, "refs")?;
    Ok(!is_git_dir)
}

impl Git {
    /// Asks this program about the repository with this Git folder, or about the one that git finds: from a worktree,
    /// if one is named in place of a Git folder.
    pub fn new(rt: HostRuntime, program: &str, named: Option<&str>) -> Result<Git, AllocError> {
        let alloc = rt.alloc();
        let is_top = match named {
            Some(path) => is_worktree(rt, alloc, path)?,
            None => false,
        };
        let (folder, named) = if is_top { (named, None) } else { (None, named) };
        Ok(Git {
            rt,
            alloc,
            program: String::from_str(alloc, program)?,
            named: copy_of(alloc, named)?,
            folder: copy_of(alloc, folder)?,
            objects: None,
        })
    }

    /// Asks the same program about another Git folder or the same, over this folder of objects if there is one.
    pub fn about(&self, named: Option<&str>, objects: Option<&str>) -> Result<Git, AllocError> {
        let mut git = Git::new(self.rt, self.program.as_str(), named)?;
        git.objects = copy_of(self.alloc, objects)?;
        if named.is_none() {
            git.folder = copy_of(self.alloc, self.folder.as_deref())?;
        }
        Ok(git)
    }

    fn add_repository(&self, command: &mut Command) -> Result<(), AllocError> {
        if let Some(folder) = &self.named {
            command.arg("--git-dir")?;
            command.arg(folder.as_str())?;
        }
        if let Some(folder) = &self.folder {
            command.current_dir(folder.as_str())?;
            command.env_remove("GIT_DIR")?;
        }
        if let Some(folder) = &self.objects {
            command.env("GIT_OBJECT_DIRECTORY", folder.as_str())?;
        }
        Ok(())
    }

    /// What starts git with these words.
    pub fn command(&self, words: &[&str]) -> Result<Command, AllocError> {
        self.command_with(&[], words)
    }

    /// What starts the process that gives one object after another, each as it is stored, also one that `git replace`
    /// replaces: what replaces it has another name.
    pub fn object_giver(&self) -> Result<Command, AllocError> {
        let mut command = self.command(&["cat-file", "--batch"])?;
        command.env("GIT_NO_REPLACE_OBJECTS", "1")?;
        Ok(command)
    }

    /// What starts git with these settings and words.
    fn command_with(&self, settings: &[&str], words: &[&str]) -> Result<Command, AllocError> {
        let mut command = Command::new(self.alloc, self.program.as_str())?;
        add_words(&mut command, QUIET.as_slice())?;
        self.add_repository(&mut command)?;
        add_words(&mut command, settings)?;
        add_words(&mut command, words)?;
        add_variables(&mut command)?;
        Ok(command)
    }

    /// What a process of git gives. What it writes on standard error is kept.
    fn answer_of(&self, mut command: Command) -> io::Result<Answer> {
        let Output {
            status,
            stdout,
            stderr,
        } = command.output(&self.rt)?;
        Ok(Answer {
            status: status.code(),
            bytes: stdout,
            said: stderr,
        })
    }

    /// What git with these words gives.
    pub fn ask(&self, words: &[&str]) -> io::Result<Answer> {
        self.answer_of(self.command(words)?)
    }

    /// What git with these words and then those gives.
    pub fn ask_more(&self, words: &[&str], more: &[&str]) -> io::Result<Answer> {
        self.answer_of(self.command_with(words, more)?)
    }

    /// Runs git with these words over another index, which it writes whole, and returns whether it ended well. What it
    /// writes on standard error is seen.
    pub fn run_over(&self, index: &str, words: &[&str]) -> io::Result<bool> {
        let mut command = self.command_with(WHOLE.as_slice(), words)?;
        command.env("GIT_INDEX_FILE", index)?;
        command.stdin(Stdio::null());
        command.stdout(Stdio::null());
        Ok(command.status(&self.rt)?.success())
    }
}
