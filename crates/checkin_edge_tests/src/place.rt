//! A folder of a test's own.
use std::alloc::AllocError;
use std::env::temp_dir;
use std::fs::{create_dir, remove_dir_all};
use std::process::Command;
use std::test::Fail;
use std::{io, process};

/// What a test's shell begins with: git is without the settings of the user and of the system.
const PRELUDE: &str = r#"
set -e
unset GIT_DIR GIT_INDEX_FILE GIT_OBJECT_DIRECTORY GIT_ALTERNATE_OBJECT_DIRECTORIES GIT_WORK_TREE
export HOME="$PWD" XDG_CONFIG_HOME="$PWD/git" GIT_CONFIG_NOSYSTEM=1 GIT_ATTR_NOSYSTEM=1
"#;

/// Whether git is there. Where it isn't, a test of it passes without a look.
pub fn has_git(rt: HostRuntime) -> io::Result<bool> {
    let mut command = Command::new(rt.alloc(), "git")?;
    command.arg("--version")?;
    match command.output(&rt) {
        Ok(ran) => Ok(ran.status.success()),
        Err(error) if error.kind() == io::ErrorKind::NotFound => Ok(false),
        Err(error) => Err(error),
    }
}

/// Runs a shell's text in the folder, and returns whether it ended well.
pub fn runs(rt: HostRuntime, folder: &str, text: &str) -> io::Result<bool> {
    let mut shell = Command::new(rt.alloc(), "sh")?;
    shell.arg("-c")?;
    shell.arg(format!(in rt.alloc(); "{PRELUDE}{text}")?.as_str())?;
    shell.current_dir(folder)?;
    Ok(shell.status(&rt)?.success())
}

/// The path of what is in a folder.
pub fn path_in(rt: HostRuntime, folder: &str, path: &str) -> Result<String, AllocError> {
    format!(in rt.alloc(); "{folder}/{path}")
}

/// A fresh folder for the test with this name.
fn fresh_folder(rt: HostRuntime, test: &str) -> io::Result<String> {
    let base = temp_dir(&rt)?;
    let id = process::id(rt.process());
    let folder = format!(in rt.alloc(); "{}/checkin-edge-{test}-{id}", base.display())?;
    let _ = remove_dir_all(&rt, folder.as_str());
    create_dir(&rt, folder.as_str())?;
    Ok(folder)
}

/// A fresh folder for the test with this name, in which this shell's text was run.
pub fn folder_after(rt: HostRuntime, test: &str, text: &str) -> Result<String, Fail> {
    let folder = fresh_folder(rt, test)?;
    if !runs(rt, folder.as_str(), text)? {
        return Err(Fail::new(format_args!("the shell fails: {text}")));
    }
    Ok(folder)
}
