//! Where a repository is, and which tree of it is wanted.
use crate::fault::GitFault;
use crate::git::{Answer, Git, copy_of};
use crate::listing::{SettingsList, plain_switch};
use std::alloc::{AllocError, Global};
use std::env::var;
use std::fs::canonicalize;

/// The absolute paths of a repository's parts.
#[derive(Drop)]
pub struct FoundRepository {
    pub git_dir: String,
    pub index: String,
    /// The file `info/attributes`.
    pub info: String,
    /// The folder `objects`.
    pub objects: String,
    /// The worktree's top, if there is a worktree.
    pub top: Option<String>,
    /// Whether objects may be replaced (git-replace(1)).
    pub replaces: bool,
    /// Whether git is one that can't say where the system's attribute file is: before 2.40.
    pub is_silent: bool,
    /// The object that the revision names, in hex, if one was asked for. For a tag it may be what that is of.
    pub object: Option<String>,
}

/// What git says of a repository in one answer, in lines.
#[derive(Clone, Copy)]
struct FoundLines<'a> {
    /// The Git folder, the index, `info/attributes` and `objects`.
    paths: [&'a str; 4],
    format: &'a str,
    /// The way up to the worktree's top, or its path, if there is a worktree.
    up: Option<&'a str>,
    /// The variables that are of one repository.
    variables: &'a [&'a str],
    /// The names of what replaces objects, and then that of the revision's object.
    names: &'a [&'a str],
}

/// The word that git 2.31 was the first to know. `git rev-parse` writes a word as it is if it doesn't know it.
const NEWEST: &str = "--path-format=absolute";

/// The variable that says where else the names of replaced objects are.
const REPLACED_BY: &str = "GIT_REPLACE_REF_BASE";

/// The variable that says whether the system's attribute file is left out.
const NO_SYSTEM: &str = "GIT_ATTR_NOSYSTEM";

/// A variable that git had up to 2.39. From 2.41 on it says where the system's attribute file is.
const OLD_VARIABLE: &str = "GIT_INTERNAL_SUPER_PREFIX";

/// What is asked of `git rev-parse`: the paths, each a line, what object names are by, the way to the worktree's top,
/// for which there is no line without a worktree, a switch behind that, the variables, and what replaces objects.
const ASKED: [&str; 14] = [
    "rev-parse",
    NEWEST,
    "--absolute-git-dir",
    "--git-path",
    "index",
    "--git-path",
    "info/attributes",
    "--git-path",
    "objects",
    "--show-object-format",
    "--show-cdup",
    "--is-bare-repository",
    "--local-env-vars",
    "--glob=refs/replace/",
];

/// What git wrote on standard error, without its first word, or these words if it wrote nothing. Its advice may take
/// several lines.
fn said_by(alloc: Global, answer: &Answer, otherwise: &str) -> Result<String, AllocError> {
    let said = match str::from_utf8(answer.said.as_slice()) {
        Ok(said) => said,
        Err(_) => "",
    };
    let lines = said.trim_end_matches('\n');
    match lines.strip_prefix("fatal: ") {
        Some(words) => String::from_str(alloc, words),
        None if lines.is_empty() => String::from_str(alloc, otherwise),
        None => String::from_str(alloc, lines),
    }
}

/// The lines of a text, of which each has an end.
fn lines_of(alloc: Global, text: &str) -> Result<Vec<&str>, AllocError> {
    let whole = match text.strip_suffix("\n") {
        Some(whole) => whole,
        None => text,
    };
    whole.split('\n').collect(alloc)
}

/// Whether this is the line of a switch.
fn is_switch(line: &str) -> bool {
    line == "true" || line == "false"
}

fn is_hex_digit(byte: u8) -> bool {
    byte.is_ascii_hexdigit()
}

/// The way to the worktree's top, if there is a line of it before the one of a switch, and the lines behind.
fn way_up<'a>(lines: &'a [&'a str]) -> Option<(Option<&'a str>, &'a [&'a str])> {
    match lines {
        [switch, rest @ ..] if is_switch(*switch) => Some((None, rest)),
        [up, switch, rest @ ..] if is_switch(*switch) => Some((Some(*up), rest)),
        _ => None,
    }
}

/// Whether the line is the name of an object, or of one that a revision leaves out. A part of a path with a line end
/// may be taken for other lines, but then the switch behind it is no name.
fn is_name(line: &str) -> bool {
    let digits = line.strip_prefix("^").unwrap_or(line);
    digits.bytes().all(is_hex_digit)
}

/// Git's answer by its lines, if they are as many as they have to be.
fn answer_in<'a>(lines: &'a [&'a str]) -> Option<FoundLines<'a>> {
    let [git_dir, index, info, objects, format, rest @ ..] = lines else {
        return None;
    };
    let (up, rest) = way_up(rest)?;
    let count = rest
        .iter()
        .position(|line| !line.starts_with("GIT_"))
        .unwrap_or(rest.len());
    let (variables, names) = rest.split_at_checked(count)?;
    if !names.iter().all(|name| is_name(*name)) {
        return None;
    }
    Some(FoundLines {
        paths: [*git_dir, *index, *info, *objects],
        format: *format,
        up,
        variables,
        names,
    })
}

/// A path of git's, by the folder in which git was started.
fn from_folder(git: &Git, path: &str) -> Result<String, AllocError> {
    match &git.folder {
        Some(folder) if !path.starts_with('/') => format!(in git.alloc; "{folder}/{path}"),
        _ => String::from_str(git.alloc, path),
    }
}

/// The worktree's top, by the way that leads to it. `None` if it isn't UTF-8.
fn top_of(git: &Git, up: Option<&str>) -> Result<Option<String>, GitFault> {
    let Some(up) = up else {
        return Ok(None);
    };
    let way = from_folder(git, if up.is_empty() { "." } else { up })?;
    match canonicalize(&git.rt, way.as_str()) {
        Ok(top) => Ok(String::from_utf8(top.into_os_string().into_bytes()).ok()),
        Err(error) => Err(GitFault::Refused(format!(in git.alloc;
            "the top of the worktree can't be found: {error}"
        )?)),
    }
}

/// The parts of a repository by git's answer, where a revision has an object if it was asked for.
fn found_of(git: &Git, told: FoundLines<'_>, is_named: bool) -> Result<FoundRepository, GitFault> {
    let alloc = git.alloc;
    let [git_dir, index, info, objects] = told.paths;
    let (replacing, object) = match told.names {
        [replacing @ .., object] if is_named => (replacing, Some(*object)),
        replacing => (replacing, None),
    };
    Ok(FoundRepository {
        git_dir: String::from_str(alloc, git_dir)?,
        index: String::from_str(alloc, index)?,
        info: String::from_str(alloc, info)?,
        objects: String::from_str(alloc, objects)?,
        top: top_of(git, told.up)?,
        replaces: !replacing.is_empty() || var(&git.rt, REPLACED_BY).is_ok(),
        is_silent: told.variables.contains(&OLD_VARIABLE),
        object: copy_of(alloc, object)?,
    })
}

fn found_in(git: &Git, lines: &[&str], is_named: bool) -> Result<FoundRepository, GitFault> {
    if lines.contains(&NEWEST) {
        return Err(GitFault::TooOld);
    }
    let Some(told) = answer_in(lines) else {
        return Err(GitFault::BadPath);
    };
    if told.format != "sha1" {
        return Err(GitFault::ObjectFormat(String::from_str(git.alloc, told.format)?));
    }
    found_of(git, told, is_named)
}

/// Why git didn't answer, in its words if it wrote some.
fn refused(git: &Git, answer: &Answer, otherwise: &str) -> GitFault {
    match said_by(git.alloc, answer, otherwise) {
        Ok(words) => GitFault::Refused(words),
        Err(AllocError) => GitFault::NoMemory,
    }
}

/// The repository by git's answer, in which a revision has an object if it was asked for.
fn found_by(git: &Git, answer: &Answer, is_named: bool) -> Result<FoundRepository, GitFault> {
    match str::from_utf8(answer.bytes.as_slice()) {
        Ok(text) => found_in(git, lines_of(git.alloc, text)?.as_slice(), is_named),
        Err(_) => Err(GitFault::BadPath),
    }
}

/// Where git finds the parts of the repository.
fn find_parts(git: &Git) -> Result<FoundRepository, GitFault> {
    let answer = git.ask(ASKED.as_slice())?;
    if !answer.is_good() {
        return Err(refused(git, &answer, "git finds no repository"));
    }
    found_by(git, &answer, false)
}

/// The revision without the tags on its way. Behind a colon stands a path or a text, which a suffix would be a part of:
/// such a revision is asked for as it is (gitrevisions(7)).
fn without_tag(git: &Git, revision: &str) -> Result<String, AllocError> {
    if revision.contains(':') {
        String::from_str(git.alloc, revision)
    } else {
        format!(in git.alloc; "{revision}^{{}}")
    }
}

/// Where git finds the parts of the repository, and the object of a revision.
fn find_with(git: &Git, revision: &str) -> Result<FoundRepository, GitFault> {
    let wanted = without_tag(git, revision)?;
    let [verify, quiet, end] = NAMED;
    let more = [verify, quiet, end, wanted.as_str()];
    let answer = git.ask_more(ASKED.as_slice(), more.as_slice())?;
    match answer.status {
        Some(0) => found_by(git, &answer, true),
        Some(1) => {
            found_by(git, &answer, false)?;
            Err(GitFault::NoRevision(String::from_str(git.alloc, revision)?))
        }
        _ => Err(refused(git, &answer, "git names no tree")),
    }
}

/// Where git finds the parts of the repository, and the object of this revision if there is one.
pub fn find(git: &Git, revision: Option<&str>) -> Result<FoundRepository, GitFault> {
    match revision {
        Some(revision) => find_with(git, revision),
        None => find_parts(git),
    }
}

/// Whether git reads the value as a switch that is on, or `None` if it is no switch.
pub fn switch_of(git: &Git, value: &str) -> Result<Option<bool>, GitFault> {
    let setting = format!(in git.alloc; "siuwbren.switch={value}")?;
    let answer = git.ask(&[
        "-c",
        setting.as_str(),
        "config",
        "--type=bool",
        "siuwbren.switch",
    ])?;
    if answer.is_good() {
        Ok(Some(answer.bytes.starts_with(b"true")))
    } else {
        Ok(None)
    }
}

/// Whether the variable says that the system's attribute file isn't read. Git stops where it is no switch.
fn has_no_system(git: &Git) -> Result<bool, GitFault> {
    let value = match var(&git.rt, NO_SYSTEM) {
        Ok(value) if !value.is_empty() => value,
        _ => return Ok(false),
    };
    let on = match plain_switch(value.as_bytes()) {
        Some(on) => Some(on),
        None => switch_of(git, value.as_str())?,
    };
    match on {
        Some(on) => Ok(on),
        None => Err(GitFault::Refused(format!(in git.alloc;
            "bad boolean config value '{value}' for '{NO_SYSTEM}'"
        )?)),
    }
}

/// The setting has a value if it is there. Git stops where a setting has none that needs one.
fn need_value(git: &Git, listing: &SettingsList, key: &str) -> Result<(), GitFault> {
    match listing.last(key.as_bytes()) {
        Some(None) => Err(GitFault::Refused(format!(in git.alloc; "missing value for '{key}'")?)),
        _ => Ok(()),
    }
}

/// The settings that git uses in the repository.
pub fn list(git: &Git) -> Result<SettingsList, GitFault> {
    let answer = git.ask(&["config", "--list", "-z"])?;
    if !answer.is_good() {
        return Err(refused(git, &answer, "git finds no repository"));
    }
    let listing = SettingsList::new(answer.bytes, has_no_system(git)?);
    need_value(git, &listing, "core.attributesfile")?;
    Ok(listing)
}

/// What is asked of `git rev-parse` before a revision. It says nothing and ends with the status 1 if there is none.
const NAMED: [&str; 3] = ["--verify", "--quiet", "--end-of-options"];

/// The name of the tree of a commit, a tag or a tree with this name in hex, as git reads them. A refusal names the
/// revision that it was found by.
pub fn tree_by_git(git: &Git, object: &str, revision: &str) -> Result<String, GitFault> {
    let wanted = format!(in git.alloc; "{object}^{{tree}}")?;
    let [verify, quiet, end] = NAMED;
    let answer = git.ask(&["rev-parse", verify, quiet, end, wanted.as_str()])?;
    if answer.status == Some(1) {
        return Err(GitFault::NoRevision(String::from_str(git.alloc, revision)?));
    }
    match str::from_utf8(answer.bytes.as_slice()) {
        Ok(text) if answer.is_good() && text.ends_with('\n') => {
            Ok(String::from_str(git.alloc, text.trim_end())?)
        }
        _ => Err(refused(git, &answer, "git names no tree")),
    }
}
