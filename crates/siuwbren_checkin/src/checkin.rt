//! A check-in into a git folder.
use crate::engine_words::checkin_words;
use checkin_edge::{FolderFiles, FolderKeep, HeldEntry, ObjectForm, OtherKind};
use edge_adapters::ProcessSpawner;
use edge_kit::Repo;
use exit_status::ExitStatus;
use file_stat::Sharing;
use git_edge::{GitRepo, IndexLock};
use program_kit::{EndedCheckin, check_in};
use reports::ReportForm;
use siuwbren_index::{
    CheckedIn, IndexMarks, LookedPaths, MOST_INDEX, end_run, end_with, hold_assumed, index_lock,
    index_of_checkin, links_of, put_beside, put_made, refuse_guarded, refuse_repository,
    refused_tree, say, show_kept, show_notes, show_refusal, take_kinds, tree_of,
};
use siuwbren_words::CheckinWords;
use std::alloc::AllocError;
use std::sync::Wait;
use std::thread::Threads;

/// The file of a check-in's index, beside that of the repository.
fn new_index(rt: HostRuntime, repo: &GitRepo) -> Result<String, AllocError> {
    format!(in rt.alloc(); "{}-checkin", repo.index_file())
}

/// What is known of a repository before its files are checked in.
#[derive(Drop)]
struct Before {
    /// The entries that stay as they are.
    held: Vec<HeldEntry>,
    /// The entries whose files are of another kind.
    kinds: Vec<OtherKind>,
    /// The index, if git is to take each changed file for what its entry says.
    index: Option<Vec<u8>>,
    sharing: Sharing,
}

/// The index of a repository, if git is to take each file that is checked in for what its entry says (core.ignoreStat).
fn ignored_before(repo: &mut GitRepo, is_update: bool) -> Option<Vec<u8>> {
    if is_update && repo.ignores_stat() {
        repo.index_bytes(MOST_INDEX).ok()?
    } else {
        None
    }
}

/// Has the repository give the index by which the files of this folder are checked in.
fn prepare(
    rt: HostRuntime,
    repo: &mut GitRepo,
    tree: &str,
    sharing: Sharing,
    is_update: bool,
) -> Result<Before, AllocError> {
    let index = ignored_before(repo, is_update);
    let held = hold_assumed(rt, repo)?;
    let kinds = take_kinds(rt, repo, tree)?;
    Ok(Before {
        held,
        kinds,
        index,
        sharing,
    })
}

/// What keeps objects among those of a repository, and in memory an index with these entries as they were. It touches
/// nothing.
fn keep_of(
    rt: HostRuntime,
    repo: &GitRepo,
    held: Vec<HeldEntry>,
    sharing: Sharing,
) -> Result<FolderKeep, AllocError> {
    let objects = String::from_str(rt.alloc(), repo.objects())?;
    let index = new_index(rt, repo)?;
    let keep = FolderKeep::new(rt, objects, index, ObjectForm::Zlib);
    Ok(keep.holding(held).sharing(sharing).holding_index())
}

/// The files of a folder, with the links that the index has. They keep what an index is to tell of them, if it is to be
/// updated.
fn files_of(
    rt: HostRuntime,
    repo: &mut GitRepo,
    tree: &str,
    is_update: bool,
) -> Result<FolderFiles, AllocError> {
    let links = links_of(rt, repo)?;
    let folder = String::from_str(rt.alloc(), tree)?;
    let files = FolderFiles::new(rt, folder).of_links(links);
    Ok(if is_update {
        files.keeping_stats()
    } else {
        files
    })
}

/// What starts the drivers of a repository.
fn spawner_of(rt: HostRuntime, repo: &GitRepo) -> Result<ProcessSpawner, AllocError> {
    ProcessSpawner::in_place(rt, repo.driver_place()?)
}

/// The index of a check-in that has ended, with these marks and with what is told of its files.
fn made_index(
    rt: HostRuntime,
    ended: &EndedCheckin,
    marks: IndexMarks<'_>,
) -> Result<Option<Vec<u8>>, AllocError> {
    let told = ended.stats(rt.alloc())?;
    let looked = LookedPaths {
        status: ended.status(),
        made: ended.index(),
        failed: ended.failed(),
        told: told.as_slice(),
    };
    index_of_checkin(rt.alloc(), looked, marks)
}

/// Checks in the files of a folder into a repository that is open.
fn check_in_with<H: Threads + Wait + Sync>(
    rt: HostRuntime,
    threads: &H,
    tree: &str,
    repo: &mut GitRepo,
    before: Before,
    is_update: bool,
) -> Result<CheckedIn, AllocError> {
    let Before {
        held,
        kinds,
        index,
        sharing,
    } = before;
    let keep = keep_of(rt, repo, held, sharing)?;
    let files = files_of(rt, repo, tree, is_update)?;
    let words = checkin_words(rt.alloc(), repo.git_dir(), tree)?;
    let spawner = spawner_of(rt, repo)?;
    let ended = check_in(rt, threads, words.as_slice(), repo, spawner, files, keep)?;
    ended.show_notes(rt);
    let marks = IndexMarks {
        version: repo.next_version(MOST_INDEX),
        kinds: kinds.as_slice(),
        before: index.as_deref(),
    };
    let index = made_index(rt, &ended, marks)?;
    Ok(CheckedIn {
        status: ended.end(),
        index,
    })
}

/// Says where the new index is, and how it takes the place of the repository's own.
fn show_index(rt: HostRuntime, repo: &GitRepo) -> Result<(), AllocError> {
    let made = new_index(rt, repo)?;
    let command = repo.command_to_take(made.as_str())?;
    say(
        rt,
        format!(in rt.alloc(); "note: the new index is {made}. To take it: {command}")?.as_str(),
    );
    Ok(())
}

/// Says what else is to be said of a status, of a repository and of the folder that was checked in.
fn explain(rt: HostRuntime, status: u8, repo: &mut GitRepo, tree: &str) -> Result<(), AllocError> {
    end_run(rt, ReportForm::Text, status, repo);
    match ExitStatus::of(status) {
        Some(ExitStatus::Refused) => show_refusal(rt, repo),
        Some(ExitStatus::Done | ExitStatus::DoneWithFailures) => show_kept(rt, repo, tree)?,
        _ => {}
    }
    show_notes(rt, repo);
    Ok(())
}

/// The permissions of a repository's new files, or the status if the files of this folder aren't to be checked in.
fn allowed_sharing(
    rt: HostRuntime,
    asked: &CheckinWords<'_>,
    repo: &mut GitRepo,
    tree: &str,
) -> Result<Result<Sharing, u8>, AllocError> {
    if let Some(status) = refuse_guarded(rt, repo, ReportForm::Text)? {
        return Ok(Err(end_with(rt, status.number())));
    }
    if let Some(status) = refused_tree(rt, repo, tree, asked)? {
        return Ok(Err(status.number()));
    }
    match repo.sharing() {
        Ok(sharing) => Ok(Ok(sharing)),
        Err(fault) => Ok(Err(refuse_repository(rt, ReportForm::Text, &fault))),
    }
}

/// Puts the index of a check-in into its place, and gives the status then. It says where the index is if that isn't the
/// place of the repository's own.
fn put_index_of(
    rt: HostRuntime,
    repo: &GitRepo,
    lock: Option<IndexLock>,
    left: &CheckedIn,
) -> Result<u8, AllocError> {
    if let Some(lock) = lock {
        return put_made(rt, lock, left);
    }
    let status = put_beside(rt, new_index(rt, repo)?.as_str(), left)?;
    if left.index.is_some() && status == left.status {
        show_index(rt, repo)?;
    }
    Ok(status)
}

/// Checks in the files of the folder that the words name.
fn check_in_words<H: Threads + Wait + Sync>(
    rt: HostRuntime,
    threads: &H,
    asked: &CheckinWords<'_>,
    repo: &mut GitRepo,
) -> Result<u8, AllocError> {
    let tree = match tree_of(rt, repo, asked)? {
        Ok(tree) => tree,
        Err(status) => return Ok(status.number()),
    };
    let lock = match index_lock(
        rt,
        ReportForm::Text,
        repo,
        asked.update_index,
        tree.as_str(),
    )? {
        Ok(lock) => lock,
        Err(status) => return Ok(status),
    };
    let tree = tree.as_str();
    let sharing = match allowed_sharing(rt, asked, repo, tree)? {
        Ok(sharing) => sharing,
        Err(status) => return Ok(status),
    };
    let before = prepare(rt, repo, tree, sharing, asked.update_index)?;
    let left = check_in_with(rt, threads, tree, repo, before, asked.update_index)?;
    explain(rt, left.status, repo, tree)?;
    put_index_of(rt, repo, lock, &left)
}

/// Checks in the files of a folder. No process of git is left running.
pub fn check_in_tree<H: Threads + Wait + Sync>(
    rt: HostRuntime,
    threads: &H,
    asked: &CheckinWords<'_>,
) -> Result<u8, AllocError> {
    let mut repo = match GitRepo::open(rt, asked.git_dir, None) {
        Ok(repo) => repo,
        Err(fault) => return Ok(refuse_repository(rt, ReportForm::Text, &fault)),
    };
    let ended = check_in_words(rt, threads, asked, &mut repo);
    repo.end();
    ended
}
