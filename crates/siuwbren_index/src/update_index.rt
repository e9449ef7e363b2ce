//! The index that a checkout or a check-in leaves, with what is told of its files, so that git needn't read them.
ghost use Rattle.git_index.specs.Spelling.{CanStand};

use crate::faults::{refuse_repository, refuse_wish, say};
use crate::own_index::MOST_INDEX;
use crate::worktree::is_same_folder;
use byte_path::ObjectId;
use checkin_edge::{RawEntry, RawIndex};
use edge_kit::Repo;
use exit_status::ExitStatus;
use git_edge::{GitFault, GitRepo, IndexLock};
use git_index::{Entry, Stat, Version, entries_can_stand, read_index, spell_stat_index};
use reports::ReportForm;
use std::alloc::{AllocError, Global};
use tree_cache::{TreeCache, cache_of, with_tree_cache};

/// What git says where another process has the lock of the index.
const LOCKED: &str = "
Another git process seems to be running in this repository, e.g.
an editor opened by 'git commit'. Please make sure all processes
are terminated then try again. If it still fails, a git process
may have crashed in this repository earlier:
remove the file manually to continue.";

/// Says why a folder isn't the worktree of a repository, if it isn't.
fn refused_tree(
    rt: HostRuntime,
    form: ReportForm,
    repo: &GitRepo,
    tree: &str,
) -> Result<Option<ExitStatus>, AllocError> {
    let Some(top) = repo.worktree()? else {
        let words = "the repository has no worktree, whose index is to be updated";
        return Ok(Some(refuse_wish(rt, form, words)));
    };
    if is_same_folder(rt, tree, top.as_str()) {
        return Ok(None);
    }
    let words = format!(in rt.alloc(); "--update-index needs the worktree for TREE: {top}")?;
    Ok(Some(refuse_wish(rt, form, words.as_str())))
}

/// Says why the index can't be locked, and gives the status.
fn refuse_lock(rt: HostRuntime, form: ReportForm, fault: &GitFault) -> u8 {
    let status = refuse_repository(rt, form, fault);
    if matches!(fault, GitFault::Locked(_)) {
        say(rt, LOCKED);
    }
    status
}

/// The lock of the index, if that is to become the one of the files in this folder, or the status if it can't. A report
/// is to have this form.
pub fn index_lock(
    rt: HostRuntime,
    form: ReportForm,
    repo: &GitRepo,
    is_asked: bool,
    tree: &str,
) -> Result<Result<Option<IndexLock>, u8>, AllocError> {
    if !is_asked {
        return Ok(Ok(None));
    }
    if let Some(status) = refused_tree(rt, form, repo, tree)? {
        return Ok(Err(status.number()));
    }
    match repo.lock_index() {
        Ok(lock) => Ok(Ok(Some(lock))),
        Err(fault) => Ok(Err(refuse_lock(rt, form, &fault))),
    }
}

/// What is told of files at this place, if that is of the entry's file.
fn told_at(told: &[(&[u8], Stat)], place: usize, entry: &Entry) -> Option<Stat> {
    match told.get(place) {
        Some((path, stat)) if *path == entry.path.as_slice() => Some(*stat),
        _ => None,
    }
}

/// What an index tells of an entry's file. An unmerged path has none of its own. A file that is told of may be one that
/// git is to take for what the entry says.
fn stat_of(entry: &Entry, raw: &RawEntry<'_>, told: Option<Stat>, is_assumed: bool) -> Stat {
    match told {
        Some(stat) if entry.stage == 0 => Stat {
            valid: is_assumed || raw.is_assumed(),
            ..stat
        },
        _ => Stat {
            valid: raw.is_assumed(),
            ..Stat::NONE
        },
    }
}

/// What is told of files in the order of their paths.
#[derive(Clone, Copy)]
pub struct ToldFiles<'a> {
    pub files: &'a [(&'a [u8], Stat)],
    /// Whether git is to take these files for what their entries say (core.ignoreStat).
    pub are_assumed: bool,
    /// An index before, if git is to take those of these files so that have changed since.
    pub before: Option<&'a [u8]>,
}

/// What an index tells of the file of each entry, by what is told of files in the order of the entries.
fn stats_of(
    alloc: Global,
    entries: &[Entry],
    raw: &[RawEntry<'_>],
    told: ToldFiles<'_>,
) -> Result<Vec<Stat>, AllocError> {
    let mut stats = Vec::with_capacity(alloc, entries.len())?;
    let mut place = 0usize;
    for (entry, raw) in entries.iter().zip(raw.iter()) {
        let found = told_at(told.files, place, entry);
        if found.is_some() {
            place = place.saturating_add(1);
        }
        stats.push(stat_of(entry, raw, found, told.are_assumed))?;
    }
    Ok(stats)
}

/// An index before.
#[derive(Clone, Copy)]
struct Former<'a> {
    entries: &'a [Entry],
    raw: &'a [RawEntry<'a>],
}

/// Whether two entries tell the same of their files.
fn tell_the_same(former: &RawEntry<'_>, raw: &RawEntry<'_>) -> bool {
    let [times, inode, owner] = former.told();
    let [times_now, inode_now, owner_now] = raw.told();
    times == times_now && inode == inode_now && owner == owner_now
}

impl Former<'_> {
    /// Whether an index before has this entry with the same object, mode and file.
    fn has(&self, entry: &Entry, raw: &RawEntry<'_>) -> bool {
        let place = self.entries.binary_search_by(|former| {
            let paths = former.path.as_slice().cmp(entry.path.as_slice());
            paths.then(former.stage.cmp(&entry.stage))
        });
        let Ok(place) = place else {
            return false;
        };
        match (self.entries.get(place), self.raw.get(place)) {
            (Some(former), Some(spelled)) => {
                former.name == entry.name
                    && former.mode == entry.mode
                    && tell_the_same(spelled, raw)
            }
            _ => false,
        }
    }
}

/// Has git take each file that is told of, and that an index before hasn't so, for what its entry says.
fn assume_changed(stats: &mut [Stat], entries: &[Entry], raw: &[RawEntry<'_>], former: Former<'_>) {
    let spelled = entries.iter().zip(raw.iter());
    for (stat, (entry, raw)) in stats.iter_mut().zip(spelled) {
        let is_told = stat.ctime != 0 || stat.mtime != 0;
        if is_told && !former.has(entry, raw) {
            stat.valid = true;
        }
    }
}

/// The index of these entries with these stats, where git is to take each file that has changed since an index before
/// for what its entry says.
fn with_assumed(
    alloc: Global,
    version: Version,
    entries: &[Entry],
    stats: &mut [Stat],
    before: &[u8],
) -> Result<Vec<u8>, AllocError>
    requires { CanStand entries.now }
{
    let spelled = spell_stat_index(alloc, version, entries, stats)?;
    let (Ok(former), Some(former_raw), Some(raw)) = (
        read_index(alloc, before),
        RawIndex::read(alloc, before)?,
        RawIndex::read(alloc, spelled.as_slice())?,
    ) else {
        return Ok(spelled);
    };
    let former = Former {
        entries: former.entries(),
        raw: former_raw.entries.as_slice(),
    };
    assume_changed(stats, entries, raw.entries.as_slice(), former);
    spell_stat_index(alloc, version, entries, stats)
}

/// The tree cache of these entries, if the tree with this name has just these. Then that tree and those below it are
/// all that the cache names, and the repository has each.
fn trees_of(
    alloc: Global,
    entries: &[Entry],
    tree: &ObjectId,
) -> Result<Option<TreeCache>, AllocError> {
    let Some(cache) = cache_of(alloc, entries)? else {
        return Ok(None);
    };
    if cache.root == *tree {
        Ok(Some(cache))
    } else {
        Ok(None)
    }
}

/// The index of these entries with the cache of a tree with this name. As it is, if that tree has other entries, or if
/// it would be too large to be read.
fn with_trees(
    alloc: Global,
    index: Vec<u8>,
    entries: &[Entry],
    tree: &ObjectId,
) -> Result<Vec<u8>, AllocError> {
    let Some(cache) = trees_of(alloc, entries, tree)? else {
        return Ok(index);
    };
    if cache.text.len() as u64 > MOST_INDEX {
        return Ok(index);
    }
    let cached = with_tree_cache(alloc, index.as_slice(), cache.text.as_slice())?;
    if cached.len() as u64 > MOST_INDEX {
        return Ok(index);
    }
    Ok(cached)
}

/// An index of this version with the entries of this one, and with what is told of their files, if it can be read. If a
/// tree is named that has just these entries, it has the cache of that.
pub fn with_stats(
    alloc: Global,
    version: Version,
    index: &[u8],
    told: ToldFiles<'_>,
    tree: Option<ObjectId>,
) -> Result<Option<Vec<u8>>, AllocError> {
    let (Ok(read), Some(raw)) = (read_index(alloc, index), RawIndex::read(alloc, index)?) else {
        return Ok(None);
    };
    let entries = read.entries();
    let mut stats = stats_of(alloc, entries, raw.entries.as_slice(), told)?;
    entries_can_stand();
    let spelled = match told.before {
        Some(before) => with_assumed(alloc, version, entries, stats.as_mut_slice(), before)?,
        None => spell_stat_index(alloc, version, entries, stats.as_slice())?,
    };
    match tree {
        Some(tree) => Ok(Some(with_trees(alloc, spelled, read.entries(), &tree)?)),
        None => Ok(Some(spelled)),
    }
}

/// The index of a repository with what is told of its files, if that is to take the place of its own one.
pub fn updated_index(
    rt: HostRuntime,
    repo: &mut GitRepo,
    told: &[(&[u8], Stat)],
) -> Result<Option<Vec<u8>>, AllocError> {
    let told = ToldFiles {
        files: told,
        are_assumed: repo.ignores_stat(),
        before: None,
    };
    match repo.index_bytes(MOST_INDEX) {
        Ok(Some(index)) => {
            let version = repo.next_version(MOST_INDEX);
            let tree = repo.wanted_tree();
            with_stats(rt.alloc(), version, index.as_slice(), told, tree)
        }
        _ => Ok(None),
    }
}

/// Puts an index into the place of the repository's own, and gives the status then, which is this one if all goes well.
pub fn put_index(
    rt: HostRuntime,
    lock: &mut IndexLock,
    index: &[u8],
    status: u8,
) -> Result<u8, AllocError> {
    match lock.put(index) {
        Ok(()) => Ok(status),
        Err(error) => {
            let text = format!(in rt.alloc();
                "error: the index is as it was, since the new one can't be written: {error}"
            )?;
            say(rt, text.as_str());
            Ok(ExitStatus::OutputNotWritten.number())
        }
    }
}
