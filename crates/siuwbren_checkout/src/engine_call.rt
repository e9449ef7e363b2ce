//! The engine's call over a git folder and an empty folder, and what it leaves.
ghost use Rattle.std.specs.Prelude.{◌≡◌, IfOk};
ghost use Rattle.checkout_engine.specs.Checkout.{HasWholeRun};
ghost use Rattle.checkout_paths.specs.Workers.{IsAsked};

use crate::driver_gate::{DriverGate, is_shown};
use checkout_engine::{Checkout, checkout, report_checkout};
use checkout_paths::Means;
use edge_adapters::ProcessSpawner;
use edge_kit::Spawner;
use exit_status::ExitStatus;
use git_edge::GitRepo;
use git_worktree::{Driven, GitTree, Keeps};
use one_shot::OnceSpawner;
use program_kit::{CountingTree, Progress, show_drivers, show_errors};
use siuwbren_index::{GatheredSink, updated_index};
use siuwbren_words::{CheckoutWords, WorkerCount};
use std::alloc::AllocError;
use std::io;
use std::mem::forget;
use std::sync::atomic::{AtomicBool, AtomicU32};
use std::sync::{Arc, Wait};
use std::thread::Threads;

/// What is left of a checkout.
#[derive(Drop)]
pub struct CheckedOut {
    pub end: Checkout,
    /// The status once that is reported.
    pub status: ExitStatus,
    /// The index with what is told of the files, if that is asked for and each path was looked at.
    pub index: Option<Vec<u8>>,
    /// Why the folder couldn't be looked at, if it couldn't be.
    pub unread: Option<io::Error>,
}

/// How many workers are asked for.
fn asked_workers(workers: Option<WorkerCount>) -> Option<u32>
    ensures same { result ≡ workers }
    ensures asked { IsAsked result }
{
    match workers {
        Some(workers) => Some(workers.number()),
        None => None,
    }
}

/// The worktree of a checkout, and whether a driver has answered, which they share.
fn tree_of(
    rt: HostRuntime,
    asked: &CheckoutWords<'_>,
    keeps: Keeps,
) -> Result<(GitTree, Driven), AllocError> {
    let driven = Arc::new(rt.alloc(), AtomicBool::new(false))?;
    let shared = Arc::try_clone(&driven)?;
    let folder = String::from_str(rt.alloc(), asked.tree)?;
    let mut tree = GitTree::new(rt, folder, keeps, shared);
    if asked.update_index {
        tree.look_at_files();
    }
    Ok((tree, driven))
}

/// Whether a checkout with this status has looked at each path.
pub fn has_files(status: ExitStatus) -> bool {
    matches!(status, ExitStatus::Done | ExitStatus::DoneWithFailures)
}

/// The index of a checkout with this status, if it is asked for and each path was looked at.
fn index_after(
    rt: HostRuntime,
    asked: &CheckoutWords<'_>,
    repo: &mut GitRepo,
    tree: &GitTree,
    status: ExitStatus,
) -> Result<Option<Vec<u8>>, AllocError> {
    if asked.update_index && has_files(status) {
        updated_index(rt, repo, tree.stats()?.as_slice())
    } else {
        Ok(None)
    }
}

/// Checks out a repository that is open, with this spawner of its drivers, and reports that.
fn check_out_with<P: Spawner, H: Threads + Wait + Sync>(
    rt: HostRuntime,
    threads: &H,
    asked: &CheckoutWords<'_>,
    repo: &mut GitRepo,
    spawner: &mut P,
) -> Result<CheckedOut, AllocError>
    ensures { IfOk result (λ left. HasWholeRun left.end) }
{
    let alloc = rt.alloc();
    let (tree, driven) = tree_of(rt, asked, repo.keeps())?;
    let leaves = AtomicU32::new(0);
    let progress = Progress::new(rt, &leaves, is_shown(rt, asked.progress));
    let gate = DriverGate {
        progress: &progress,
        driven: &driven,
    };
    let mut tree = CountingTree {
        tree,
        leaves: &leaves,
    };
    let means = Means {
        rt: threads,
        alloc,
        gate: &gate,
    };
    let end = checkout(
        &means,
        repo,
        &mut tree,
        spawner,
        asked_workers(asked.workers),
    );
    let mut out = GatheredSink::new(rt, asked.form);
    let reported = report_checkout(alloc, asked.form, &mut out, &end);
    let status = out.end(reported);
    progress.end();
    show_errors(rt, tree.tree.errors());
    let index = index_after(rt, asked, repo, &tree.tree, status)?;
    let unread = tree.tree.unread().copied();
    Ok(CheckedOut {
        end,
        status,
        index,
        unread,
    })
}

/// Checks out a repository that is open, and reports that.
pub fn check_out_of<H: Threads + Wait + Sync>(
    rt: HostRuntime,
    threads: &H,
    asked: &CheckoutWords<'_>,
    repo: &mut GitRepo,
) -> Result<CheckedOut, AllocError>
    ensures { IfOk result (λ left. HasWholeRun left.end) }
{
    let drivers = ProcessSpawner::in_place(rt, repo.driver_place()?)?;
    let maker = drivers.once_maker(threads)?;
    let mut spawner = OnceSpawner::new(rt.alloc(), drivers, maker, false);
    let left = check_out_with(rt, threads, asked, repo, &mut spawner);
    show_drivers(rt, spawner.inner().drivers());
    // the program ends now, and its system takes back what is left
    forget(spawner);
    left
}
