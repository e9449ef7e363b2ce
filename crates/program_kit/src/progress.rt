//! How many paths of a checkout are closed, on standard error while it runs.
use edge_kit::{Failed, Gate, Mark, Point, Worktree};
use std::alloc::AllocError;
use std::io::IsTerminal;
use std::sync::atomic::{AtomicBool, AtomicU32, Ordering};
use std::time::Instant;

/// A worktree that counts the leaves that it gave: there is one for each path that is to be written.
#[derive(Drop)]
pub struct CountingTree<'a, T: Worktree + Drop> {
    pub tree: T,
    pub leaves: &'a AtomicU32,
}

impl<T: Worktree + Drop> Worktree for CountingTree<'_, T> {
    type Leaf = T::Leaf;

    ghost seen = { λ t. T.seen t.tree };

    ghost empty_files = { λ t. T.empty_files t.tree };

    ghost ordered_files = { λ t. T.ordered_files t.tree };

    fn is_empty(&mut self) -> Result<bool, Failed> {
        self.tree.is_empty()
    }

    fn leaf(&mut self, path: &str) -> Result<T::Leaf, AllocError> {
        let leaf = self.tree.leaf(path)?;
        self.leaves.fetch_add(1, Ordering::SeqCst);
        Ok(leaf)
    }

    fn leaf_for(&mut self, path: &str, mark: Mark) -> Result<T::Leaf, AllocError> {
        let leaf = self.tree.leaf_for(path, mark)?;
        self.leaves.fetch_add(1, Ordering::SeqCst);
        Ok(leaf)
    }

    fn take_back(&mut self, leaf: T::Leaf) {
        self.tree.take_back(leaf)
    }
}

/// A gate that shows how many paths are closed, once for each percent, after the first second.
#[derive(Drop)]
pub struct Progress<'a> {
    rt: HostRuntime,
    /// When the checkout began, if anything is to be shown.
    begun: Option<Instant>,
    /// How many paths are to be closed.
    total: &'a AtomicU32,
    closed: AtomicU32,
    /// Whether a line was begun that isn't ended.
    shown: AtomicBool,
}

impl<'a> Progress<'a> {
    /// A gate that shows something, or doesn't.
    pub fn new(rt: HostRuntime, total: &'a AtomicU32, is_shown: bool) -> Progress<'a> {
        let begun = if is_shown {
            Instant::now(&rt).ok()
        } else {
            None
        };
        Progress {
            rt,
            begun,
            total,
            closed: AtomicU32::new(0),
            shown: AtomicBool::new(false),
        }
    }

    /// Whether the checkout runs for a second or more.
    fn is_late(&self, begun: Instant) -> bool {
        begun
            .elapsed(&self.rt)
            .is_ok_and(|time| time.as_secs() >= 1)
    }

    /// Shows how far the checkout is. The last step ends the line, so that the report begins one of its own.
    fn show(&self, share: u64, closed: u32, total: u32) {
        let is_last = closed >= total;
        self.shown.store(!is_last, Ordering::SeqCst);
        let ending = if is_last { ", done\n" } else { "" };
        let _ = eprint!(self.rt; "\rChecking out files: {share:3}% ({closed}/{total}){ending}");
    }

    /// Ends the line, if one was begun and not ended.
    pub fn end(&self) {
        if self.shown.load(Ordering::SeqCst) {
            let _ = eprintln!(self.rt; "");
        }
    }
}

/// Whether standard error is a terminal.
pub fn has_terminal(rt: HostRuntime) -> bool {
    rt.stderr().is_terminal()
}

/// How many percent of the total this is.
fn percent(count: u32, total: u32) -> u64 {
    (count as u64 * 100)
        .checked_div(total as u64)
        .unwrap_or(100)
}

impl Gate for Progress<'_> {
    fn at(&self, _actor: u32, _path: u32, point: Point) {
        let (Some(begun), Point::Closed) = (self.begun, point) else {
            return;
        };
        let before = self.closed.fetch_add(1, Ordering::SeqCst);
        let closed = before.saturating_add(1);
        let total = self.total.load(Ordering::SeqCst);
        let share = percent(closed, total);
        if share == percent(before, total) || !self.is_late(begun) {
            return;
        }
        self.show(share, closed, total);
    }
}
