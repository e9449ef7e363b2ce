//! What the words ask the program to do.
use crate::path_count::PathCount;
use crate::worker_count::WorkerCount;
use reports::ReportForm;

/// Where the progress of a checkout is shown.
#[derive(Clone, Copy, Debug, PartialEq, Eq)]
pub enum ProgressChoice {
    /// On standard error, if that is a terminal.
    OnTerminal,
    Shown,
    Hidden,
}

/// A checkout into the folder `tree`.
#[derive(Clone, Copy, Debug)]
pub struct CheckoutWords<'a> {
    /// The git folder, or none for the one that git finds.
    pub git_dir: Option<&'a str>,
    /// The commit, tag or tree to check out, or none for the index.
    pub commit: Option<&'a str>,
    /// How many workers, or none for the number that the configuration has.
    pub workers: Option<WorkerCount>,
    pub form: ReportForm,
    pub progress: ProgressChoice,
    /// Whether only failures stand on standard error.
    pub quiet: bool,
    /// The new file for the journal, if it is wanted.
    pub journal: Option<&'a str>,
    /// Whether the repository's index becomes that of the files.
    pub update_index: bool,
    pub tree: &'a str,
}

/// The plan of a checkout.
#[derive(Clone, Copy, Debug)]
pub struct PlanWords<'a> {
    /// The git folder, or none for the one that git finds.
    pub git_dir: Option<&'a str>,
    /// The commit, tag or tree to plan for, or none for the index.
    pub commit: Option<&'a str>,
    pub form: ReportForm,
}

/// A check-in of the folder `tree`, or of the worktree's top.
#[derive(Clone, Copy, Debug)]
pub struct CheckinWords<'a> {
    /// The git folder, or none for the one that git finds.
    pub git_dir: Option<&'a str>,
    /// Whether no file at all may be there.
    pub allow_empty: bool,
    /// Whether the repository's index becomes that of the files.
    pub update_index: bool,
    pub tree: Option<&'a str>,
}

#[derive(Clone, Copy, Debug)]
pub enum Subcommand<'a> {
    /// Write the worktree.
    Checkout(CheckoutWords<'a>),
    /// Keep a worktree's files as objects and a new index.
    Checkin(CheckinWords<'a>),
    /// Show what a checkout would do.
    Plan(PlanWords<'a>),
    /// Check out a made-up repository of this many paths.
    Rehearse { seed: u64, paths: PathCount },
    /// Judge the journal in this file.
    Audit { file: &'a str },
}
