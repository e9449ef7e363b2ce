//! A checkout from a git folder, with what stands beside its files.
use crate::engine_call::{CheckedOut, check_out_of, has_files};
use crate::journal::journal_file;
use crate::submodules::make_submodules;
use crate::target::{make_target, refused_target};
use byte_path::Bytes;
use exit_status::ExitStatus;
use git_edge::{GitFault, GitRepo, IndexLock};
use program_kit::JournalFile;
use reports::ReportForm;
use siuwbren_index::{
    allowed_submodules, end_run, end_with, index_lock, put_index, refuse_repository, show_error,
    show_notes, show_refusal,
};
use siuwbren_words::CheckoutWords;
use std::alloc::AllocError;
use std::sync::Wait;
use std::thread::Threads;

/// What a checkout writes beside the files and the report.
#[derive(Drop)]
struct Beside {
    journal: Option<JournalFile>,
    /// The lock of the index, if that is to be updated.
    index: Option<IndexLock>,
    /// The paths of the submodules that get a folder.
    submodules: Vec<Bytes>,
}

/// Says what a status means, by the folder if that couldn't be looked at, and else by the repository.
fn show_end(
    rt: HostRuntime,
    asked: &CheckoutWords<'_>,
    left: &CheckedOut,
    repo: &GitRepo,
) -> Result<(), AllocError> {
    if let Some(error) = left.unread {
        let folder = String::from_str(rt.alloc(), asked.tree)?;
        refuse_repository(rt, asked.form, &GitFault::Unread(folder, error));
    } else {
        end_run(rt, asked.form, left.status.number(), repo);
    }
    Ok(())
}

/// The status where no journal can be made, of which standard error has said why.
fn refuse_journal(rt: HostRuntime, form: ReportForm, path: &str) -> Result<u8, AllocError> {
    let words = format!(in rt.alloc(); "journal '{path}': no file can be made")?;
    let status = ExitStatus::Usage.number();
    Ok(show_error(rt, form, status, words.as_str()))
}

/// Says what else is to be said of a checkout and of a repository.
fn explain(
    rt: HostRuntime,
    asked: &CheckoutWords<'_>,
    left: &CheckedOut,
    repo: &mut GitRepo,
) -> Result<(), AllocError> {
    show_end(rt, asked, left, repo)?;
    if matches!(left.status, ExitStatus::Refused) {
        show_refusal(rt, repo);
    }
    if !asked.quiet {
        show_notes(rt, repo);
    }
    Ok(())
}

/// Checks out a repository into an empty folder, and writes what is to be written beside.
fn check_out_all<H: Threads + Wait + Sync>(
    rt: HostRuntime,
    threads: &H,
    asked: &CheckoutWords<'_>,
    repo: &mut GitRepo,
    beside: Beside,
) -> Result<u8, AllocError> {
    let Beside {
        journal,
        mut index,
        submodules,
    } = beside;
    let left = check_out_of(rt, threads, asked, repo)?;
    if has_files(left.status) {
        make_target(rt, asked.tree);
        make_submodules(rt, asked.tree, submodules.as_slice())?;
    }
    let mut status = left.status.number();
    explain(rt, asked, &left, repo)?;
    if let (Some(lock), Some(bytes)) = (&mut index, &left.index) {
        status = put_index(rt, lock, bytes.as_slice(), status)?;
    }
    if let Some(journal) = journal {
        journal.end(&left.end);
    }
    Ok(status)
}

/// Checks out a repository into an empty folder, if its journal can be made where it is to be.
fn check_out_words<H: Threads + Wait + Sync>(
    rt: HostRuntime,
    threads: &H,
    asked: &CheckoutWords<'_>,
    repo: &mut GitRepo,
) -> Result<u8, AllocError> {
    let index = match index_lock(rt, asked.form, repo, asked.update_index, asked.tree)? {
        Ok(index) => index,
        Err(status) => return Ok(status),
    };
    let submodules = match allowed_submodules(rt, repo, asked.form)? {
        Ok(submodules) => submodules,
        Err(status) => return Ok(end_with(rt, status.number())),
    };
    let mut beside = Beside {
        journal: None,
        index,
        submodules,
    };
    if let Some(path) = asked.journal {
        beside.journal = journal_file(rt, path)?;
        if beside.journal.is_none() {
            return Ok(refuse_journal(rt, asked.form, path)?);
        }
    }
    check_out_all(rt, threads, asked, repo, beside)
}

/// Checks out a repository into an empty folder. No process of git is left running.
pub fn check_out<H: Threads + Wait + Sync>(
    rt: HostRuntime,
    threads: &H,
    asked: &CheckoutWords<'_>,
) -> Result<u8, AllocError> {
    if let Some(status) = refused_target(rt, asked.form, asked.tree)? {
        return Ok(status.number());
    }
    match GitRepo::open(rt, asked.git_dir, asked.commit) {
        Ok(mut repo) => {
            let status = check_out_words(rt, threads, asked, &mut repo);
            repo.end();
            status
        }
        Err(fault) => Ok(refuse_repository(rt, asked.form, &fault)),
    }
}
