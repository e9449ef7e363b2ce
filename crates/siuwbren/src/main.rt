//! Checks out a Git repository into an empty folder, straight from its git folder, or shows the plan of that, or checks
//! the files of a folder in again. It also judges the journals of checkouts.
//!
//! Git itself is asked where the repository's parts are, for its settings, and for objects that its files don't have.
//! Standard output has the report, in the form that the words ask for. Standard error says what is wrong with words or
//! with the repository, why files weren't written, what a driver wrote in place of packets, and what git would do
//! otherwise.
#![tactic(auto)]

mod ends;
mod folder_words;
mod journal;
mod plan;
mod rehearsed;

use crate::ends::{give, refuse_words};
use crate::folder_words::go_to_folders;
use crate::journal::audit;
use crate::plan::show_plan;
use crate::rehearsed::rehearse;
use edge_adapters::hold_standard;
use exit_status::ExitStatus;
use program_kit::words_of;
use reports::ReportForm;
use siuwbren_checkin::check_in_tree;
use siuwbren_checkout::check_out;
use siuwbren_index::{end_with, show_error_of};
use siuwbren_words::{Subcommand, UsageFault, read_words};
use std::alloc::AllocError;
use std::env::args;
use std::process::ExitCode;
use std::sync::Wait;
use std::thread::Threads;

/// The form of the command's report.
fn form_of(command: &Subcommand<'_>) -> ReportForm {
    match command {
        Subcommand::Checkout(asked) => asked.form,
        Subcommand::Plan(asked) => asked.form,
        _ => ReportForm::Text,
    }
}

/// Ends a command that ran out of memory.
fn end_without_memory(rt: HostRuntime, command: &Subcommand<'_>) -> u8 {
    let status = ExitStatus::OutOfMemory.number();
    show_error_of(rt, form_of(command), end_with(rt, status))
}

/// Does what a command asks for.
fn obey<H: Threads + Wait + Sync>(
    rt: HostRuntime,
    threads: &H,
    command: &Subcommand<'_>,
) -> Result<u8, AllocError> {
    match command {
        Subcommand::Checkout(asked) => check_out(rt, threads, asked),
        Subcommand::Checkin(asked) => check_in_tree(rt, threads, asked),
        Subcommand::Plan(asked) => show_plan(rt, asked),
        Subcommand::Rehearse { seed, paths } => Ok(rehearse(rt, threads, *seed, *paths)),
        Subcommand::Audit { file } => audit(rt, *file),
    }
}

fn run_words<H: Threads + Wait + Sync>(rt: HostRuntime, threads: &H) -> Result<u8, AllocError> {
    let _held = hold_standard(rt);
    let all = args(&rt);
    let are_text = all.is_ok();
    let words = words_of(rt.alloc(), all)?;
    if !are_text {
        return Ok(refuse_words(rt, "error: a word is not UTF-8\n"));
    }
    let words = match go_to_folders(rt, words.as_slice())? {
        Ok(words) => words,
        Err(status) => return Ok(status),
    };
    match read_words(rt.alloc(), words) {
        Ok(command) => match obey(rt, threads, &command) {
            Ok(status) => Ok(status),
            Err(AllocError) => Ok(end_without_memory(rt, &command)),
        },
        Err(UsageFault::Wish(text)) => Ok(give(rt, text.as_str())),
        Err(UsageFault::Wrong(text)) => Ok(refuse_words(rt, text.as_str())),
        Err(UsageFault::NoMemory) => Err(AllocError),
    }
}

fn main(rt: HostRuntime) -> ExitCode {
    match run_words(rt, &rt) {
        Ok(status) => ExitCode::from(status),
        Err(_) => ExitCode::from(end_with(rt, ExitStatus::OutOfMemory.number())),
    }
}
