//! Checks out the index of a Git folder with uncompressed objects into an empty folder, by its configuration and its
//! attributes, or shows the plan of that, or checks the files in again. It also writes and judges journals.
//!
//! Standard error says in one line why a status isn't that of a report; beside it drivers write there. A checkout
//! writes its journal if the environment names a file for it.
#![tactic(auto)]

ghost use Rattle.std.specs.Prelude.{◌≡◌, IfOk, option_map, string_bytes};
ghost use Rattle.checkout_program.specs.Words.{word_at, message_for};

mod checkin;
mod journal_place;

use crate::checkin::checkin_words;
use crate::journal_place::{JournalPlace, journal_place};
use checkin_engine::is_checkin;
use checkout_engine::run_words;
use checkout_paths::Means;
use edge_adapters::{
    FolderBlob, FolderRepo, FolderTree, OutputSink, ProcessSpawner, hold_standard,
};
use edge_kit::NoGate;
use exit_status::ExitStatus;
use journal_run::{is_journal, journal_run};
use one_shot::OnceSpawner;
use program_kit::{message_of, words_of};
use std::alloc::AllocError;
use std::env::args;
use std::io::writer;
use std::mem::forget;
use std::process::ExitCode;
use std::sync::Wait;
use std::thread::Threads;

/// The word with this number, or the empty text if it is missing.
fn word_at(rt: HostRuntime, words: &[String], number: usize) -> Result<String, AllocError>
    ensures { IfOk result (λ word. string_bytes word ≡ word_at words.now number) }
{
    match words.get(number) {
        Some(word) => word.clone(),
        None => Ok(String::new(rt.alloc())),
    }
}

/// What a status says on standard error.
fn message_for(status: u8) -> Option<&'static str>
    ensures { option_map (λ text. text.now) result ≡ message_for status }
{
    if status == ExitStatus::Usage.number() {
        return Some("usage: REPO TREE checkout|plan|rehearse");
    }
    message_of(status)
}

/// The Git folder and the worktree's folder, by the first and the second word. It reads nothing.
fn folders_of(rt: HostRuntime, words: &[String]) -> Result<(FolderRepo, FolderTree), AllocError>
    ensures repo { IfOk result (λ made. string_bytes made.0.folder.value ≡ word_at words.now 0) }
    ensures tree { IfOk result (λ made. string_bytes made.1.folder ≡ word_at words.now 1) }
{
    let repo = word_at(rt, words, 0)?;
    let tree = word_at(rt, words, 1)?;
    Ok((FolderRepo::new(rt, repo)?, FolderTree::new(rt, tree)))
}

/// Runs these words in these folders, and writes the journal of a checkout that is done where it is to be.
fn run_in<H: Threads + Wait + Sync>(
    rt: HostRuntime,
    threads: &H,
    words: &[String],
    repo: &mut FolderRepo,
    mut tree: FolderTree,
    place: JournalPlace,
) -> Result<u8, AllocError> {
    // first, since it takes the number of a closed standard error
    let spawner = ProcessSpawner::new(rt);
    let maker = spawner.once_maker(threads)?;
    let mut spawner = OnceSpawner::new(rt.alloc(), spawner, maker, false);
    let mut out = OutputSink::new(rt, writer(&rt));
    let means = Means {
        rt: threads,
        alloc: rt.alloc(),
        gate: &NoGate,
    };
    let ended = run_words(&means, words, repo, &mut tree, &mut spawner, &mut out);
    // the program ends now, and its system takes back what is left
    forget(spawner);
    if let (JournalPlace::File(journal), Some(checkout)) = (place, &ended.checkout) {
        journal.end(checkout);
    }
    Ok(ended.status.number())
}

/// Writes what a status says on standard error.
fn show_message(rt: HostRuntime, status: u8) {
    if let Some(message) = message_for(status) {
        let _ = eprintln!(rt; "{message}");
    }
}

/// Writes or judges a journal, as these words ask for it: the status.
fn journal_words<H: Threads + Wait + Sync>(
    rt: HostRuntime,
    threads: &H,
    words: &[String],
) -> Result<u8, AllocError> {
    let mut text = FolderBlob::of_file(rt, word_at(rt, words, 0)?);
    let mut out = OutputSink::new(rt, writer(&rt));
    let status = journal_run(threads, rt.alloc(), words, &mut text, &NoGate, &mut out);
    Ok(status)
}

/// Runs these words in the folders that they name, and writes the journal of a checkout that reached its report.
fn folder_words<H: Threads + Wait + Sync>(
    rt: HostRuntime,
    threads: &H,
    words: &[String],
    place: JournalPlace,
) -> Result<u8, AllocError> {
    let (mut repo, tree) = folders_of(rt, words)?;
    run_in(rt, threads, words, &mut repo, tree, place)
}

/// Runs these words, and gives the status. It is `None` where standard error has said already why there is none.
fn status_of<H: Threads + Wait + Sync>(
    rt: HostRuntime,
    threads: &H,
    words: &[String],
) -> Result<Option<u8>, AllocError> {
    if is_journal(words) {
        return Ok(Some(journal_words(rt, threads, words)?));
    }
    if is_checkin(words) {
        return Ok(Some(checkin_words(rt, threads, words)?));
    }
    match journal_place(rt, words)? {
        JournalPlace::Unusable => Ok(None),
        place => Ok(Some(folder_words(rt, threads, words, place)?)),
    }
}

fn obey<H: Threads + Wait + Sync>(rt: HostRuntime, threads: &H) -> Result<u8, AllocError> {
    let _held = hold_standard(rt);
    let words = words_of(rt.alloc(), args(&rt))?;
    match status_of(rt, threads, &words)? {
        Some(status) => {
            show_message(rt, status);
            Ok(status)
        }
        None => Ok(ExitStatus::Usage.number()),
    }
}

fn main(rt: HostRuntime) -> ExitCode {
    match obey(rt, &rt) {
        Ok(status) => ExitCode::from(status),
        Err(_) => {
            let status = ExitStatus::OutOfMemory.number();
            show_message(rt, status);
            ExitCode::from(status)
        }
    }
}
