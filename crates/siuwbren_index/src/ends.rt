//! What standard error says of how a command ended.
use crate::error_value::show_error_of;
use crate::faults::refuse_repository;
use exit_status::ExitStatus;
use git_edge::GitRepo;
use program_kit::message_of;
use reports::ReportForm;

/// Says what a status of the engine means.
pub fn end_with(rt: HostRuntime, status: u8) -> u8 {
    if let Some(message) = message_of(status) {
        let _ = eprintln!(rt; "error: {message}");
    }
    status
}

/// Says what a status of the engine means over a repository: of a read fault what couldn't be read.
/// A report is to have this form.
pub fn end_run(rt: HostRuntime, form: ReportForm, status: u8, repo: &GitRepo) -> u8 {
    if status == ExitStatus::ReadFault.number() {
        if let Some(fault) = repo.read_fault() {
            return refuse_repository(rt, form, &fault);
        }
    }
    show_error_of(rt, form, end_with(rt, status))
}

/// Says what git would do otherwise.
pub fn show_notes(rt: HostRuntime, repo: &GitRepo) {
    if let Ok(notes) = repo.notes() {
        for note in notes.iter() {
            let _ = eprintln!(rt; "note: {note}");
        }
    }
}
