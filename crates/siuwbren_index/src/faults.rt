//! What standard error says of a repository that can't be used.
use crate::error_value::show_error;
use exit_status::ExitStatus;
use git_edge::GitFault;
use reports::ReportForm;

/// Writes a line on standard error.
pub fn say(rt: HostRuntime, line: &str) {
    let _ = eprintln!(rt; "{line}");
}

/// The status of a repository that can't be used.
fn status_of(fault: &GitFault) -> ExitStatus {
    match fault {
        GitFault::NoGit(_)
        | GitFault::TooOld
        | GitFault::NoScratch(..)
        | GitFault::Unread(..)
        | GitFault::UnreadObject(_) => ExitStatus::ReadFault,
        GitFault::NoMemory => ExitStatus::OutOfMemory,
        GitFault::Refused(_)
        | GitFault::NoRevision(_)
        | GitFault::ObjectFormat(_)
        | GitFault::BadPath
        | GitFault::Locked(_)
        | GitFault::NoLock(..) => ExitStatus::Refused,
    }
}

/// Says why a repository can't be used, where a report is to have this form, and gives the status.
pub fn refuse_repository(rt: HostRuntime, form: ReportForm, fault: &GitFault) -> u8 {
    let _ = eprintln!(rt; "error: {fault}");
    let status = status_of(fault).number();
    match format!(in rt.alloc(); "{fault}") {
        Ok(words) => show_error(rt, form, status, words.as_str()),
        Err(_) => status,
    }
}

/// Says why words ask for what can't be, where a report is to have this form, and gives the status.
pub fn refuse_wish(rt: HostRuntime, form: ReportForm, words: &str) -> ExitStatus {
    let _ = eprintln!(rt; "error: {words}");
    show_error(rt, form, ExitStatus::Usage.number(), words);
    ExitStatus::Usage
}
