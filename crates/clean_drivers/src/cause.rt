//! Why a content isn't cleaned.
ghost use Rattle.std.specs.Prelude.{◌≡◌};
ghost use Rattle.clean_drivers.specs.Causes.{cause_word};

use filter_words::BreakCause;

/// Why a driver refused a path.
#[derive(Clone, Copy)]
pub enum CleanCause {
    /// Its reply was an error, before a content.
    Error,
    /// `status=error` after the content.
    ErrorAfter,
    /// Its reply was an abort, or the reply for a path before was.
    Abort,
    /// It doesn't announce `clean`.
    NoClean,
    /// It couldn't be started.
    NotStarted,
    /// Its handshake or its reply was broken.
    Broken(BreakCause),
}

/// Why there is no cleaned content.
#[derive(Clone, Copy)]
pub enum CleanFault {
    Refused(CleanCause),
    NoMemory,
}

impl CleanCause {
    /// The word for a cause in a report.
    pub fn word(self) -> &'static str
        ensures { result.now ≡ cause_word self }
    {
        match self {
            CleanCause::Error => "filter-error",
            CleanCause::ErrorAfter => "filter-error-late",
            CleanCause::Abort => "filter-abort",
            CleanCause::NoClean => "filter-no-clean",
            CleanCause::NotStarted => "filter-not-started",
            CleanCause::Broken(why) => why.word(),
        }
    }
}
