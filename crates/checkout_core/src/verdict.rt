//! How a path ended, and why.
ghost use Rattle.std.specs.Prelude.{◌≡◌};
ghost use Rattle.checkout_core.specs.CauseWords.{filter_word, object_word, skip_word, fail_word};

use filter_words::BreakCause;

/// Why a filter driver's answer for a path isn't its content.
#[derive(Clone, Copy, PartialEq, Eq)]
pub enum FilterCause {
    /// The driver refused the content.
    Error,
    /// `status=error` after the content.
    ErrorAfter,
    /// The driver answered `abort`, to this path or before it.
    Abort,
    /// The driver doesn't announce `smudge`.
    NoSmudge,
    /// The driver's command could not be started.
    NotStarted,
    /// The driver's answer is broken.
    Broken(BreakCause),
}

impl FilterCause {
    /// The cause in one word.
    pub fn word(self) -> &'static str
        ensures { result.now ≡ filter_word self }
    {
        match self {
            FilterCause::Error => "filter-error",
            FilterCause::ErrorAfter => "filter-error-late",
            FilterCause::Abort => "filter-abort",
            FilterCause::NoSmudge => "filter-no-smudge",
            FilterCause::NotStarted => "filter-not-started",
            FilterCause::Broken(cause) => cause.word(),
        }
    }
}

/// What is wrong with the object of a path.
#[derive(Clone, Copy, Debug, PartialEq, Eq)]
pub enum ObjectKind {
    /// The object is absent.
    Absent,
    /// The object's first bytes are wrong.
    Header,
    /// The object's size isn't the one in its header.
    Size,
    /// The object's SHA-1 isn't its name.
    WrongName,
    /// The object is too large.
    TooLarge,
}

impl ObjectKind {
    /// What is wrong in one word.
    pub fn word(self) -> &'static str
        ensures { result.now ≡ object_word self }
    {
        match self {
            ObjectKind::Absent => "object-absent",
            ObjectKind::Header => "object-header",
            ObjectKind::Size => "object-size",
            ObjectKind::WrongName => "object-name",
            ObjectKind::TooLarge => "object-too-large",
        }
    }
}

/// Why nothing is written for a path, though nothing failed.
#[derive(Clone, Copy, PartialEq, Eq)]
pub enum SkipCause {
    /// A commit of another repository.
    Gitlink,
    /// A path with stages 1 to 3.
    Unmerged,
    /// A path that a sparse checkout leaves out.
    Sparse,
    /// A path that is to be added and has no content yet.
    Intent,
}

impl SkipCause {
    /// The cause in one word.
    pub fn word(self) -> &'static str
        ensures { result.now ≡ skip_word self }
    {
        match self {
            SkipCause::Gitlink => "gitlink",
            SkipCause::Unmerged => "unmerged",
            SkipCause::Sparse => "sparse",
            SkipCause::Intent => "intent",
        }
    }
}

/// Why a path failed.
#[derive(Clone, Copy, PartialEq, Eq)]
pub enum FailCause {
    Filter(FilterCause),
    /// A delayed path that its driver never listed.
    Missing,
    /// A required driver without a command.
    NoProcess,
    Object(ObjectKind),
    /// The encoding isn't known.
    UnknownEncoding,
    /// A path that isn't UTF-8.
    NameNotText,
    /// The object could not be read.
    ReadFailed,
    /// The file could not be written.
    WriteFailed,
}

impl FailCause {
    /// The cause in one word.
    pub fn word(self) -> &'static str
        ensures { result.now ≡ fail_word self }
    {
        match self {
            FailCause::Filter(cause) => cause.word(),
            FailCause::Missing => "missing",
            FailCause::NoProcess => "no-process",
            FailCause::Object(kind) => kind.word(),
            FailCause::UnknownEncoding => "encoding",
            FailCause::NameNotText => "name",
            FailCause::ReadFailed => "read",
            FailCause::WriteFailed => "write",
        }
    }
}

/// How a path of a checkout ended.
#[derive(Clone, Copy, PartialEq, Eq)]
pub enum Verdict {
    /// The path has its file. `unencoded` says that its content isn't UTF-8 and was written as it is.
    Written { unencoded: bool },
    /// The path has its file, without its driver, which isn't required.
    Unfiltered { cause: FilterCause, unencoded: bool },
    Failed(FailCause),
    NoMemory,
    Skipped(SkipCause),
}

/// The own outcome of a path: what happened to it, whatever its driver says.
#[derive(Clone, Copy, Debug, PartialEq, Eq)]
pub enum Own {
    Fine { unencoded: bool },
    Object(ObjectKind),
    ReadFailed,
    WriteFailed,
    NoMemory,
}
