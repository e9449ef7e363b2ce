/// The setting `core.autocrlf` (git-config(1)).
#[derive(Clone, Copy, Debug, PartialEq, Eq)]
pub enum AutoCrlf {
    False,
    True,
    Input,
}

/// The setting `core.eol` (git-config(1)). The native line end is LF.
#[derive(Clone, Copy, Debug, PartialEq, Eq)]
pub enum EolSetting {
    Lf,
    Crlf,
    Native,
}

/// What becomes of a file's line ends in the worktree.
#[derive(Clone, Copy, Debug)]
pub enum LineEnds {
    /// The line ends stay.
    Keep,
    /// Each LF without a CR before it becomes CR LF.
    ToCrlf,
    /// Each LF becomes CR LF, if the content is a text without a CR.
    AutoCrlf,
}
