//! What a configuration says of a checkout.
use byte_path::{Bytes, Items};
use eol_convert::{AutoCrlf, EolSetting};

/// A filter driver (gitattributes(5), "filter").
#[derive(Drop)]
pub struct Driver {
    /// The subsection of `filter` that its keys are in.
    pub name: Bytes,
    /// What runs it: `filter.<name>.process`, the command of a long-running filter process, or else a NUL and
    /// `filter.<name>.smudge`, the command that runs once for each content. On the way back that is
    /// `filter.<name>.clean`. A value that is empty or holds a NUL counts as none.
    pub process: Option<Bytes>,
    /// `filter.<name>.required`.
    pub required: bool,
}

/// What a configuration says of a checkout.
#[derive(Drop)]
pub struct Settings {
    /// `core.autocrlf`.
    pub autocrlf: AutoCrlf,
    /// `core.eol`.
    pub eol: EolSetting,
    /// `checkout.workers`, from 1 to 16.
    pub workers: u32,
    /// `checkout.thresholdForParallelism`, in files.
    pub threshold: u64,
    /// The filter drivers, by name in the order of bytes, each once.
    pub drivers: Items<Driver>,
}
