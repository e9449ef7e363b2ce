use crate::shared::Shared;
use byte_path::Bytes;

/// One key of a configuration.
#[derive(Drop)]
pub struct Setting {
    /// The section's name, in lower case. The settings of a header share it.
    pub section: Shared,
    /// The subsection: as it is written in quotes, or what follows the name's first dot, in lower case.
    pub sub: Option<Shared>,
    /// The key, in lower case.
    pub key: Bytes,
    /// The value with its quotes and escapes read, or `None` if the key has no `=`.
    pub value: Option<Bytes>,
}

/// The section that the lines below a header belong to.
#[derive(Drop)]
pub struct Head {
    pub section: Shared,
    pub sub: Option<Shared>,
}
