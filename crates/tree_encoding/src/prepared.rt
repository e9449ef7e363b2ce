use byte_path::Bytes;

/// A content as it stands in the worktree.
#[derive(Drop)]
pub struct Prepared {
    pub bytes: Bytes,
    /// It isn't UTF-8, so it stays as it is although an encoding is named.
    pub unencoded: bool,
}
