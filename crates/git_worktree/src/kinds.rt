//! What a leaf makes, by its mark and by what the worktree's file system keeps.
ghost use Rattle.std.specs.Prelude.{◌≡◌};
ghost use Rattle.git_worktree.specs.Kinds.{kind_of, mode_of};

use edge_kit::Mark;

/// What a worktree's file system keeps (git-config(1)).
#[derive(Clone, Copy)]
pub struct Keeps {
    /// Links, as `core.symlinks` says. Without them a link is a plain file with its text. Git makes executable files
    /// whatever `core.fileMode` says.
    pub links: bool,
}

/// What stands at a path.
#[derive(Clone, Copy)]
pub enum FileKind {
    File,
    Program,
    Link,
}

/// What a sealed leaf leaves.
pub fn kind_of(keeps: Keeps, mark: Mark) -> FileKind
    ensures { result ≡ kind_of keeps mark }
{
    match mark {
        Mark::Plain => FileKind::File,
        Mark::Executable => FileKind::Program,
        Mark::LinkText if keeps.links => FileKind::Link,
        Mark::LinkText => FileKind::File,
    }
}

/// The mode that a file is made with. The system takes the umask from it.
pub fn mode_of(kind: FileKind) -> u32
    ensures { result ≡ mode_of kind }
{
    match kind {
        FileKind::Program => 0o777,
        FileKind::File | FileKind::Link => 0o666,
    }
}
