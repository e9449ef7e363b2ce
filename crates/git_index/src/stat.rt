/// What an index tells of an entry's file, so that git needn't read it: the answer of `lstat` (gitformat-index(5)),
/// each number cut off to its low 32 bits, and one bit of the flags.
#[derive(Clone, Copy)]
pub struct Stat {
    /// The last change of the file's metadata, in seconds since 1970.
    pub ctime: u32,
    pub ctime_nanos: u32,
    /// The last change of its content, in seconds since 1970.
    pub mtime: u32,
    pub mtime_nanos: u32,
    pub dev: u32,
    pub ino: u32,
    pub uid: u32,
    pub gid: u32,
    /// In bytes. Git reads the file again where this is 0 and its content isn't empty.
    pub size: u32,
    /// Assume-valid: git takes the file to be as the entry says, without a look at it.
    pub valid: bool,
}

impl Stat {
    /// What an index tells of a file that isn't there.
    pub const NONE: Stat = Stat {
        ctime: 0,
        ctime_nanos: 0,
        mtime: 0,
        mtime_nanos: 0,
        dev: 0,
        ino: 0,
        uid: 0,
        gid: 0,
        size: 0,
        valid: false,
    };
}
