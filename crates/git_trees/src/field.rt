//! The fixed parts of an entry.
ghost use Rattle.std.specs.Prelude.{◌≡◌, ◌<◌, ◌≤◌, length, take, drop, position, IfSome};
ghost use Rattle.git_trees.specs.Format.{is_space, ends_name};
ghost use Rattle.git_trees.specs.Reading.{mode_at, begins_mode};

use crate::entry::TreeMode;
use byte_path::ObjectId;

/// Where the first space stands.
pub fn first_space(bytes: &[u8]) -> Option<usize>
    ensures value { result ≡ position is_space bytes.now }
    ensures within { IfSome result (λ n. n < length bytes.now) }
{
    bytes.iter().position(|b| *b == b' ')
}

/// Where the first NUL or slash stands.
pub fn name_end(bytes: &[u8]) -> Option<usize>
    ensures value { result ≡ position ends_name bytes.now }
    ensures within { IfSome result (λ n. n < length bytes.now) }
{
    bytes.iter().position(|b| *b == 0 || *b == b'/')
}

/// The mode that is spelled so.
pub fn mode_of(digits: &[u8]) -> Option<TreeMode>
    ensures { result ≡ mode_at digits.now }
{
    if digits == b"100644".as_slice() || digits == b"100664".as_slice() {
        return Some(TreeMode::Plain);
    }
    if digits == b"100755".as_slice() {
        return Some(TreeMode::Executable);
    }
    if digits == b"120000".as_slice() {
        return Some(TreeMode::Link);
    }
    if digits == b"160000".as_slice() {
        return Some(TreeMode::Gitlink);
    }
    if digits == b"40000".as_slice() {
        return Some(TreeMode::Folder);
    }
    None
}

/// Whether a mode can begin so.
pub fn begins_mode(bytes: &[u8]) -> bool
    ensures { result ≡ begins_mode bytes.now }
{
    b"100644".as_slice().starts_with(bytes)
        || b"100664".as_slice().starts_with(bytes)
        || b"100755".as_slice().starts_with(bytes)
        || b"120000".as_slice().starts_with(bytes)
        || b"160000".as_slice().starts_with(bytes)
        || b"40000".as_slice().starts_with(bytes)
}

/// The object name behind the NUL.
pub fn object_of(tail: &[u8]) -> ObjectId
    requires { 21 ≤ length tail.now }
    ensures { result ≡ take 20 (drop 1 tail.now) }
{
    let mut object = [0u8; 20];
    object.copy_from_slice(&tail[1..21]);
    object
}
