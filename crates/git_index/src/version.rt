ghost use Rattle.std.specs.Prelude.{◌≡◌, List, Some};
ghost use Rattle.git_index.specs.Spelling.{IsIndex, version_number};
ghost use Rattle.git_index.specs.Reading.{version_at, version_of};
ghost use Rattle.git_index.specs.declared.entry.Entry.{Entry};

use crate::field::number32_of;

/// A version of an index that is read (gitformat-index(5)).
#[derive(Clone, Copy, PartialEq, Eq)]
pub enum Version {
    /// Each path stands whole, and no flags are extended.
    Two,
    /// Each path stands whole, and an entry may have 16 more bits.
    Three,
    /// A path stands as what it changes in the one before, and an entry may have 16 more bits.
    Four,
}

impl Version {
    /// The version with this number, if it is read.
    pub fn of(number: u32) -> Option<Version>
        ensures { result ≡ version_at number }
    {
        match number {
            2 => Some(Version::Two),
            3 => Some(Version::Three),
            4 => Some(Version::Four),
            _ => None,
        }
    }

    /// Its number in the header.
    pub fn number(self) -> u32
        ensures { result ≡ version_number self }
    {
        match self {
            Version::Two => 2,
            Version::Three => 3,
            Version::Four => 4,
        }
    }
}

/// The version of an index by its header, if the bytes have one of a version that is read.
pub fn index_version(bytes: &[u8]) -> Option<Version>
    ensures value { result ≡ version_of bytes.now }
    ensures index { (entries : List Entry) (index : IsIndex bytes.now entries) → result ≡ Some index.text.version }
{
    if bytes.len() < 12 {
        return None;
    }
    Version::of(number32_of(&bytes[4..8]))
}
