//! What becomes of a path.
ghost use Rattle.std.specs.Prelude.{◌≡◌};
ghost use Rattle.checkin_paths.specs.Fates.{cause_word};

use byte_path::ObjectId;
use clean_drivers::CleanCause;

/// Why a path isn't checked in.
#[derive(Clone, Copy)]
pub enum CheckinCause {
    /// Its encoding is unknown.
    Encoding,
    /// Its filter driver is required, and has no way to clean a content.
    NoProcess,
    /// The file, or the index's content of the path, couldn't be read.
    Read,
    /// A file stands in a link's place, or a link in a file's.
    OtherKind,
    /// The file has more than 268,435,456 bytes.
    TooLarge,
    /// Its filter driver is required, and refused it.
    Filter(CleanCause),
    /// The file isn't in its encoding.
    EncodingForm,
}

/// What becomes of a path.
#[derive(Clone, Copy)]
pub enum Fate {
    /// It has the object of its entry.
    Same,
    /// It has another object, of this name.
    Changed(ObjectId),
    /// It has no file.
    Gone,
    /// Its entry stays, and its file isn't looked at.
    Kept,
    Failed(CheckinCause),
}

impl CheckinCause {
    /// The word for a cause in the report.
    pub fn word(self) -> &'static str
        ensures { result.now ≡ cause_word self }
    {
        match self {
            CheckinCause::Encoding => "encoding",
            CheckinCause::NoProcess => "no-process",
            CheckinCause::Read => "read",
            CheckinCause::OtherKind => "type",
            CheckinCause::TooLarge => "too-large",
            CheckinCause::Filter(why) => why.word(),
            CheckinCause::EncodingForm => "encoding-form",
        }
    }
}
