//! The byte order mark.
ghost use Rattle.std.specs.Prelude.{◌≡◌};
ghost use Rattle.byte_path.specs.Front.{unmarked};

/// The byte order mark of UTF-8.
const MARK: &[u8; 3] = b"\xEF\xBB\xBF";

/// What follows a byte order mark of UTF-8 at the start, or the whole text if it begins with none.
///
/// Only one mark is skipped: a second one stays. It takes no memory.
pub fn unmarked(text: &[u8]) -> &[u8]
    ensures { result.now ≡ unmarked text.now }
{
    if !text.starts_with(MARK) {
        return text;
    }
    let (_, behind) = text.split_at(MARK.len());
    behind
}
