//! What comes back unchanged.
ghost use Rattle.checkin_paths.specs.BackAgain.{LosesNothing, ComesBack};

use crate::path::Storing;
use back_convert::content_comes_back;
use byte_path::ObjectId;
use object_dir::content_has_one_spelling;

/// The law that a path comes back: if its file is what a checkout without drivers makes of the content that its stored
/// object gives, or what the path's driver cleans to that, and if the content loses nothing on the way, then the file
/// is stored as the content, and the path is reported as the same. It does nothing.
pub fn path_comes_back(stored: &[u8], name: &ObjectId, content: &[u8], storing: Storing)
    requires { LosesNothing storing name.now content.now }
    ensures { ComesBack storing stored.now name.now content.now }
{
    let Storing {
        ident,
        action,
        encoding,
        ..
    } = storing;
    content_comes_back(content, name, ident, action, encoding);
    content_has_one_spelling(stored, name);
}
