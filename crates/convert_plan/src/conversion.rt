ghost use Rattle.std.specs.Prelude.{◌≡◌, length};
ghost use Rattle.convert_plan.specs.Conversion.{is_set, conversion_of};

use attr_line::AttrState;
use eol_convert::{Action, AutoCrlf, EolSetting, action_of};
use tree_encoding::{Encoding, UnknownEncoding, encoding_of};

/// What is done to a path's content, on its way to the worktree and on its way back.
#[derive(Clone, Copy)]
pub struct Conversion {
    /// Whether the keyword `$Id$` is expanded, and undone on the way back.
    pub ident: bool,
    /// What is done with the line ends.
    pub action: Action,
    /// The encoding, or `None` for UTF-8.
    pub encoding: Option<Encoding>,
}

fn is_set(state: &AttrState) -> bool
    ensures { result ≡ is_set state.now }
{
    matches!(state, AttrState::Set)
}

/// The conversion of a path from the states of its five attributes `text`, `crlf`, `eol`, `ident` and
/// `working-tree-encoding`, in this order, and from the settings `core.autocrlf` and `core.eol` (gitattributes(5)).
///
/// An error comes if the last state names an unknown encoding. It takes no memory.
pub fn conversion_of(
    states: &[AttrState],
    auto: AutoCrlf,
    setting: EolSetting,
) -> Result<Conversion, UnknownEncoding>
    requires { length states.now ≡ 5 }
    ensures { result ≡ conversion_of states.now auto setting }
{
    let [text, crlf, eol, ident, encoding] = states else {
        unreachable!()
    };
    match encoding_of(encoding) {
        Ok(encoding) => Ok(Conversion {
            ident: is_set(ident),
            action: action_of(text, crlf, eol, auto, setting),
            encoding,
        }),
        Err(UnknownEncoding) => Err(UnknownEncoding),
    }
}
