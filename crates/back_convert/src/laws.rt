//! What comes back unchanged: laws over the definitions alone.
ghost use Rattle.std.specs.Prelude.{◌≡◌, false, Some};
ghost use Rattle.ident_convert.specs.Ident.{keyword_text, expanded};
ghost use Rattle.eol_convert.specs.Action.{ends_of};
ghost use Rattle.eol_convert.specs.Content.{to_tree_ends};
ghost use Rattle.back_convert.specs.Ends.{has_crlf, back_ends};
ghost use Rattle.back_convert.specs.Ident.{back_ident, has_expanded};
ghost use Rattle.tree_encoding.specs.Encode.{encoded};
ghost use Rattle.convert_plan.specs.Prepared.{prepared};
ghost use Rattle.back_convert.specs.Encoding.{back_encoded};
ghost use Rattle.back_convert.specs.Laws.{is_text, in_tree, back_ident_if, stored, conversion};
ghost use Rattle.back_convert.specs.Laws.{HasSafeEnds, HasSafeKeywords, HasSafeMark, HasSafeMarkIf};

use byte_path::ObjectId;
use eol_convert::Action;
use tree_encoding::Encoding;

/// The law that keywords come back: where a content has no expanded keyword, expanding its keywords and undoing that
/// gives the content. It does nothing.
pub fn ident_comes_back(content: &[u8], name: &ObjectId)
    requires { has_expanded content.now ≡ false }
    ensures { back_ident (expanded (keyword_text name.now) content.now) ≡ content.now }
{}

/// The law that line ends come back: where a content has no CR directly before an LF, the way to the worktree and back
/// gives the content. It does nothing.
pub fn ends_come_back(content: &[u8], action: Action)
    requires { has_crlf content.now ≡ false }
    ensures { back_ends (to_tree_ends content.now (ends_of action)) action false ≡ content.now }
{}

/// The law that a content comes back from the worktree, but for its encoding. It does nothing.
pub fn text_comes_back(content: &[u8], name: &ObjectId, action: Action, ident: bool)
    requires ends { HasSafeEnds ident action name.now content.now }
    requires keywords { HasSafeKeywords ident content.now }
    ensures { back_ident_if ident
        (back_ends (in_tree ident action name.now content.now) action (has_crlf content.now)) ≡ content.now }
{}

/// The law that an encoding comes back: what was encoded is read back as it was, where it doesn't begin with U+FEFF or
/// the encoding has a mark. It does nothing.
pub fn encoding_comes_back(content: &[u8], encoding: Encoding)
    requires encoded { (encoded content.now encoding).unencoded ≡ false }
    requires mark { HasSafeMark encoding content.now }
    ensures { back_encoded encoding (encoded content.now encoding).bytes ≡ Some content.now }
{}

/// The law that a content comes back from the worktree: a file that a checkout made of it, without a driver, is stored
/// as the same content again. The index still has it. It does nothing.
pub fn content_comes_back(
    content: &[u8],
    name: &ObjectId,
    ident: bool,
    action: Action,
    encoding: Option<Encoding>,
)
    requires encoded { (prepared (conversion ident action encoding) name.now content.now).unencoded
        ≡ false }
    requires ends { HasSafeEnds ident action name.now content.now }
    requires keywords { HasSafeKeywords ident content.now }
    requires mark { HasSafeMarkIf encoding content.now }
    ensures { stored ident action encoding (has_crlf content.now)
        (prepared (conversion ident action encoding) name.now content.now).bytes ≡ Some content.now }
{}

/// The law that line ends are safe where the action isn't one of the two text actions: a binary file stays, and so does
/// an automatic one whose index's content has a CR directly before an LF. It does nothing.
pub fn other_ends_are_safe(content: &[u8], name: &ObjectId, ident: bool, action: Action)
    requires { is_text action ≡ false }
    ensures { HasSafeEnds ident action name.now content.now }
{}
