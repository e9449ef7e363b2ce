//! What the attributes and the settings ask for.
ghost use Rattle.std.specs.Prelude.{◌≡◌};
ghost use Rattle.eol_convert.specs.Action.{said, first_said, named_ending, text_with, auto_with, with_named};
ghost use Rattle.eol_convert.specs.Action.{set_ending, settled, action_of, ends_of, line_ends_of};

use crate::setting::{AutoCrlf, EolSetting, LineEnds};
use attr_line::AttrState;

/// What is done with a file's line ends, by its attributes and the settings (gitattributes(5), "End-of-line
/// conversion").
#[derive(Clone, Copy)]
pub enum Action {
    /// It isn't a text, so its line ends stay.
    Binary,
    /// A text, with LF in the worktree.
    TextLf,
    /// A text, with CR LF in the worktree.
    TextCrlf,
    /// A text if it looks like one, with LF in the worktree.
    AutoLf,
    /// A text if it looks like one, with CR LF in the worktree.
    AutoCrlf,
}

/// What a file's attributes ask for.
#[derive(Clone, Copy)]
enum Asked {
    /// Nothing.
    Undefined,
    /// A text, whose line end isn't known yet.
    Text,
    /// A text if it looks like one, whose line end isn't known yet.
    Auto,
    /// The action is known.
    Is(Action),
}

/// A line end of the worktree.
#[derive(Clone, Copy)]
enum Ending {
    Lf,
    Crlf,
}

/// What one of the attributes `text` and `crlf` says.
fn said(state: &AttrState) -> Asked
    ensures { result ≡ said state.now }
{
    match state {
        AttrState::Set => Asked::Text,
        AttrState::Unset => Asked::Is(Action::Binary),
        AttrState::Unspecified => Asked::Undefined,
        AttrState::Value(value) => match value.as_slice() {
            b"auto" => Asked::Auto,
            b"input" => Asked::Is(Action::TextLf),
            _ => Asked::Undefined,
        },
    }
}

/// What `text` says, or if it says nothing, what `crlf` says.
fn first_said(text: Asked, crlf: Asked) -> Asked
    ensures { result ≡ first_said text crlf }
{
    match text {
        Asked::Undefined => crlf,
        Asked::Text | Asked::Auto | Asked::Is(_) => text,
    }
}

/// The line end that `eol` names.
fn named_ending(eol: &AttrState) -> Option<Ending>
    ensures { result ≡ named_ending eol.now }
{
    let AttrState::Value(value) = eol else {
        return None;
    };
    match value.as_slice() {
        b"lf" => Some(Ending::Lf),
        b"crlf" => Some(Ending::Crlf),
        _ => None,
    }
}

impl Ending {
    fn of_text(self) -> Action
        ensures { result ≡ text_with self }
    {
        match self {
            Ending::Lf => Action::TextLf,
            Ending::Crlf => Action::TextCrlf,
        }
    }

    fn of_auto(self) -> Action
        ensures { result ≡ auto_with self }
    {
        match self {
            Ending::Lf => Action::AutoLf,
            Ending::Crlf => Action::AutoCrlf,
        }
    }
}

impl Asked {
    /// With a line end that `eol` names, an automatic file stays automatic, and any other one that isn't binary is a
    /// text.
    fn with_named(self, named: Option<Ending>) -> Asked
        ensures { result ≡ with_named named self }
    {
        let Some(ending) = named else {
            return self;
        };
        match self {
            Asked::Is(Action::Binary) => self,
            Asked::Auto => Asked::Is(ending.of_auto()),
            Asked::Undefined | Asked::Text | Asked::Is(_) => Asked::Is(ending.of_text()),
        }
    }

    /// If no attribute says anything, `core.autocrlf` decides. A text without a line end has that of the settings.
    fn settled(self, auto: AutoCrlf, setting: EolSetting) -> Action
        ensures { result ≡ settled auto setting self }
    {
        match (self, auto) {
            (Asked::Undefined, AutoCrlf::False) => Action::Binary,
            (Asked::Undefined, AutoCrlf::True) => Action::AutoCrlf,
            (Asked::Undefined, AutoCrlf::Input) => Action::AutoLf,
            (Asked::Text, _) => set_ending(auto, setting).of_text(),
            (Asked::Auto, _) => set_ending(auto, setting).of_auto(),
            (Asked::Is(action), _) => action,
        }
    }
}

/// The line end of the settings: `core.autocrlf` goes before `core.eol`.
fn set_ending(auto: AutoCrlf, setting: EolSetting) -> Ending
    ensures { result ≡ set_ending auto setting }
{
    match (auto, setting) {
        (AutoCrlf::True, _) | (AutoCrlf::False, EolSetting::Crlf) => Ending::Crlf,
        (AutoCrlf::Input, _) | (AutoCrlf::False, EolSetting::Lf | EolSetting::Native) => Ending::Lf,
    }
}

/// What is done with a file's line ends, from the states of its attributes `text`, `crlf` and `eol` and the settings
/// `core.autocrlf` and `core.eol` (gitattributes(5), "End-of-line conversion"). It takes no memory.
pub fn action_of(
    text: &AttrState,
    crlf: &AttrState,
    eol: &AttrState,
    auto: AutoCrlf,
    setting: EolSetting,
) -> Action
    ensures { result ≡ action_of text.now crlf.now eol.now auto setting }
{
    first_said(said(text), said(crlf))
        .with_named(named_ending(eol))
        .settled(auto, setting)
}

impl Action {
    /// The line ends of a checkout: those that should be LF stay as they are.
    pub fn ends(self) -> LineEnds
        ensures { result ≡ ends_of self }
    {
        match self {
            Action::TextCrlf => LineEnds::ToCrlf,
            Action::AutoCrlf => LineEnds::AutoCrlf,
            Action::Binary | Action::TextLf | Action::AutoLf => LineEnds::Keep,
        }
    }
}

/// What becomes of a file's line ends in a checkout, from the same states and settings as `action_of`. It takes no
/// memory.
pub fn line_ends_of(
    text: &AttrState,
    crlf: &AttrState,
    eol: &AttrState,
    auto: AutoCrlf,
    setting: EolSetting,
) -> LineEnds
    ensures { result ≡ line_ends_of text.now crlf.now eol.now auto setting }
{
    action_of(text, crlf, eol, auto, setting).ends()
}
