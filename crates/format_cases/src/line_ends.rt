//! What git does with line ends.
use crate::states::state_of;
use case_kit::{Words, found, noted, shown};
use eol_convert::{AutoCrlf, EolSetting, LineEnds, changes_ends, line_ends_of, to_tree_ends};
use std::alloc::Global;
use std::test::Fail;

const AUTOS: Words<AutoCrlf> = &[
    (b"True", AutoCrlf::True),
    (b"Input", AutoCrlf::Input),
    (b"False", AutoCrlf::False),
];

const SETTINGS: Words<EolSetting> = &[
    (b"Crlf", EolSetting::Crlf),
    (b"Lf", EolSetting::Lf),
    (b"Native", EolSetting::Native),
];

const ENDS: Words<LineEnds> = &[
    (b"ToCrlf", LineEnds::ToCrlf),
    (b"AutoCrlf", LineEnds::AutoCrlf),
    (b"Keep", LineEnds::Keep),
];

/// The line ends by three attributes and two settings.
fn ends_by(
    alloc: Global,
    [text, crlf, eol]: [&[u8]; 3],
    auto: AutoCrlf,
    setting: EolSetting,
) -> Result<LineEnds, Fail> {
    let text = state_of(alloc, text)?;
    let crlf = state_of(alloc, crlf)?;
    let eol = state_of(alloc, eol)?;
    Ok(line_ends_of(&text, &crlf, &eol, auto, setting))
}

/// What the attributes `text`, `crlf` and `eol` and the settings `core.autocrlf` and `core.eol` make of the line ends.
pub fn decided(
    alloc: Global,
    states: [&[u8]; 3],
    auto: &[u8],
    setting: &[u8],
) -> Result<Vec<u8>, Fail> {
    let auto = found(AUTOS, auto)?;
    let setting = found(SETTINGS, setting)?;
    let ends = ends_by(alloc, states, auto, setting)?;
    Ok(shown(alloc, ends)?)
}

/// What becomes of the content, with a note if it isn't said to change as it does.
pub fn converted(alloc: Global, content: &[u8], ends: &[u8]) -> Result<Vec<u8>, Fail> {
    let ends = found(ENDS, ends)?;
    let text = to_tree_ends(alloc, content, ends)?;
    let is_told = changes_ends(content, ends) == (content != text.as_slice());
    Ok(noted(text, is_told, b"this change isn't told")?)
}
