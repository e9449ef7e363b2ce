//! The lines of a file.
ghost use Rattle.std.specs.Prelude.{◌≡◌, ◌+◌, ◌<◌, ◌≤◌, length, map, IfOk, option_map, [], None};
ghost use Rattle.git_config.specs.Text.{Gives};
ghost use Rattle.git_config.specs.Reading.{keyed_at, under_head, setting_at, after_header, after_setting};
ghost use Rattle.git_config.specs.Reading.{step_at, text_at, setting_of};
ghost use Rattle.git_config.specs.Seen.{place_of};
ghost use Rattle.git_config.specs.declared.setting.Setting.{Setting};

use crate::fault::{ConfigFault, LineKind};
use crate::header::header_of;
use crate::setting::{Head, Setting};
use crate::shared::Shared;
use crate::text::{
    EndsKey, begins_line_end, behind_blanks, is_blank, is_comment_mark, line_end, lowered,
};
use crate::value::value_of;
use byte_path::{Bytes, len_to};
use std::alloc::{AllocError, Global};

/// A setting that was read.
#[derive(Drop)]
struct Found<'a> {
    setting: Setting,
    /// How many lines its value was continued on.
    lines: u32,
    /// What is left of the text, from the end of its last line on.
    rest: &'a [u8],
}

fn share_of(sub: &Option<Shared>) -> Result<Option<Shared>, AllocError>
    ensures { IfOk result (λ o. o ≡ sub.now) }
{
    match sub {
        Some(sub) => Ok(Some(sub.share()?)),
        None => Ok(None),
    }
}

/// A setting of this section.
fn setting_of(
    alloc: Global,
    head: &Head,
    key: &[u8],
    value: Option<Bytes>,
) -> Result<Setting, AllocError>
    ensures { IfOk result (λ s. s ≡ setting_of head.now key.now value) }
{
    let section = head.section.share()?;
    let sub = share_of(&head.sub)?;
    let key = lowered(alloc, key)?;
    Ok(Setting {
        section,
        sub,
        key,
        value,
    })
}

/// What follows a key and its blanks: the end of the line, or `=` and the value.
#[tactic(auto, unfolding(crate::specs::Reading::keyed_at))]
fn keyed_of<'a>(
    alloc: Global,
    line: u32,
    head: &Head,
    key: &[u8],
    text: &'a [u8],
) -> Result<Found<'a>, ConfigFault>
    requires { length text.now < 4294967295 }
    ensures value { Gives (λ x. (x.setting, x.lines, x.rest.now)) result (keyed_at line head.now key.now text.now) }
    ensures within { IfOk result (λ x. x.lines + length x.rest.now ≤ length text.now) }
{
    if text.is_empty() || begins_line_end(text) {
        let setting = setting_of(alloc, head, key, None)?;
        return Ok(Found {
            setting,
            lines: 0,
            rest: text,
        });
    }
    let [b'=', behind @ ..] = text else {
        return Err(ConfigFault::Line(line, LineKind::Key));
    };
    let value = value_of(alloc, line, behind)?;
    let setting = setting_of(alloc, head, key, Some(Bytes::from_vec(value.bytes)))?;
    Ok(Found {
        setting,
        lines: value.lines,
        rest: value.rest,
    })
}

/// A key at the front with its value.
#[tactic(auto, unfolding(crate::specs::Reading::setting_at))]
fn found_of<'a>(
    alloc: Global,
    line: u32,
    head: &Option<Head>,
    text: &'a [u8],
) -> Result<Found<'a>, ConfigFault>
    requires { length text.now < 4294967295 }
    ensures value { Gives (λ x. (x.setting, x.lines, x.rest.now)) result (setting_at line head.now text.now) }
    ensures within { IfOk result (λ x. x.lines + length x.rest.now < length text.now) }
{
    let Some((first, _)) = text.split_first() else {
        return Err(ConfigFault::Line(line, LineKind::Key));
    };
    if !first.is_ascii_alphabetic() {
        return Err(ConfigFault::Line(line, LineKind::Key));
    }
    let (key, rest) = text.split_at(len_to::<EndsKey>(text));
    match head {
        Some(head) => keyed_of(alloc, line, head, key, behind_blanks(rest)),
        None => Err(ConfigFault::Line(line, LineKind::NoSection)),
    }
}

/// Where a reader of a text stands, and what it read.
#[derive(Drop)]
struct Reader {
    line: u32,
    head: Option<Head>,
    settings: Vec<Setting>,
}

impl Reader {
    /// Reads a header after its `[`.
    #[tactic(auto, unfolding(crate::specs::Reading::after_header))]
    fn take_header<'a>(&mut self, alloc: Global, text: &'a [u8]) -> Result<&'a [u8], ConfigFault>
        ensures value { Gives (λ rest. place_of self.new rest.now) result (after_header (place_of self.old text.now)) }
        ensures within { IfOk result (λ rest. length rest.now ≤ length text.now) }
        ensures line { self.new.line ≡ self.old.line }
    {
        let (head, rest) = header_of(alloc, self.line, text)?;
        self.head = Some(head);
        Ok(rest)
    }

    /// Reads a key with its value.
    #[tactic(auto, unfolding(crate::specs::Reading::after_setting))]
    fn take_setting<'a>(&mut self, alloc: Global, text: &'a [u8]) -> Result<&'a [u8], ConfigFault>
        requires { self.old.line + length text.now < 4294967295 }
        ensures value { Gives (λ rest. place_of self.new rest.now) result (after_setting (place_of self.old text.now)) }
        ensures within { IfOk result (λ rest. self.new.line + length rest.now < self.old.line + length text.now) }
        ensures shorter { IfOk result (λ rest. length rest.now < length text.now) }
    {
        let found = found_of(alloc, self.line, &self.head, text)?;
        self.settings.push(found.setting)?;
        self.line += found.lines;
        Ok(found.rest)
    }

    /// One step: the end of a line, a blank, a comment, a header, or a key with its value.
    #[tactic(auto, unfolding(crate::specs::Reading::step_at, crate::specs::Reading::step_from))]
    fn step<'a>(&mut self, alloc: Global, text: &'a [u8]) -> Result<&'a [u8], ConfigFault>
        requires some { 0 < length text.now }
        requires few { self.old.line + length text.now < 4294967295 }
        ensures value { Gives (λ rest. place_of self.new rest.now) result
            (step_at (place_of self.old text.now) text.now) }
        ensures within { IfOk result (λ rest. self.new.line + length rest.now ≤ self.old.line + length text.now) }
        ensures shorter { IfOk result (λ rest. length rest.now < length text.now) }
    {
        let Some((first, behind)) = text.split_first() else {
            return Ok(text);
        };
        let first = *first;
        if first == b'\n' {
            self.line += 1;
            return Ok(behind);
        }
        if is_blank(first) {
            return Ok(behind);
        }
        if is_comment_mark(first) {
            return Ok(line_end(behind));
        }
        if first == b'[' {
            return self.take_header(alloc, behind);
        }
        self.take_setting(alloc, text)
    }
}

/// The settings of a text with LF alone at the ends of its lines.
pub fn settings_of(alloc: Global, text: &[u8]) -> Result<Vec<Setting>, ConfigFault>
    requires { length text.now < 4294967294 }
    ensures { Gives (λ v. v.items) result (text_at text.now) }
{
    let mut reader = Reader {
        line: 1,
        head: None,
        settings: Vec::new(alloc),
    };
    let mut rest = text;
    'steps: while !rest.is_empty() {
        rest = reader.step(alloc, rest)?;
    }
    Ok(reader.settings)
}
