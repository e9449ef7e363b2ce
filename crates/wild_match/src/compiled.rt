//! A pattern that was looked at once, so that one comparison decides most paths.
ghost use Rattle.std.specs.Prelude.{◌≡◌, ◌≤◌, IfOk, nat_eq, length, take, drop};
ghost use Rattle.std.specs.List.{prefix_len, starts_with, ends_with};
ghost use Rattle.wild_match.specs.Fits.{is_match, last_part};
ghost use Rattle.wild_match.specs.Compiled.{is_plain, is_ending, is_of_nothing, has_known, answer};
ghost use Rattle.wild_match.specs.Compiled.{passed_by, IsKnown, IsForm, IsOfName, IsOfPath};

use crate::front::single_len;
use crate::matching::{fits, last_part, without_slash};
use byte_path::Bytes;
use std::alloc::{AllocError, Global};
use std::marker::Model;

/// How a pattern decides a path. A plain byte stands for itself: it is no `*`, `?`, `[` or `\`.
#[derive(Clone, Copy)]
pub enum PatternForm {
    /// It matches no path.
    Nothing,
    /// All bytes are plain, and none is a `/`: the last part is the pattern.
    Name,
    /// A `*` and then such bytes: the last part ends with these.
    Ending,
    /// The last part has the plain bytes of the pattern that are known, and fits.
    InName(Known),
    /// All bytes are plain: the path is the pattern without one `/` in front.
    Path,
    /// The path has the plain bytes of the pattern without one `/` in front that are known, and fits.
    InPath(Known),
}

/// Plain bytes of a pattern whose places in a text are known.
#[derive(Clone, Copy)]
pub struct Known {
    /// This many stand in front.
    pub front: usize,
    /// Then one byte passes a piece, which ends here.
    pub next: usize,
    /// This many stand after it.
    pub more: usize,
}

fn is_plain(byte: u8) -> bool
    ensures { result ≡ is_plain byte }
{
    !matches!(byte, b'*' | b'?' | b'[' | b'\\')
}

/// How many plain bytes stand in front.
fn plain_len(text: &[u8]) -> usize
    ensures value { result ≡ prefix_len is_plain text.now }
    ensures within { result ≤ length text.now }
{
    let mut len = 0;
    while len < text.len() && is_plain(text[len]) {
        len += 1;
    }
    len
}

/// Whether all after a `*` in front is plain.
fn is_ending(pattern: &[u8]) -> bool
    ensures { result ≡ is_ending pattern.now }
{
    match pattern {
        [b'*', ..] => {
            let (_, ending) = pattern.split_at(1);
            plain_len(ending) == ending.len()
        }
        _ => false,
    }
}

/// What is known of a pattern with so many plain bytes in front.
fn known_of(pattern: &[u8], front: usize) -> Known
    requires front { front ≡ prefix_len is_plain pattern.now }
    requires within { front ≤ length pattern.now }
    ensures { IsKnown pattern.now result }
{
    let (_, rest) = pattern.split_at(front);
    match single_len(rest) {
        Some(len) => {
            let (_, behind) = rest.split_at(len);
            Known {
                front,
                next: front + len,
                more: plain_len(behind),
            }
        }
        None => Known {
            front,
            next: pattern.len(),
            more: 0,
        },
    }
}

/// The form of a pattern that is compared with the last part of a path.
fn name_form(pattern: &[u8]) -> PatternForm
    requires { IsOfName pattern.now }
    ensures { IsForm result pattern.now }
{
    let plain = plain_len(pattern);
    if plain == pattern.len() {
        PatternForm::Name
    } else if is_ending(pattern) {
        PatternForm::Ending
    } else {
        PatternForm::InName(known_of(pattern, plain))
    }
}

/// The form of a pattern that is compared with the whole path.
fn path_form(pattern: &[u8]) -> PatternForm
    requires { IsOfPath pattern.now }
    ensures { IsForm result pattern.now }
{
    let whole = without_slash(pattern);
    let plain = plain_len(whole);
    if plain == whole.len() {
        PatternForm::Path
    } else {
        PatternForm::InPath(known_of(whole, plain))
    }
}

/// Whether a pattern is empty, or ends in `/`.
fn is_of_nothing(pattern: &[u8]) -> bool
    ensures { result ≡ is_of_nothing pattern.now }
{
    pattern.is_empty() || pattern[pattern.len() - 1] == b'/'
}

fn form_of(pattern: &[u8]) -> PatternForm
    ensures { IsForm result pattern.now }
{
    if is_of_nothing(pattern) {
        PatternForm::Nothing
    } else if pattern.contains(&b'/') {
        path_form(pattern)
    } else {
        name_form(pattern)
    }
}

/// The first bytes of a text, or all where there are fewer.
fn front_of(text: &[u8], len: usize) -> &[u8]
    ensures { result.now ≡ take len text.now }
{
    if text.len() <= len {
        return text;
    }
    let (front, _) = text.split_at(len);
    front
}

/// What stands after this many bytes of a text.
fn behind_of(text: &[u8], len: usize) -> &[u8]
    ensures { result.now ≡ drop len text.now }
{
    if text.len() <= len {
        return &[];
    }
    let (_, behind) = text.split_at(len);
    behind
}

/// Whether a text begins so. It is `starts_with` without a call where one of the first bytes differs.
fn begins(text: &[u8], front: &[u8]) -> bool
    ensures { result ≡ starts_with nat_eq text.now front.now }
{
    front == front_of(text, front.len())
}

/// Whether a text ends so, likewise.
fn ends(text: &[u8], end: &[u8]) -> bool
    ensures { result ≡ ends_with nat_eq text.now end.now }
{
    end == behind_of(text, text.len().saturating_sub(end.len()))
}

/// Whether a text has the plain bytes of a pattern that are known.
fn has_known(known: Known, pattern: &[u8], text: &[u8]) -> bool
    ensures { result ≡ has_known known pattern.now text.now }
{
    begins(text, front_of(pattern, known.front))
        && (known.more == 0
            || begins(
                behind_of(text, known.front.saturating_add(1)),
                front_of(behind_of(pattern, known.next), known.more),
            ))
}

/// Whether a pattern of that form matches a path with that last part.
fn answer(form: PatternForm, pattern: &[u8], path: &[u8], name: &[u8]) -> bool
    requires { passed_by form ≤ length pattern.now }
    ensures { result ≡ answer form pattern.now path.now name.now }
{
    match form {
        PatternForm::Nothing => false,
        PatternForm::Name => pattern == name,
        PatternForm::Ending => {
            let (_, ending) = pattern.split_at(1);
            ends(name, ending)
        }
        PatternForm::InName(known) => has_known(known, pattern, name) && fits(pattern, false, name),
        PatternForm::Path => without_slash(pattern) == path,
        PatternForm::InPath(known) => {
            let whole = without_slash(pattern);
            has_known(known, whole, path) && fits(whole, true, path)
        }
    }
}

/// A pattern of an attribute file, which contracts see as its bytes.
#[derive(Drop)]
pub struct Compiled {
    pattern: Bytes,
    form: PatternForm,
}

impl Model for Compiled {
    ghost use Rattle.std.specs.Prelude.{List, ℕ};
    ghost use Rattle.wild_match.specs.Compiled.{IsForm};

    ghost Value = { List ℕ };

    ghost view = { λ c. c.pattern };

    ghost invariant = { λ c. IsForm c.form c.pattern };
}

impl Compiled {
    /// Looks at a pattern once, for many paths.
    pub fn of(alloc: Global, pattern: &[u8]) -> Result<Compiled, AllocError>
        ensures { IfOk result (λ compiled. compiled ≡ pattern.now) }
    {
        let form = form_of(pattern);
        let pattern = Bytes::copy_of(alloc, pattern)?;
        Ok(Compiled { pattern, form })
    }

    /// The answer of `matches` for this pattern. It takes no memory.
    pub fn matches(&self, path: &[u8]) -> bool
        ensures { result ≡ is_match self.now path.now }
    {
        self.matches_named(path, last_part(path))
    }

    /// The answer of `matches` where the last part of the path is known: `name`.
    pub fn matches_named(&self, path: &[u8], name: &[u8]) -> bool
        requires { name.now ≡ last_part path.now }
        ensures { result ≡ is_match self.now path.now }
    {
        answer(self.form, self.pattern.as_slice(), path, name)
    }
}
