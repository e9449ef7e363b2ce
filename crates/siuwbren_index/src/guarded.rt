//! Names that other file systems read as git's own: `.git`, and for links `.gitmodules` (git-config(1),
//! core.protectNTFS and core.protectHFS).
use git_edge::Guards;

/// The first letters of the short name that NTFS gives to `.gitmodules` where the usual ones are taken.
const SHORT_MODULES: &[u8; 6] = b"gi7eba";

/// Whether NTFS leaves away all that stands before one of these bytes, or the end: dots and spaces.
fn is_left_away(rest: &[u8], ends: &[u8]) -> bool {
    let named = rest
        .split(|byte| ends.contains(byte))
        .next()
        .unwrap_or(rest);
    named.iter().all(|byte| matches!(*byte, b'.' | b' '))
}

/// What stands behind this name at the front, in letters of any case.
fn behind<'a>(text: &'a [u8], name: &[u8]) -> Option<&'a [u8]> {
    let (front, rest) = text.split_at_checked(name.len())?;
    if front.eq_ignore_ascii_case(name) {
        Some(rest)
    } else {
        None
    }
}

/// Whether the bytes are `~` and a number that doesn't begin with 0.
fn is_number(bytes: &[u8]) -> bool {
    match bytes {
        [b'~', b'1'..=b'9', more @ ..] => more.iter().all(|byte| byte.is_ascii_digit()),
        _ => false,
    }
}

/// What stands behind a short name of eight bytes: some first letters of these, `~` and a number.
fn behind_short<'a>(text: &'a [u8], letters: &[u8; 6]) -> Option<&'a [u8]> {
    let (short, rest) = text.split_at_checked(8)?;
    let tilde = short.iter().position(|byte| *byte == b'~')?;
    let (front, number) = short.split_at_checked(tilde)?;
    let (first, _) = letters.as_slice().split_at_checked(tilde)?;
    if front.eq_ignore_ascii_case(first) && is_number(number) {
        Some(rest)
    } else {
        None
    }
}

/// What stands behind a short name of `.gitmodules` with one of the first four numbers.
fn behind_modules(text: &[u8]) -> Option<&[u8]> {
    match behind(text, b"gitmod~")? {
        [b'1'..=b'4', rest @ ..] => Some(rest),
        _ => None,
    }
}

/// Whether NTFS reads the part at the front as `.git`. What stands behind a colon is another stream of the same file.
fn is_ntfs_git(text: &[u8]) -> bool {
    behind(text, b".git").is_some_and(|rest| is_left_away(rest, b":/\\"))
        || behind(text, b"git~1").is_some_and(|rest| is_left_away(rest, b":/\\"))
}

/// Whether NTFS reads the name of a file as `.gitmodules`.
fn is_ntfs_modules(text: &[u8]) -> bool {
    behind(text, b".gitmodules").is_some_and(|rest| is_left_away(rest, b":"))
        || behind_modules(text).is_some_and(|rest| is_left_away(rest, b":"))
        || behind_short(text, SHORT_MODULES).is_some_and(|rest| is_left_away(rest, b":"))
}

/// Whether HFS+ sees a character: some that have no width don't count.
fn is_seen(character: &char) -> bool {
    !matches!(
        *character,
        '\u{200C}'..='\u{200F}' | '\u{202A}'..='\u{202E}' | '\u{206A}'..='\u{206F}' | '\u{FEFF}'
    )
}

/// The text at the front, up to a byte that is none.
fn text_of(part: &[u8]) -> &str {
    match str::from_utf8(part) {
        Ok(text) => text,
        Err(error) => match part.split_at_checked(error.valid_up_to()) {
            Some((front, _)) => str::from_utf8(front).unwrap_or(""),
            None => "",
        },
    }
}

/// Whether HFS+ reads a part of a path as this name of small letters.
fn is_hfs_name(part: &[u8], name: &[u8]) -> bool {
    let mut seen = text_of(part).chars().filter(is_seen);
    for wanted in name {
        match seen.next() {
            Some(character) if character.eq_ignore_ascii_case(&char::from(*wanted)) => {}
            _ => return false,
        }
    }
    seen.next().is_none()
}

/// Whether NTFS reads what begins here as a name of git's own.
fn is_ntfs_guarded(text: &[u8], is_link: bool) -> bool {
    is_ntfs_git(text) || is_link && is_ntfs_modules(text)
}

/// Whether HFS+ reads a part of a path as a name of git's own.
fn is_hfs_guarded(part: &[u8], is_link: bool) -> bool {
    is_hfs_name(part, b".git") || is_link && is_hfs_name(part, b".gitmodules")
}

/// What stands behind the first part of a path on NTFS, where `\` parts too.
fn next_parts(path: &[u8]) -> Option<&[u8]> {
    let place = path.iter().position(|byte| matches!(*byte, b'/' | b'\\'))?;
    let (_, rest) = path.split_at_checked(place)?;
    let (_, behind) = rest.split_at_checked(1)?;
    Some(behind)
}

/// Whether NTFS reads some part of the path as a name of git's own.
fn has_ntfs_guarded(path: &[u8], is_link: bool) -> bool {
    let mut rest = path;
    for _ in 0..path.len() {
        if is_ntfs_guarded(rest, is_link) {
            return true;
        }
        match next_parts(rest) {
            Some(behind) => rest = behind,
            None => return false,
        }
    }
    false
}

/// Whether a part of the path is `.gitmodules`, in letters of any case.
fn has_modules(path: &[u8]) -> bool {
    path.split(|byte| *byte == b'/')
        .any(|part| part.eq_ignore_ascii_case(b".gitmodules"))
}

/// Whether a part of the path is a name of git's own: for a link `.gitmodules`, and what one of the guarded file
/// systems reads so.
pub fn is_guarded(path: &[u8], is_link: bool, guards: Guards) -> bool {
    is_link && has_modules(path)
        || guards.ntfs && has_ntfs_guarded(path, is_link)
        || guards.hfs
            && path
                .split(|byte| *byte == b'/')
                .any(|part| is_hfs_guarded(part, is_link))
}
