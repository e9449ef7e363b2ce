use std::alloc::{AllocError, Global};
use std::fmt::Debug;
use std::test::Fail;

/// What stands before the first space, and what stands behind it.
pub fn parted(text: &[u8]) -> (&[u8], &[u8]) {
    match text.iter().position(|byte| *byte == b' ') {
        Some(at) => {
            let (word, rest) = text.split_at(at);
            match rest {
                [_, value @ ..] => (word, value),
                [] => (word, rest),
            }
        }
        None => (text, &[]),
    }
}

/// The error of a text that isn't known here.
pub fn unknown(text: &[u8]) -> Fail {
    Fail::new(format_args!("no case knows `{}`", text.escape_ascii()))
}

/// The number that these digits spell.
pub fn number_of(digits: &[u8]) -> Result<u32, Fail> {
    match str::from_utf8(digits)?.parse::<u32>() {
        Ok(number) => Ok(number),
        Err(_) => Err(unknown(digits)),
    }
}

/// Appends each of the texts.
pub fn push_all(list: &mut Vec<u8>, texts: &[&[u8]]) -> Result<(), AllocError> {
    for text in texts {
        list.extend_from_slice(text)?;
    }
    Ok(())
}

/// How the value is shown.
pub fn shown<T: Debug + Drop>(alloc: Global, value: T) -> Result<Vec<u8>, AllocError> {
    let text = format!(in alloc; "{value:?}")?;
    Vec::from_slice(alloc, text.as_bytes())
}

/// What comes, with a note behind it if something beside it isn't so.
pub fn noted(mut came: Vec<u8>, is_so: bool, note: &[u8]) -> Result<Vec<u8>, AllocError> {
    if !is_so {
        came.extend_from_slice(b" but ")?;
        came.extend_from_slice(note)?;
    }
    Ok(came)
}

/// The first text, so many times the byte, and the second text.
pub fn filled(
    alloc: Global,
    front: &[u8],
    byte: u8,
    count: usize,
    end: &[u8],
) -> Result<Vec<u8>, AllocError> {
    let fill = vec![in alloc; byte; count]?;
    [front, &fill, end].concat(alloc)
}
