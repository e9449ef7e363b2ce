//! The folders to which words before the command go, as git has it: `-C DIR`, each from the one before.
use crate::ends::refuse_words;
use std::alloc::AllocError;
use std::env::set_current_dir;

/// Goes to a folder, or gives the status if that can't be. An empty name is the folder where the program is.
fn go_to(rt: HostRuntime, folder: &str) -> Result<Option<u8>, AllocError> {
    if folder.is_empty() {
        return Ok(None);
    }
    match set_current_dir(&rt, folder) {
        Ok(()) => Ok(None),
        Err(error) => {
            let text = format!(in rt.alloc(); "error: cannot change to '{folder}': {error}\n")?;
            Ok(Some(refuse_words(rt, text.as_str())))
        }
    }
}

/// The words behind those that name folders, to which the program goes, or the status if it can't.
pub fn go_to_folders(
    rt: HostRuntime,
    words: &[String],
) -> Result<Result<&[String], u8>, AllocError> {
    let mut rest = words;
    for _ in 0..words.len() {
        let [option, folder, behind @ ..] = rest else {
            return Ok(Ok(rest));
        };
        if option.as_str() != "-C" {
            return Ok(Ok(rest));
        }
        if let Some(status) = go_to(rt, folder.as_str())? {
            return Ok(Err(status));
        }
        rest = behind;
    }
    Ok(Ok(rest))
}
