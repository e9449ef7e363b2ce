//! The words that `checkin` gets.
ghost use Rattle.std.specs.Prelude.{◌≡◌, true, IfOk, map, string_bytes};
ghost use Rattle.checkin_engine.specs.Words.{is_checkin};
ghost use Rattle.siuwbren_checkin.specs.EngineWords.{checkin_words};

use std::alloc::{AllocError, Global};

/// The words of a check-in of this folder, which `checkin` reads as such.
pub fn checkin_words(alloc: Global, git_dir: &str, tree: &str) -> Result<Vec<String>, AllocError>
    ensures words { IfOk result (λ words. map string_bytes words.items ≡ checkin_words git_dir.now tree.now) }
    ensures read { IfOk result (λ words. is_checkin words.items ≡ true) }
{
    let words = vec![in alloc;
        String::from_str(alloc, git_dir)?,
        String::from_str(alloc, tree)?,
        String::from_str(alloc, "checkin")?,
    ]?;
    Ok(words)
}
