//! The words of a check-in.
ghost use Rattle.std.specs.Prelude.{◌≡◌};
ghost use Rattle.checkin_engine.specs.Words.{is_checkin};

/// Whether the words after the program's name are those of a check-in: three, of which the third is `checkin`. It takes
/// no memory.
pub fn is_checkin(words: &[String]) -> bool
    ensures { result ≡ is_checkin words.now }
{
    match words {
        [_, _, name] => name.as_str() == "checkin",
        _ => false,
    }
}
