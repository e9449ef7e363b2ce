//! How the program ends for words that name no command.
use exit_status::ExitStatus;
use siuwbren_index::end_with;

/// Gives the help or the version that the words ask for.
pub fn give(rt: HostRuntime, text: &str) -> u8 {
    match print!(rt; "{text}") {
        Ok(()) => ExitStatus::Done.number(),
        Err(_) => end_with(rt, ExitStatus::OutputNotWritten.number()),
    }
}

/// Says what is wrong with the words.
pub fn refuse_words(rt: HostRuntime, text: &str) -> u8 {
    let _ = eprint!(rt; "{text}");
    ExitStatus::Usage.number()
}
