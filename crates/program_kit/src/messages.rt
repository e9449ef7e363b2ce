ghost use Rattle.std.specs.Prelude.{◌≡◌, option_map};
ghost use Rattle.program_kit.specs.Words.{message_of};

use exit_status::ExitStatus;

/// What a status of the engine says on standard error.
pub fn message_of(status: u8) -> Option<&'static str>
    ensures { option_map (λ text. text.now) result ≡ message_of status }
{
    match ExitStatus::of(status) {
        Some(ExitStatus::OutputNotWritten) => Some("output not written"),
        Some(ExitStatus::OutOfMemory) => Some("out of memory"),
        Some(ExitStatus::ReadFault) => Some("read fault"),
        Some(ExitStatus::NotEmpty) => Some("worktree not empty"),
        _ => None,
    }
}
