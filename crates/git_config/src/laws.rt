//! The laws that join the spelling of a configuration to its reading.
ghost use Rattle.git_config.specs.Spelling.{SpelledIsRead, ReadIsSpelled};

/// The law that a configuration is read to the settings that it spells. It does nothing.
pub fn spelled_is_read()
    ensures { SpelledIsRead }
{}

/// The law that what is read to settings is a configuration that spells them. It does nothing.
pub fn read_is_spelled()
    ensures { ReadIsSpelled }
{}
