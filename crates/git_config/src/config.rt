ghost use Rattle.std.specs.Prelude.{◌≡◌};
ghost use Rattle.git_config.specs.Text.{Gives};
ghost use Rattle.git_config.specs.Reading.{config_at};

use crate::fault::ConfigFault;
use crate::line::settings_of;
use crate::setting::Setting;
use crate::text::without_cr;
use byte_path::unmarked;
use std::alloc::Global;
use std::marker::Model;

/// The longest configuration, in bytes.
const MAX_LEN: usize = 1_048_576;

/// A configuration, which contracts see as the list of its settings.
#[derive(Drop)]
pub struct Config {
    settings: Vec<Setting>,
}

impl Model for Config {
    ghost use Rattle.std.specs.Prelude.{List};
    ghost use Rattle.git_config.specs.declared.setting.Setting.{Setting};

    ghost Value = { List Setting };

    ghost view = { λ x. x.settings.items };
}

impl Config {
    /// The settings in the order of the file.
    pub fn settings(&self) -> &[Setting]
        ensures { result.now ≡ self.now }
    {
        &self.settings
    }
}

/// The settings of a configuration file (git-config(1), "Syntax").
///
/// `TooLarge` for more than 1,048,576 bytes, and else the first faulty line. The time is linear in the bytes and in
/// the settings' texts.
#[tactic(auto, unfolding(crate::specs::Reading::config_at))]
pub fn read_config(alloc: Global, bytes: &[u8]) -> Result<Config, ConfigFault>
    ensures { Gives (λ c. c) result (config_at bytes.now) }
{
    if bytes.len() > MAX_LEN {
        return Err(ConfigFault::TooLarge);
    }
    let text = without_cr(alloc, unmarked(bytes))?;
    let settings = settings_of(alloc, text.as_slice())?;
    Ok(Config { settings })
}
