//! The keys, one after the other.
ghost use Rattle.std.specs.Prelude.{◌≡◌, ℕ, List, IfOk};
ghost use Rattle.std.specs.List.{list_any};
ghost use Rattle.std.specs.Str.{bytes_eq};
ghost use Rattle.settings_view.specs.Drivers.{names_of, speaks_of, drivers_told, StandsByName};
ghost use Rattle.settings_view.specs.declared.drivers.SingleRun.TheVariants.{Clean};
ghost use Rattle.settings_view.specs.Fault.{Gives};
ghost use Rattle.settings_view.specs.View.{settings_of};

use crate::drivers::{SingleRun, drivers_told};
use crate::fault::{KeyId, SettingFault};
use crate::keys::{crlf_told, eol_told, has_sha1, threshold_told, workers_told};
use crate::view::{Driver, Settings};
use byte_path::Items;
use git_config::Config;
use std::alloc::Global;

/// What a configuration says of a checkout (git-config(1)).
///
/// Only the last value of each key counts. The keys are checked in the order of `KeyId`, and the fault is that of the
/// first one whose value is bad. The time is that of sorting the settings of the drivers.
#[tactic(auto, unfolding(crate::specs::View::settings_of))]
pub fn settings(alloc: Global, config: &Config) -> Result<Settings, SettingFault>
    ensures said { Gives (λ s. s) result (settings_of config.now) }
    ensures rising { IfOk result (λ s. StandsByName s.drivers) }
{
    let settings = config.settings();
    let autocrlf = crlf_told(settings)?;
    let eol = eol_told(settings)?;
    let workers = workers_told(settings)?;
    let threshold = threshold_told(settings)?;
    if !has_sha1(settings) {
        return Err(SettingFault::BadChoice(KeyId::ObjectFormat));
    }
    let drivers = drivers_told(alloc, SingleRun::Smudge, settings)?;
    Ok(Settings {
        autocrlf,
        eol,
        workers,
        threshold,
        drivers,
    })
}

/// The drivers as they clean contents on the way back: by `process`, or else a NUL and `clean` in place of `smudge`.
pub fn cleaning_drivers(alloc: Global, config: &Config) -> Result<Items<Driver>, SettingFault>
    ensures said { Gives (λ x. x) result (drivers_told Clean config.now) }
    ensures rising { IfOk result StandsByName }
{
    drivers_told(alloc, SingleRun::Clean, config.settings())
}

/// The law that the names of the drivers are those that settings of `filter` have as their subsection. It does nothing.
pub fn drivers_are_those_spoken_of(config: &Config)
    ensures { (name : List ℕ) → list_any (λ n. bytes_eq n name) (names_of config.now)
        ≡ list_any (speaks_of name) config.now }
{}
