//! The filter drivers.
ghost use Rattle.std.specs.Prelude.{◌≡◌, ◌∷◌, ℕ, List, Some, IfOk, OnOk, map, option_copied};
ghost use Rattle.byte_path.specs.Characters.{nul};
ghost use Rattle.settings_view.specs.Fault.{Gives};
ghost use Rattle.settings_view.specs.Drivers.{driver_name, with_driver, names_of, is_command, command_told};
ghost use Rattle.settings_view.specs.Drivers.{process_by, single_of, driver_from, drivers_told, StandsByName};
ghost use Rattle.settings_view.specs.Seen.{said_by, said_at, said_with, said_after, names_in, entries_seen};
ghost use Rattle.settings_view.specs.Seen.{entry_of, IsInOrder};

use crate::fault::{KeyId, SettingFault};
use crate::value::bool_of;
use crate::view::Driver;
use byte_path::{Bytes, Items};
use git_config::Setting;
use std::alloc::{AllocError, Global};
use std::collections::BTreeMap;

/// What the command of a single run does, for a driver without a `process`.
#[derive(Clone, Copy)]
pub enum SingleRun {
    Smudge,
    Clean,
}

/// What the settings so far say of a driver.
#[derive(Clone, Copy)]
struct Draft<'a> {
    process: Option<&'a [u8]>,
    smudge: Option<&'a [u8]>,
    clean: Option<&'a [u8]>,
    /// `None` if the value is no truth value.
    required: Option<bool>,
}

/// The driver of a setting: the subsection of `filter`.
fn driver_name(setting: &Setting) -> Option<&[u8]>
    ensures { option_copied result ≡ driver_name setting.now }
{
    if setting.section.as_slice() != b"filter".as_slice() {
        return None;
    }
    match &setting.sub {
        Some(name) => Some(name.as_slice()),
        None => None,
    }
}

/// Whether a text is a command: it isn't empty, and holds no NUL.
fn is_command(text: &[u8]) -> bool
    ensures { result ≡ is_command text.now }
{
    !text.is_empty() && !text.contains(&0)
}

/// The command that a value is, if it is one.
fn command_told(value: &Option<Bytes>) -> Option<&[u8]>
    ensures { option_copied result ≡ command_told (Some value.now) }
{
    match value {
        Some(text) if is_command(text.as_slice()) => Some(text.as_slice()),
        _ => None,
    }
}

impl<'a> Draft<'a> {
    /// The command of a single run.
    fn single(self, single: SingleRun) -> Option<&'a [u8]>
        ensures { option_copied result ≡ single_of single (said_by self.entry) }
    {
        match single {
            SingleRun::Smudge => self.smudge,
            SingleRun::Clean => self.clean,
        }
    }

    /// What the settings say with one more setting of the driver.
    fn with(self, setting: &'a Setting) -> Draft<'a>
        ensures { said_by result ≡ said_with setting.now (said_by self.entry) }
    {
        let key = setting.key.as_slice();
        Draft {
            process: if key == b"process".as_slice() {
                command_told(&setting.value)
            } else {
                self.process
            },
            smudge: if key == b"smudge".as_slice() {
                command_told(&setting.value)
            } else {
                self.smudge
            },
            clean: if key == b"clean".as_slice() {
                command_told(&setting.value)
            } else {
                self.clean
            },
            required: if key == b"required".as_slice() {
                bool_of(&setting.value)
            } else {
                self.required
            },
        }
    }
}

/// Adds one more setting.
fn take_setting<'a>(
    drafts: &mut BTreeMap<&'a [u8], Draft<'a>>,
    setting: &'a Setting,
) -> Result<(), AllocError>
    ensures names { OnOk result (names_in drafts.new ≡ with_driver (names_in drafts.old) (driver_name setting.now)) }
    ensures said { OnOk result ((name : List ℕ) → said_at drafts.new name
        ≡ said_after setting.now name (said_at drafts.old name)) }
    ensures ordered { OnOk result (IsInOrder drafts.old → IsInOrder drafts.new) }
{
    let Some(name) = driver_name(setting) else {
        return Ok(());
    };
    let draft = drafts.get(&name).copied().unwrap_or(Draft {
        process: None,
        smudge: None,
        clean: None,
        required: Some(false),
    });
    drafts.insert(name, draft.with(setting))?;
    Ok(())
}

/// What the settings say of each driver, by name.
fn drafts(alloc: Global, settings: &[Setting]) -> Result<BTreeMap<&[u8], Draft<'_>>, AllocError>
    ensures { IfOk result (λ m. entries_seen m ≡ map (entry_of settings.now) (names_of settings.now)) }
{
    let mut drafts = BTreeMap::new(alloc);
    for setting in settings {
        take_setting(&mut drafts, setting)?;
    }
    Ok(drafts)
}

/// The text of a command that runs once for each content: a NUL, and the command.
fn single_run(alloc: Global, command: &[u8]) -> Result<Bytes, AllocError>
    ensures { IfOk result (λ text. text ≡ nul ∷ command.now) }
{
    let mut text = vec![in alloc; 0u8]?;
    text.extend_from_slice(command)?;
    Ok(Bytes::from_vec(text))
}

/// What runs a driver: its `process`, or else the command of a single run, once for each content.
fn process_by(
    alloc: Global,
    process: Option<&[u8]>,
    single: Option<&[u8]>,
) -> Result<Option<Bytes>, AllocError>
    ensures { IfOk result (λ text. text ≡ process_by (option_copied process.entry) (option_copied single.entry)) }
{
    match (process, single) {
        (Some(process), _) => Ok(Some(Bytes::copy_of(alloc, process)?)),
        (None, Some(single)) => Ok(Some(single_run(alloc, single)?)),
        (None, None) => Ok(None),
    }
}

fn driver_from(
    alloc: Global,
    single: SingleRun,
    name: &[u8],
    draft: Draft,
) -> Result<Driver, SettingFault>
    ensures { Gives (λ d. d) result (driver_from single name.now (said_by draft.entry)) }
{
    let Some(required) = draft.required else {
        return Err(SettingFault::BadBool(KeyId::Required));
    };
    let name = Bytes::copy_of(alloc, name)?;
    let process = process_by(alloc, draft.process, draft.single(single))?;
    Ok(Driver {
        name,
        process,
        required,
    })
}

/// The filter drivers by name, each with what runs it.
pub fn drivers_told(
    alloc: Global,
    single: SingleRun,
    settings: &[Setting],
) -> Result<Items<Driver>, SettingFault>
    ensures value { Gives (λ x. x) result (drivers_told single settings.now) }
    ensures rising { IfOk result StandsByName }
{
    let drafts = drafts(alloc, settings)?;
    let mut drivers = Vec::new(alloc);
    for (name, draft) in drafts {
        drivers.push(driver_from(alloc, single, name, draft)?)?;
    }
    Ok(Items::from_vec(drivers))
}
