//! Reads the index, the configuration and the attribute files outside the index.
ghost use Rattle.std.specs.Prelude.{◌≡◌, IfOk};
ghost use Rattle.std.specs.Result.{result_map_both};
ghost use Rattle.checkout_sources.specs.Sources.{HasIndex, HasSettings, IsConfigured, HasAttributes, HasSources};
ghost use Rattle.checkout_sources.specs.Causes.{IsSourceCause, IsIndexRead, IsConfigRead, IsInfoRead, IsSourceUnread};
ghost use Rattle.checkout_sources.specs.Reading.{ReadsSettings, StopsFor, index_taken, taken_bytes};
ghost use Rattle.checkout_sources.specs.Reading.{index_stop, config_stop, setting_stop};

use crate::stop::{Refusal, Stop};
use attr_line::{AttrFile, read_attributes};
use attr_stack::OuterFiles;
use edge_kit::{Repo, TakeFault};
use git_config::{Config, ConfigFault, read_config};
use git_index::{Index, IndexFault, read_index};
use settings_view::{SettingFault, Settings, settings};
use std::alloc::Global;

/// The most bytes of an index.
const MAX_INDEX: u64 = 67_108_864;

/// The most bytes of a configuration.
const MAX_CONFIG: u64 = 1_048_576;

/// The most bytes of `info/attributes`, and of the system's and the user's files together.
const MAX_ATTRIBUTES: u64 = 1_048_576;

/// What the files of a repository hold from which a plan is made, beside its objects.
#[derive(Drop)]
pub struct Sources {
    pub index: Index,
    pub config: Config,
    pub settings: Settings,
    pub outer: OuterFiles,
}

/// The bytes of an index, which must be there.
fn index_taken(taken: Result<Option<Vec<u8>>, TakeFault>) -> Result<Vec<u8>, Stop>
    ensures { result_map_both (λ v. v.items) (λ e. e) result ≡ index_taken taken }
{
    match taken {
        Ok(Some(bytes)) => Ok(bytes),
        Ok(None) => Err(Stop::Refused(Refusal::IndexAbsent)),
        Err(TakeFault::TooLong) => Err(Stop::Refused(Refusal::Index(IndexFault::TooLarge))),
        Err(TakeFault::Failed) => Err(Stop::ReadFault),
        Err(TakeFault::NoMemory) => Err(Stop::NoMemory),
    }
}

fn index_stop(fault: IndexFault) -> Stop
    ensures { result ≡ index_stop fault }
{
    match fault {
        IndexFault::NoMemory => Stop::NoMemory,
        fault => Stop::Refused(Refusal::Index(fault)),
    }
}

/// The index, which must be there.
fn read_entries<R: Repo>(alloc: Global, repo: &mut R) -> Result<Index, Stop>
    ensures told { R.told repo.new ≡ R.told repo.old }
    ensures kept { let seen = R.seen repo.new in
        seen ≡ record (R.seen repo.old) { faults = seen.faults } }
    ensures index { IfOk result (HasIndex (R.told repo.old).index) }
    ensures stops { let told = R.told repo.old in
        StopsFor (IsSourceCause told) (IsSourceUnread told) (R.seen repo.old) (R.seen repo.new) result }
{
    let bytes = index_taken(repo.index_bytes(MAX_INDEX))?;
    match read_index(alloc, &bytes) {
        Ok(index) => Ok(index),
        Err(fault) => Err(index_stop(fault)),
    }
}

/// The bytes of a file that may be absent: an absent one is empty.
fn taken_bytes(
    alloc: Global,
    too_long: Refusal,
    taken: Result<Option<Vec<u8>>, TakeFault>,
) -> Result<Vec<u8>, Stop>
    ensures { result_map_both (λ v. v.items) (λ e. e) result ≡ taken_bytes too_long taken }
{
    match taken {
        Ok(Some(bytes)) => Ok(bytes),
        Ok(None) => Ok(Vec::new(alloc)),
        Err(TakeFault::TooLong) => Err(Stop::Refused(too_long)),
        Err(TakeFault::Failed) => Err(Stop::ReadFault),
        Err(TakeFault::NoMemory) => Err(Stop::NoMemory),
    }
}

fn config_stop(fault: ConfigFault) -> Stop
    ensures { result ≡ config_stop fault }
{
    match fault {
        ConfigFault::NoMemory => Stop::NoMemory,
        fault => Stop::Refused(Refusal::Config(fault)),
    }
}

fn setting_stop(fault: SettingFault) -> Stop
    ensures { result ≡ setting_stop fault }
{
    match fault {
        SettingFault::NoMemory => Stop::NoMemory,
        fault => Stop::Refused(Refusal::Setting(fault)),
    }
}

/// A configuration, and what it says of a checkout.
#[derive(Drop)]
pub struct Configured {
    pub config: Config,
    pub settings: Settings,
}

/// What the bytes of a configuration say.
fn settings_in(alloc: Global, bytes: &[u8]) -> Result<Configured, Stop>
    ensures { ReadsSettings bytes.now result }
{
    let config = match read_config(alloc, bytes) {
        Ok(config) => config,
        Err(fault) => return Err(config_stop(fault)),
    };
    match settings(alloc, &config) {
        Ok(settings) => Ok(Configured { config, settings }),
        Err(fault) => Err(setting_stop(fault)),
    }
}

/// The settings of the configuration, once the index was read. An absent configuration is empty.
fn read_settings<R: Repo>(alloc: Global, repo: &mut R) -> Result<Configured, Stop>
    requires { IsIndexRead (R.told repo.old) }
    ensures told { R.told repo.new ≡ R.told repo.old }
    ensures kept { let seen = R.seen repo.new in
        seen ≡ record (R.seen repo.old) { faults = seen.faults } }
    ensures settings { IfOk result (λ c. HasSettings (R.told repo.old).config c.settings) }
    ensures configured { IfOk result (λ c. IsConfigured (R.told repo.old).config c.config c.settings) }
    ensures stops { let told = R.told repo.old in
        StopsFor (IsSourceCause told) (IsSourceUnread told) (R.seen repo.old) (R.seen repo.new) result }
{
    let too_large = Refusal::Config(ConfigFault::TooLarge);
    let bytes = taken_bytes(alloc, too_large, repo.config_bytes(MAX_CONFIG))?;
    settings_in(alloc, &bytes)
}

/// What `info/attributes` says, once the configuration was read. An absent file is empty.
fn read_info<R: Repo>(alloc: Global, repo: &mut R) -> Result<AttrFile, Stop>
    requires index { IsIndexRead (R.told repo.old) }
    requires config { IsConfigRead (R.told repo.old) }
    ensures told { R.told repo.new ≡ R.told repo.old }
    ensures kept { let seen = R.seen repo.new in
        seen ≡ record (R.seen repo.old) { faults = seen.faults } }
    ensures info { IfOk result (HasAttributes (R.told repo.old).info) }
    ensures stops { let told = R.told repo.old in
        StopsFor (IsSourceCause told) (IsSourceUnread told) (R.seen repo.old) (R.seen repo.new) result }
{
    let taken = repo.info_attributes(MAX_ATTRIBUTES);
    let bytes = taken_bytes(alloc, Refusal::InfoTooLarge, taken)?;
    Ok(read_attributes(alloc, &bytes, true)?)
}

/// What the system's and the user's attribute files say, once `info/attributes` was read. Absent files are empty.
fn read_base<R: Repo>(alloc: Global, repo: &mut R) -> Result<AttrFile, Stop>
    requires index { IsIndexRead (R.told repo.old) }
    requires config { IsConfigRead (R.told repo.old) }
    requires info { IsInfoRead (R.told repo.old) }
    ensures told { R.told repo.new ≡ R.told repo.old }
    ensures kept { let seen = R.seen repo.new in
        seen ≡ record (R.seen repo.old) { faults = seen.faults } }
    ensures base { IfOk result (HasAttributes (R.told repo.old).base) }
    ensures stops { let told = R.told repo.old in
        StopsFor (IsSourceCause told) (IsSourceUnread told) (R.seen repo.old) (R.seen repo.new) result }
{
    let taken = repo.base_attributes(MAX_ATTRIBUTES);
    let bytes = taken_bytes(alloc, Refusal::BaseTooLarge, taken)?;
    Ok(read_attributes(alloc, &bytes, true)?)
}

/// The index, the settings, `info/attributes`, and the system's and the user's attribute files, in this order.
pub fn read_sources<R: Repo>(alloc: Global, repo: &mut R) -> Result<Sources, Stop>
    ensures told { R.told repo.new ≡ R.told repo.old }
    ensures kept { let seen = R.seen repo.new in
        seen ≡ record (R.seen repo.old) { faults = seen.faults } }
    ensures sources { IfOk result (λ s. HasSources (R.told repo.old) s.index s.settings s.outer) }
    ensures configured { IfOk result (λ s. IsConfigured (R.told repo.old).config s.config s.settings) }
    ensures stops { let told = R.told repo.old in
        StopsFor (IsSourceCause told) (IsSourceUnread told) (R.seen repo.old) (R.seen repo.new) result }
{
    let index = read_entries(alloc, repo)?;
    let Configured { config, settings } = read_settings(alloc, repo)?;
    let info = match read_info(alloc, repo) {
        Ok(info) => info,
        Err(stop) => return Err(stop),
    };
    let base = match read_base(alloc, repo) {
        Ok(base) => base,
        Err(stop) => return Err(stop),
    };
    let outer = OuterFiles { info, base };
    Ok(Sources {
        index,
        config,
        settings,
        outer,
    })
}
