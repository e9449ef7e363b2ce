//! The keys, and the last value of each.
ghost use Rattle.std.specs.Prelude.{◌≡◌, option_copied};
ghost use Rattle.std.specs.Prelude.{codes};
ghost use Rattle.settings_view.specs.Keys.{is_key, last_value, crlf_told, eol_told, workers_at, workers_told};
ghost use Rattle.settings_view.specs.Keys.{threshold_at, threshold_told, has_sha1};

use crate::fault::{KeyId, SettingFault};
use crate::number::{number_of, threshold_of, workers_of};
use crate::value::{crlf_of, eol_of, is_sha1};
use byte_path::Bytes;
use eol_convert::{AutoCrlf, EolSetting};
use git_config::Setting;

/// Whether a setting has this key, in a section without a subsection. Both names are in lower case.
#[tactic(auto, unfolding(crate::specs::Keys::is_key))]
fn is_key(section: &[u8], key: &[u8], setting: &Setting) -> bool
    ensures { result ≡ is_key section.now key.now setting.now }
{
    setting.section.as_slice() == section && setting.sub.is_none() && setting.key.as_slice() == key
}

/// The last value of a key in a section without a subsection.
fn last_value<'a>(settings: &'a [Setting], section: &[u8], key: &[u8]) -> Option<&'a Option<Bytes>>
    ensures { option_copied result ≡ last_value (is_key section.now key.now) settings.now }
{
    let mut last = None;
    for setting in settings {
        if is_key(section, key, setting) {
            last = Some(&setting.value);
        }
    }
    last
}

/// `core.autocrlf`
pub fn crlf_told(settings: &[Setting]) -> Result<AutoCrlf, SettingFault>
    ensures { result ≡ crlf_told settings.now }
{
    match last_value(settings, b"core", b"autocrlf") {
        Some(value) => crlf_of(value).ok_or(SettingFault::BadChoice(KeyId::AutoCrlf)),
        None => Ok(AutoCrlf::False),
    }
}

/// `core.eol`
pub fn eol_told(settings: &[Setting]) -> Result<EolSetting, SettingFault>
    ensures { result ≡ eol_told settings.now }
{
    match last_value(settings, b"core", b"eol") {
        Some(value) => eol_of(value).ok_or(SettingFault::BadChoice(KeyId::Eol)),
        None => Ok(EolSetting::Native),
    }
}

fn workers_at(value: &Option<Bytes>) -> Option<u32>
    ensures { result ≡ workers_at value.now }
{
    number_of(value).map(workers_of)
}

/// `checkout.workers`
pub fn workers_told(settings: &[Setting]) -> Result<u32, SettingFault>
    ensures { result ≡ workers_told settings.now }
{
    match last_value(settings, b"checkout", b"workers") {
        Some(value) => workers_at(value).ok_or(SettingFault::BadNumber(KeyId::Workers)),
        None => Ok(1),
    }
}

fn threshold_at(value: &Option<Bytes>) -> Option<u64>
    ensures { result ≡ threshold_at value.now }
{
    number_of(value).map(threshold_of)
}

/// `checkout.thresholdForParallelism`
pub fn threshold_told(settings: &[Setting]) -> Result<u64, SettingFault>
    ensures { result ≡ threshold_told settings.now }
{
    match last_value(settings, b"checkout", b"thresholdforparallelism") {
        Some(value) => threshold_at(value).ok_or(SettingFault::BadNumber(KeyId::Threshold)),
        None => Ok(100),
    }
}

/// Whether `extensions.objectFormat` is `sha1` or absent.
pub fn has_sha1(settings: &[Setting]) -> bool
    ensures { result ≡ has_sha1 settings.now }
{
    match last_value(settings, b"extensions", b"objectformat") {
        Some(value) => is_sha1(value),
        None => true,
    }
}
