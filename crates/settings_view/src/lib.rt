//! What a configuration says of a checkout (git-config(1)).
#![tactic(auto)]

mod drivers;
mod fault;
mod keys;
mod number;
mod settings_read;
mod value;
mod view;

pub use fault::{KeyId, SettingFault};
pub use settings_read::{cleaning_drivers, drivers_are_those_spoken_of, settings};
pub use view::{Driver, Settings};
