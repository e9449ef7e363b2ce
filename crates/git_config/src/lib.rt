//! The syntax of a configuration file (git-config(1), "Syntax").
#![tactic(auto)]

mod config;
mod fault;
mod header;
mod laws;
mod line;
mod setting;
mod shared;
mod text;
mod value;

pub use config::{Config, read_config};
pub use fault::{ConfigFault, LineKind};
pub use laws::{read_is_spelled, spelled_is_read};
pub use setting::Setting;
pub use shared::Shared;
