//! Filter drivers that are a command, which runs once for each content: gitattributes(5), "filter", `smudge`.
//!
//! A command that begins with a NUL is such a single run of the rest. It is served as a long-running driver is, by a
//! host whose work is to run the command.
#![tactic(auto)]

mod command;
mod kept;
mod link;
mod memory_once;
mod once;
mod run;
mod run_link;
mod spawner;
mod starter;
mod work;

pub use command::once_command;
pub use kept::{EndedLink, KeptLinks};
pub use link::OnceLink;
pub use memory_once::{MemoryOnce, MemoryOnceMaker, OnceScript};
pub use once::{Once, OnceEnd, OnceMaker};
pub use run::Run;
pub use run_link::RunLink;
pub use spawner::{OnceSpawner, StarterOf};
pub use starter::{LinkOf, OnceStarter, Source};
pub use work::OnceWork;
