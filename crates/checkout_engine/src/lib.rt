//! Checkouts by values: a repository's plan, the run that writes its paths, and the report that is said of it.
#![tactic(auto)]

mod command;
mod end;
mod halt;
mod laws;
mod rehearsed;
mod report;
mod show;
mod steps;

pub use command::{CommandEnd, run, run_words};
pub use end::{Checkout, CheckoutRun};
pub use laws::{
    a_told_repository_has_one_plan, actors_are_numbered, memory_tells_all, planned_paths_are_sized,
    rehearsals_are_alike, same_faults_change_nothing, talks_decide, talks_have_memory,
    workers_change_nothing, written_paths_are_given,
};
pub use rehearsed::{rehearsed_run, show_rehearsal};
pub use report::report_checkout;
pub use show::{plan_text, report_plan};
pub use steps::checkout;
