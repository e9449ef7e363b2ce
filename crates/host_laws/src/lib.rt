//! What a talk with a host comes to, and what a checkout comes to whose driver is a command, which runs once for each
//! content.
#![tactic(auto)]

mod laws;
mod own_runs;
mod single_runs;

pub use laws::{
    a_request_is_taken, handshakes_are_good, hosts_serve, kept_runs_have_memory, kept_runs_serve,
    lists_are_good, one_exchange, replies_are_good, single_runs_serve, told_answers_fit,
};
pub use own_runs::{
    runs_over_memory_are_heard, runs_over_memory_are_served, runs_over_processes_are_heard,
    runs_over_processes_are_served, spawners_below_are_plain,
};
pub use single_runs::{
    single_runs_are_heard, single_runs_give_all, workers_change_nothing_over_runs,
};
