//! A rehearsal, which uses no folder.
use checkout_engine::show_rehearsal;
use checkout_paths::Means;
use edge_kit::NoGate;
use reports::ReportForm;
use siuwbren_index::{end_with, sink_of};
use siuwbren_words::PathCount;
use std::sync::Wait;
use std::thread::Threads;

/// Checks out a repository in memory that two numbers make, and prints a line of how that ended.
pub fn rehearse<H: Threads + Wait + Sync>(
    rt: HostRuntime,
    threads: &H,
    seed: u64,
    paths: PathCount,
) -> u8 {
    let means = Means {
        rt: threads,
        alloc: rt.alloc(),
        gate: &NoGate,
    };
    let mut out = sink_of(rt, ReportForm::Text);
    let status = show_rehearsal(&means, seed, paths.number(), &mut out);
    end_with(rt, status.number())
}
