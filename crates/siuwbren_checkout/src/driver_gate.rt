//! The gate of a checkout straight from a git folder.
use edge_kit::{Gate, Point};
use program_kit::{Progress, has_terminal};
use siuwbren_words::ProgressChoice;
use std::sync::atomic::{AtomicBool, Ordering};

/// Whether progress is to be shown.
pub fn is_shown(rt: HostRuntime, wanted: ProgressChoice) -> bool {
    match wanted {
        ProgressChoice::Shown => true,
        ProgressChoice::Hidden => false,
        ProgressChoice::OnTerminal => has_terminal(rt),
    }
}

/// A gate that shows the progress, and notes that a driver has answered.
#[derive(Clone, Copy)]
pub struct DriverGate<'a> {
    pub progress: &'a Progress<'a>,
    pub driven: &'a AtomicBool,
}

impl Gate for DriverGate<'_> {
    fn at(&self, actor: u32, path: u32, point: Point) {
        if let Point::Replied = point {
            self.driven.store(true, Ordering::SeqCst);
        }
        self.progress.at(actor, path, point);
    }
}
