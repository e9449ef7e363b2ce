//! Single runs of commands.
ghost use Rattle.std.specs.Prelude.{◌≡◌, ℕ, IfOk};
ghost use Rattle.edge_kit.specs.Faults.{AfterTake};
ghost use Rattle.one_shot.specs.Onces.{RunsTold, told_of, EndsSo};

use byte_path::Bytes;
use edge_kit::TakeFault;
use std::alloc::AllocError;

/// How a run ended.
#[derive(Drop)]
pub struct OnceEnd {
    /// All that it wrote on its standard output.
    pub output: Bytes,
    /// Whether its exit status was 0.
    pub zero: bool,
}

/// What runs commands, one after another.
pub trait Once: Drop {
    /// What it tells of the runs of commands. No call changes it.
    ghost told: { Self → RunsTold };

    /// How often it has failed.
    ghost faults: { Self → ℕ };

    /// Runs a command, which reads this input, to its end. The fault is `TooLong` if its output has more bytes than the
    /// limit, and `Failed` if it couldn't be run.
    fn run_once(&mut self, command: &[u8], input: &[u8], limit: u64) -> Result<OnceEnd, TakeFault>
        ensures told { told self.new ≡ told self.old }
        ensures ends { EndsSo (told_of (told self.old) command.now input.now) limit result }
        ensures faults { AfterTake (faults self.old) (faults self.new) result };
}

/// The maker of what runs commands.
pub trait OnceMaker: Drop {
    type Once: Once;

    /// What it tells of the runs of commands. No call changes it.
    ghost told: { Self → RunsTold };

    /// A value that tells the same, and hasn't failed.
    fn once(&mut self) -> Result<Self::Once, AllocError>
        ensures told { told self.new ≡ told self.old }
        ensures tells { IfOk result (λ once. Self.Once.told once ≡ told self.old) }
        ensures unfailed { IfOk result (λ once. Self.Once.faults once ≡ 0) };

    /// Another maker that tells the same. Each starter has one.
    fn another(&self) -> Result<Self, AllocError>
        ensures { IfOk result (λ maker. told maker ≡ told self.now) };
}
