ghost use Rattle.std.specs.Prelude.{◌≡◌, ◌<◌, ◌+◌, ◌^◌, ◌∷◌, ◌++◌, [], ℕ, List, length, IfOk, OnOk, OnErr};
ghost use Rattle.edge_kit.specs.Starters.{Starts, StarterSeen, SpawnerSeen};
ghost use Rattle.edge_kit.specs.Starters.{StartsOne, session_had, starter_back, new_starter};

use crate::faults::SendFault;
use crate::link::Link;
use std::alloc::AllocError;

/// What starts a driver, one session after another.
pub trait Starter: Drop {
    /// It can move to another thread.
    type Link: Link + Send;

    /// Its command, what came of its starts, the starts that follow, its count of faults, and how many of its links are
    /// out.
    ghost seen: { Self → StarterSeen };

    /// A new session. If the starts are told, it fails exactly if the next one is told to fail or none is left.
    /// `NoMemory` uses up no told start.
    fn start(&mut self) -> Result<Self::Link, SendFault>
        requires { length (seen self.old).had < 2 ^ 32 }
        ensures { StartsOne Self.Link.seen (seen self.old) (seen self.new) result };

    /// Takes back a link that it gave, which ends the session. It takes no memory.
    fn end(&mut self, link: Self::Link)
        requires { 0 < (seen self.old).out }
        ensures out { (seen self.new).out + 1 ≡ (seen self.old).out }
        ensures back { seen self.new ≡ record (seen self.old) {
          had = (seen self.old).had ++ session_had (Self.Link.seen link) ∷ [];
          out = (seen self.new).out;
        } };
}

/// The maker of the starters of drivers.
pub trait Spawner {
    /// It can move to another thread.
    type Starter: Starter + Send;

    /// What it tells of the starts of a starter for a command. No call changes this.
    ghost told: { Self → List ℕ → Starts };

    /// The starters that were given back, each with its command and what came of its starts, and how
    /// many are out.
    ghost seen: { Self → SpawnerSeen };

    /// A value that can start this command. The caller owns it. It starts nothing.
    fn starter(&mut self, command: &[u8]) -> Result<Self::Starter, AllocError>
        ensures told { told self.new ≡ told self.old }
        ensures starter { IfOk result (λ s.
            Self.Starter.seen s ≡ new_starter command.now (told self.old command.now)) }
        ensures out { OnOk result
            (seen self.new ≡ record (seen self.old) { out = (seen self.old).out + 1 }) }
        ensures kept { OnErr result (seen self.new ≡ seen self.old) };

    /// Takes back a starter that it gave, none of whose links is out. It takes no memory.
    fn take_back(&mut self, starter: Self::Starter)
        requires given { 0 < (seen self.old).out }
        requires ended { (Self.Starter.seen starter).out ≡ 0 }
        ensures told { told self.new ≡ told self.old }
        ensures out { (seen self.new).out + 1 ≡ (seen self.old).out }
        ensures back { seen self.new ≡ record (seen self.old) {
          out = (seen self.new).out;
          returned = (seen self.old).returned ++ starter_back (Self.Starter.seen starter) ∷ [];
        } };
}
