ghost use Rattle.std.specs.Prelude.{◌≡◌, ◌≤◌, ◌<◌, ◌+◌, ◌^◌, ◌∷◌, ◌++◌, [], IfOk, length};
ghost use Rattle.std.specs.Prelude.{vec_len, vec_capacity};
ghost use Rattle.edge_kit.specs.Starters.{StartsOne, session_had, starter_back, new_starter};
ghost use Rattle.edge_kit.specs.MemoryDrivers.{Opens, NextHas, UsesUp, starts_told};
ghost use Rattle.edge_kit.specs.MemoryDrivers.{waits, outcome_had, starts_had, driver_back};

use crate::faults::SendFault;
use crate::link::Link;
use crate::memory_link::MemoryLink;
use crate::script::{LinkScript, SessionScript};
use crate::session_seen::{DriverSeen, StartOutcome, StartSeen};
use crate::spawner::Starter;
use byte_path::{Bytes, Items};
use std::alloc::Global;
use std::collections::VecDeque;

/// The starter of a driver in memory, which tells its starts.
#[derive(Drop)]
pub struct MemoryStarter {
    alloc: Global,
    command: Bytes,
    /// The sessions that are left, in order.
    pub sessions: VecDeque<SessionScript>,
    had: Vec<StartSeen>,
    // how many starts after the last of these ran out of memory
    out_of_memory: u64,
    out: usize,
    faults: u64,
    // there is room for each link that is out
    ghost room: { vec_len had + out ≤ vec_capacity had },
}

/// A link for the next session, or why there is none.
fn next_link(alloc: Global, sessions: &VecDeque<SessionScript>) -> Result<MemoryLink, SendFault>
    ensures { Opens ⟦<MemoryLink as Link>⟧.seen (λ l. l.script) sessions.now.items result }
{
    let Some(session) = sessions.front() else {
        return Err(SendFault::Failed);
    };
    if !session.starts {
        return Err(SendFault::Failed);
    }
    let script = LinkScript {
        piece: session.piece,
        fail_send: session.fail_send,
        fail_read: session.fail_read,
    };
    let output = Vec::from_slice(alloc, session.output.as_slice())?;
    Ok(MemoryLink::new(alloc, output, script))
}

/// Keeps what came of a start, after the starts before it that ran out of memory. There is room for it.
#[tactic(auto, using(crate::proofs::Starts::starts_had_more))]
fn keep(had: &mut Vec<StartSeen>, out_of_memory: u64, outcome: StartOutcome)
    requires { vec_len had.old < vec_capacity had.old }
    ensures had { starts_had had.new.items ≡
        starts_had had.old.items ++ (waits out_of_memory ++ outcome_had outcome ∷ []) }
    ensures len { vec_len had.new ≡ vec_len had.old + 1 }
    ensures capacity { vec_capacity had.old ≤ vec_capacity had.new }
{
    let _ = had.push(StartSeen {
        out_of_memory,
        outcome,
    });
}

impl MemoryStarter {
    /// A starter of these sessions, which has started nothing.
    pub(crate) fn new(
        alloc: Global,
        command: Bytes,
        sessions: VecDeque<SessionScript>,
    ) -> MemoryStarter
        ensures seen { ⟦<MemoryStarter as Starter>⟧.seen result ≡
            new_starter command (starts_told sessions.items) }
        ensures sessions { result.sessions ≡ sessions }
    {
        MemoryStarter {
            alloc,
            command,
            sessions,
            had: Vec::new(alloc),
            out_of_memory: 0,
            out: 0,
            faults: 0,
        }
    }

    /// What is kept of the starter. It takes no memory.
    pub(crate) fn into_driver(self) -> DriverSeen
        ensures { let seen = ⟦<MemoryStarter as Starter>⟧.seen in
            driver_back result ≡ starter_back (seen self) }
    {
        let MemoryStarter {
            command,
            had,
            out_of_memory,
            ..
        } = self;
        DriverSeen {
            command,
            starts: Items::from_vec(had),
            out_of_memory,
        }
    }
}

impl Starter for MemoryStarter {
    type Link = MemoryLink;

    ghost seen = { λ s. record {
      command = s.command;
      had = starts_had s.had.items ++ waits s.out_of_memory;
      ahead = starts_told s.sessions.items;
      faults = s.faults;
      out = s.out;
    } };

    #[tactic(auto, using(crate::proofs::Starts::had_one_waits, crate::proofs::Starts::had_one_kept))]
    fn start(&mut self) -> Result<MemoryLink, SendFault>
        requires { let seen = ⟦<MemoryStarter as Starter>⟧.seen in
            length (seen self.old).had < 2 ^ 32 }
        ensures started { let seen = ⟦<MemoryStarter as Starter>⟧.seen in
            StartsOne ⟦<MemoryLink as Link>⟧.seen (seen self.old) (seen self.new) result }
        ensures link { IfOk result (λ l. NextHas self.old.sessions.items l.script) }
        ensures sessions { UsesUp self.old.sessions.items self.new.sessions.items result }
    {
        let started = match self.had.reserve(self.out + 1) {
            Ok(()) => next_link(self.alloc, &self.sessions),
            Err(_) => Err(SendFault::NoMemory),
        };
        match &started {
            Ok(_) => {
                let _ = self.sessions.pop_front();
                self.out += 1;
            }
            Err(SendFault::Failed) => {
                let _ = self.sessions.pop_front();
                self.faults = self.faults.saturating_add(1);
                keep(&mut self.had, self.out_of_memory, StartOutcome::Failed);
                self.out_of_memory = 0;
            }
            Err(SendFault::NoMemory) => self.out_of_memory += 1,
        }
        started
    }

    #[tactic(auto, using(crate::proofs::Starts::had_one_kept))]
    fn end(&mut self, link: MemoryLink)
        requires { let seen = ⟦<MemoryStarter as Starter>⟧.seen in 0 < (seen self.old).out }
        ensures out { let seen = ⟦<MemoryStarter as Starter>⟧.seen in
            (seen self.new).out + 1 ≡ (seen self.old).out }
        ensures back { let seen = ⟦<MemoryStarter as Starter>⟧.seen in
            let link_seen = ⟦<MemoryLink as Link>⟧.seen in
            seen self.new ≡ record (seen self.old) {
              had = (seen self.old).had ++ session_had (link_seen link) ∷ [];
              out = (seen self.new).out;
            } }
        ensures sessions { self.new.sessions ≡ self.old.sessions }
    {
        keep(
            &mut self.had,
            self.out_of_memory,
            StartOutcome::Session(link.into_session()),
        );
        self.out_of_memory = 0;
        self.out -= 1;
    }
}
