ghost use Rattle.std.specs.Prelude.{◌≡◌, ◌≤◌, ◌<◌, ◌+◌, ◌∷◌, ◌++◌, [], IfOk, OnOk, OnErr, map};
ghost use Rattle.std.specs.Prelude.{vec_len, vec_capacity};
ghost use Rattle.edge_kit.specs.Starters.{new_starter, starter_back};
ghost use Rattle.edge_kit.specs.MemoryDrivers.{sessions_for, starts_for, driver_back};

use crate::memory_starter::MemoryStarter;
use crate::script::{DriverScript, SessionScript};
use crate::session_seen::DriverSeen;
use crate::spawner::{Spawner, Starter};
use byte_path::Bytes;
use std::alloc::{AllocError, Global};
use std::collections::VecDeque;

/// The maker of starters in memory, which tells all starts.
#[derive(Drop)]
pub struct MemorySpawner {
    alloc: Global,
    /// The drivers. Of two with one command the first counts.
    pub scripts: Vec<DriverScript>,
    returned: Vec<DriverSeen>,
    out: usize,
    // there is room for each starter that is out
    ghost room: { vec_len returned + out ≤ vec_capacity returned },
}

fn copy_session(alloc: Global, session: &SessionScript) -> Result<SessionScript, AllocError>
    ensures { IfOk result (λ copy. copy ≡ session.now) }
{
    let output = Bytes::copy_of(alloc, session.output.as_slice())?;
    Ok(SessionScript {
        starts: session.starts,
        output,
        piece: session.piece,
        fail_send: session.fail_send,
        fail_read: session.fail_read,
    })
}

fn copy_sessions(
    alloc: Global,
    sessions: &[SessionScript],
) -> Result<VecDeque<SessionScript>, AllocError>
    ensures { IfOk result (λ copies. copies.items ≡ sessions.now) }
{
    let mut copies = VecDeque::new(alloc);
    for session in sessions {
        copies.push_back(copy_session(alloc, session)?)?;
    }
    Ok(copies)
}

/// The sessions of the first driver with this command, or none if there is no such driver.
fn sessions_for<'a>(scripts: &'a [DriverScript], command: &[u8]) -> &'a [SessionScript]
    ensures { result.now ≡ sessions_for scripts.now command.now }
{
    for script in scripts {
        if script.command.as_slice() == command {
            return script.sessions.as_slice();
        }
    }
    &[]
}

impl MemorySpawner {
    /// A spawner of these drivers. Of two with one command the first counts.
    pub fn new(alloc: Global, scripts: Vec<DriverScript>) -> MemorySpawner
        ensures told { ⟦<MemorySpawner as Spawner>⟧.told result ≡ starts_for scripts.items }
        ensures seen { let seen = ⟦<MemorySpawner as Spawner>⟧.seen in
            seen result ≡ record { returned = []; out = 0 } }
        ensures scripts { result.scripts ≡ scripts }
    {
        MemorySpawner {
            alloc,
            scripts,
            returned: Vec::new(alloc),
            out: 0,
        }
    }

    /// The drivers whose starters were given back, in order, each with its sessions.
    pub fn drivers(&self) -> &[DriverSeen]
        ensures { let seen = ⟦<MemorySpawner as Spawner>⟧.seen in
            map driver_back result.now ≡ (seen self.now).returned }
    {
        &self.returned
    }
}

impl Spawner for MemorySpawner {
    type Starter = MemoryStarter;

    ghost told = { λ s. starts_for s.scripts.items };

    ghost seen = { λ s. record { returned = map driver_back s.returned.items; out = s.out } };

    fn starter(&mut self, command: &[u8]) -> Result<MemoryStarter, AllocError>
        ensures told { let told = ⟦<MemorySpawner as Spawner>⟧.told in
            told self.new ≡ told self.old }
        ensures starter { let told = ⟦<MemorySpawner as Spawner>⟧.told in
            let seen = ⟦<MemoryStarter as Starter>⟧.seen in
            IfOk result (λ s. seen s ≡ new_starter command.now (told self.old command.now)) }
        ensures out { let seen = ⟦<MemorySpawner as Spawner>⟧.seen in
            OnOk result (seen self.new ≡ record (seen self.old) { out = (seen self.old).out + 1 }) }
        ensures kept { let seen = ⟦<MemorySpawner as Spawner>⟧.seen in
            OnErr result (seen self.new ≡ seen self.old) }
        ensures sessions { IfOk result (λ s.
            s.sessions.items ≡ sessions_for self.old.scripts.items command.now) }
        ensures scripts { self.new.scripts ≡ self.old.scripts }
    {
        let sessions = copy_sessions(self.alloc, sessions_for(&self.scripts, command))?;
        let command = Bytes::copy_of(self.alloc, command)?;
        self.returned.reserve(self.out + 1)?;
        self.out += 1;
        Ok(MemoryStarter::new(self.alloc, command, sessions))
    }

    fn take_back(&mut self, starter: MemoryStarter)
        requires given { let seen = ⟦<MemorySpawner as Spawner>⟧.seen in 0 < (seen self.old).out }
        requires ended { let seen = ⟦<MemoryStarter as Starter>⟧.seen in (seen starter).out ≡ 0 }
        ensures told { let told = ⟦<MemorySpawner as Spawner>⟧.told in
            told self.new ≡ told self.old }
        ensures out { let seen = ⟦<MemorySpawner as Spawner>⟧.seen in
            (seen self.new).out + 1 ≡ (seen self.old).out }
        ensures back { let seen = ⟦<MemorySpawner as Spawner>⟧.seen in
            let starter_seen = ⟦<MemoryStarter as Starter>⟧.seen in
            seen self.new ≡ record (seen self.old) {
              out = (seen self.new).out;
              returned = (seen self.old).returned ++ starter_back (starter_seen starter) ∷ [];
            } }
        ensures scripts { self.new.scripts ≡ self.old.scripts }
    {
        let _ = self.returned.push(starter.into_driver());
        self.out -= 1;
    }
}
