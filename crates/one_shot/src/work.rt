//! The work of running a command once for each content.
ghost use Rattle.std.specs.Prelude.{◌≡◌, ◌≢◌, ℕ, List, true, None, IfOk};
ghost use Rattle.driver_host.specs.Works.{ChoosesFirst, ChoosesSecond, Remembers};
ghost use Rattle.one_shot.specs.Commands.{once_command};
ghost use Rattle.one_shot.specs.Onces.{told_of};
ghost use Rattle.one_shot.specs.Works.{work_told, IsChosen};

use crate::command::once_command;
use crate::once::{Once, OnceEnd};
use byte_path::Bytes;
use driver_host::{Choice, LateChoice, Work};
use edge_kit::TakeFault;
use std::alloc::{AllocError, Global};

/// How many bytes an output may have.
const MOST_OUTPUT: u64 = 536_000_000;

/// A command that runs once for each content, which is its input.
#[derive(Drop)]
pub struct OnceWork<O: Once> {
    alloc: Global,
    pub once: O,
    pub command: Bytes,
}

impl<O: Once> OnceWork<O> {
    pub fn make(alloc: Global, once: O, command: &[u8]) -> Result<OnceWork<O>, AllocError>
        ensures once { IfOk result (λ w. w.once ≡ once) }
        ensures command { IfOk result (λ w. w.command ≡ command.now) }
    {
        Ok(OnceWork {
            alloc,
            once,
            command: Bytes::copy_of(alloc, command)?,
        })
    }
}

impl<O: Once> Work for OnceWork<O> {
    ghost told = { λ w. work_told (O.told w.once) w.command };

    ghost latest = { λ w path. None };

    /// Gives the output if the command ends with the status 0.
    fn first(&mut self, path: &[u8], content: &[u8], can_delay: bool) -> Result<Choice, AllocError>
        ensures told { let told = ⟦<OnceWork<O> as Work>⟧.told in told self.new ≡ told self.old }
        ensures chosen { let told = ⟦<OnceWork<O> as Work>⟧.told in
            ChoosesFirst (told self.old) path.now content.now can_delay result }
        ensures later { IfOk result (λ c. c ≡ Choice.Later → can_delay ≡ true) }
        ensures remembers { let latest = ⟦<OnceWork<O> as Work>⟧.latest in
            Remembers (latest self.old) path.now content.now (latest self.new) result }
        ensures ran { IfOk result (λ c.
            let tells = told_of (O.told self.old.once) (once_command self.old.command path.now) content.now in
            IsChosen tells (O.faults self.old.once) (O.faults self.new.once) c) }
        ensures command { self.new.command ≡ self.old.command }
    {
        let command = once_command(self.alloc, self.command.as_slice(), path)?;
        match self.once.run_once(command.as_slice(), content, MOST_OUTPUT) {
            Ok(OnceEnd { output, zero }) if zero => Ok(Choice::Give(output)),
            Ok(_) | Err(TakeFault::TooLong | TakeFault::Failed) => Ok(Choice::Refuse),
            Err(TakeFault::NoMemory) => Err(AllocError),
        }
    }

    /// Nothing is ever delayed.
    fn second(&mut self, path: &[u8]) -> Result<LateChoice, AllocError>
        ensures told { let told = ⟦<OnceWork<O> as Work>⟧.told in told self.new ≡ told self.old }
        ensures chosen { let work = ⟦<OnceWork<O> as Work>⟧.told self.old in
            ChoosesSecond work path.now (⟦<OnceWork<O> as Work>⟧.latest self.old path.now) result }
        ensures others { let latest = ⟦<OnceWork<O> as Work>⟧.latest in
            (q : List ℕ) → q ≢ path.now → latest self.new q ≡ latest self.old q }
        ensures refuses { IfOk result (λ c. c ≡ LateChoice.Refuse) }
    {
        Ok(LateChoice::Refuse)
    }
}
