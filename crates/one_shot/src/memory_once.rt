//! Single runs in memory.
ghost use Rattle.std.specs.Prelude.{◌≡◌, ◌&&◌, IfOk, option_copied};
ghost use Rattle.std.specs.Str.{bytes_eq};
ghost use Rattle.one_shot.specs.Onces.{run_in};
ghost use Rattle.one_shot.specs.MemoryOnces.{told_by, runs_in, scripts_tell};

use crate::once::{Once, OnceEnd, OnceMaker};
use byte_path::Bytes;
use edge_kit::TakeFault;
use std::alloc::{AllocError, Global};

/// A run: a command and an input, and how it ends.
#[derive(Drop)]
pub struct OnceScript {
    pub command: Bytes,
    pub input: Bytes,
    /// All that it writes on its standard output.
    pub output: Bytes,
    /// Whether its exit status is 0.
    pub zero: bool,
}

/// Runs in memory. A run without a script fails.
#[derive(Drop)]
pub struct MemoryOnce {
    alloc: Global,
    scripts: Vec<OnceScript>,
    faults: u64,
}

/// The maker of runs in memory.
#[derive(Drop)]
pub struct MemoryOnceMaker {
    alloc: Global,
    scripts: Vec<OnceScript>,
}

fn copy_script(alloc: Global, script: &OnceScript) -> Result<OnceScript, AllocError>
    ensures { IfOk result (λ copy. copy ≡ script.now) }
{
    Ok(OnceScript {
        command: Bytes::copy_of(alloc, script.command.as_slice())?,
        input: Bytes::copy_of(alloc, script.input.as_slice())?,
        output: Bytes::copy_of(alloc, script.output.as_slice())?,
        zero: script.zero,
    })
}

fn copy_scripts(alloc: Global, scripts: &[OnceScript]) -> Result<Vec<OnceScript>, AllocError>
    ensures { IfOk result (λ copies. copies.items ≡ scripts.now) }
{
    let mut copies = Vec::new(alloc);
    for script in scripts {
        copies.push(copy_script(alloc, script)?)?;
    }
    Ok(copies)
}

fn is_script_of(script: &OnceScript, command: &[u8], input: &[u8]) -> bool
    ensures { result ≡ (bytes_eq script.now.command command.now && bytes_eq script.now.input input.now) }
{
    script.command.as_slice() == command && script.input.as_slice() == input
}

/// The first script with this command and this input.
fn script_of<'a>(scripts: &'a [OnceScript], command: &[u8], input: &[u8]) -> Option<&'a OnceScript>
    ensures { told_by (option_copied result) ≡ run_in (runs_in scripts.now) command.now input.now }
{
    for script in scripts {
        if is_script_of(script, command, input) {
            return Some(script);
        }
    }
    None
}

impl MemoryOnce {
    /// Runs by these scripts. Of two with one command and one input the first counts.
    pub fn new(alloc: Global, scripts: Vec<OnceScript>) -> MemoryOnce
        ensures told { ⟦<MemoryOnce as Once>⟧.told result ≡ scripts_tell scripts.items }
        ensures faults { ⟦<MemoryOnce as Once>⟧.faults result ≡ 0 }
    {
        MemoryOnce {
            alloc,
            scripts,
            faults: 0,
        }
    }
}

impl Once for MemoryOnce {
    ghost told = { λ o. scripts_tell o.scripts.items };

    ghost faults = { λ o. o.faults };

    fn run_once(&mut self, command: &[u8], input: &[u8], limit: u64) -> Result<OnceEnd, TakeFault> {
        let Some(script) = script_of(&self.scripts, command, input) else {
            self.faults = self.faults.saturating_add(1);
            return Err(TakeFault::Failed);
        };
        let output = script.output.as_slice();
        if output.len() as u64 > limit {
            return Err(TakeFault::TooLong);
        }
        Ok(OnceEnd {
            output: Bytes::copy_of(self.alloc, output)?,
            zero: script.zero,
        })
    }
}

impl MemoryOnceMaker {
    /// A maker of runs by these scripts, of which each gets a copy.
    pub fn new(alloc: Global, scripts: Vec<OnceScript>) -> MemoryOnceMaker
        ensures { ⟦<MemoryOnceMaker as OnceMaker>⟧.told result ≡ scripts_tell scripts.items }
    {
        MemoryOnceMaker { alloc, scripts }
    }
}

impl OnceMaker for MemoryOnceMaker {
    type Once = MemoryOnce;

    ghost told = { λ m. scripts_tell m.scripts.items };

    fn once(&mut self) -> Result<MemoryOnce, AllocError> {
        Ok(MemoryOnce::new(self.alloc, copy_scripts(self.alloc, &self.scripts)?))
    }

    fn another(&self) -> Result<MemoryOnceMaker, AllocError> {
        let scripts = copy_scripts(self.alloc, &self.scripts)?;
        Ok(MemoryOnceMaker::new(self.alloc, scripts))
    }
}
