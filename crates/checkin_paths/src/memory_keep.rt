//! A keeper in memory.
ghost use Rattle.std.specs.Prelude.{◌≡◌, Some, None, [], option_copied};
ghost use Rattle.edge_kit.specs.MemoryLeaves.{CountsDown};
ghost use Rattle.checkin_paths.specs.Outside.{KeepsObject, KeepsIndex};
ghost use Rattle.checkin_paths.specs.Memory.{last_index};

use crate::keep::Keep;
use byte_path::{Bytes, ObjectId};
use edge_kit::SendFault;
use std::alloc::Global;

/// A keeper in memory, which tells what it keeps.
#[derive(Drop)]
pub struct MemoryKeep {
    alloc: Global,
    objects: Vec<(ObjectId, Bytes)>,
    index: Option<Vec<u8>>,
    /// How many calls come before the one that fails, if one is to fail.
    pub fail_after: Option<u32>,
    faults: u64,
}

impl MemoryKeep {
    /// A keeper with nothing kept. The call with the number `fail_at`, counted from 0 over objects and indexes, fails.
    pub fn new(alloc: Global, fail_at: Option<u32>) -> MemoryKeep
        ensures seen { ⟦<MemoryKeep as Keep>⟧.seen result ≡
            record { objects = Some []; index = Some None; faults = 0 } }
        ensures fails { result.fail_after ≡ fail_at }
    {
        MemoryKeep {
            alloc,
            objects: Vec::new(alloc),
            index: None,
            fail_after: fail_at,
            faults: 0,
        }
    }

    /// The objects in order, each with its name.
    pub fn objects(&self) -> &[(ObjectId, Bytes)]
        ensures { (⟦<MemoryKeep as Keep>⟧.seen self.now).objects ≡ Some result.now }
    {
        &self.objects
    }

    /// The last index, if there is one.
    pub fn index_text(&self) -> Option<&[u8]>
        ensures { (⟦<MemoryKeep as Keep>⟧.seen self.now).index ≡ Some (option_copied result) }
    {
        match &self.index {
            Some(bytes) => Some(bytes.as_slice()),
            None => None,
        }
    }
}

impl Keep for MemoryKeep {
    ghost seen = { λ k. record {
      objects = Some k.objects.items;
      index = Some (last_index k.index);
      faults = k.faults;
    } };

    fn object(&mut self, name: &ObjectId, raw: &[u8]) -> Result<(), SendFault>
        ensures kept { let seen = ⟦<MemoryKeep as Keep>⟧.seen in
            KeepsObject name.now raw.now (seen self.old) (seen self.new) result }
        ensures fails { CountsDown self.old.fail_after self.new.fail_after result }
    {
        let fail_after = match self.fail_after {
            Some(0) => {
                self.fail_after = None;
                self.faults = self.faults.saturating_add(1);
                return Err(SendFault::Failed);
            }
            Some(more) => Some(more - 1),
            None => None,
        };
        let raw = Bytes::copy_of(self.alloc, raw)?;
        self.objects.push((*name, raw))?;
        self.fail_after = fail_after;
        Ok(())
    }

    fn index(&mut self, bytes: &[u8]) -> Result<(), SendFault>
        ensures kept { let seen = ⟦<MemoryKeep as Keep>⟧.seen in
            KeepsIndex bytes.now (seen self.old) (seen self.new) result }
        ensures fails { CountsDown self.old.fail_after self.new.fail_after result }
    {
        let fail_after = match self.fail_after {
            Some(0) => {
                self.fail_after = None;
                self.faults = self.faults.saturating_add(1);
                return Err(SendFault::Failed);
            }
            Some(more) => Some(more - 1),
            None => None,
        };
        self.index = Some(Vec::from_slice(self.alloc, bytes)?);
        self.fail_after = fail_after;
        Ok(())
    }
}
