//! A leaf that tells nothing of its content.
ghost use Rattle.std.specs.Prelude.{◌≡◌, ◌⊎◌, None, []};

use edge_kit::{Failed, Leaf, LeafState, Mark, SendFault};
use std::alloc::{AllocError, Global};
use std::cell::Cell;
use std::rc::Rc;

/// A count of puts.
pub type Counter = Rc<Cell<u32>>;

/// A count of no puts so far.
pub fn counter_from_zero(alloc: Global) -> Result<Counter, AllocError> {
    Ok(Rc::new(alloc, Cell::new(0))?)
}

/// A leaf that counts its puts and may keep its content, and of which one put may fail.
#[derive(Drop)]
pub struct Page {
    /// What was put, if it keeps that.
    pub content: Vec<u8>,
    /// How many bytes were put.
    pub bytes: u64,
    puts: Counter,
    /// The number of the put that fails.
    fails: Option<u32>,
    keeps: bool,
    pub state: LeafState,
    faults: u64,
}

impl Page {
    /// A fresh page whose puts this counter counts.
    pub fn new(alloc: Global, puts: Counter, keeps: bool, fails: Option<u32>) -> Page
        ensures { result.state ≡ LeafState.Fresh }
    {
        Page {
            content: Vec::new(alloc),
            bytes: 0,
            puts,
            fails,
            keeps,
            state: LeafState::Fresh,
            faults: 0,
        }
    }
}

impl Leaf for Page {
    ghost seen = { λ p. record { path = []; content = None; state = p.state; faults = p.faults } };

    ghost fresh_content = { λ _ _. tt };

    fn put(&mut self, piece: &[u8]) -> Result<(), SendFault> {
        let number = self.puts.get();
        self.puts.set(number.saturating_add(1));
        if self.fails == Some(number) {
            self.faults = self.faults.saturating_add(1);
            self.state = LeafState::Broken;
            return Err(SendFault::Failed);
        }
        if self.keeps && self.content.extend_from_slice(piece).is_err() {
            return Err(SendFault::NoMemory);
        }
        self.bytes = self.bytes.saturating_add(piece.len() as u64);
        self.state = LeafState::Partly;
        Ok(())
    }

    fn restart(&mut self) -> Result<(), Failed> {
        self.state = LeafState::Fresh;
        Ok(())
    }

    fn seal(&mut self, mark: Mark) -> Result<(), Failed> {
        self.state = LeafState::Sealed(mark);
        Ok(())
    }

    fn discard(&mut self) -> Result<(), Failed> {
        self.state = LeafState::Gone;
        Ok(())
    }
}
