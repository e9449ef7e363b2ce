//! The order in which objects will probably be taken.
use byte_path::ObjectId;
use std::alloc::{AllocError, Global};
use std::sync::Mutex;
use std::sync::atomic::{AtomicBool, Ordering};

/// The names of the objects that were lent, in that order. They are lent in the order of their paths, in which a thread
/// that reads alone takes them. Each of several threads takes some of them, so that none knows its next one.
#[derive(Drop)]
pub struct Lent {
    names: Mutex<Vec<ObjectId>>,
    is_alone: AtomicBool,
}

impl Lent {
    /// Nothing was lent, and no more than one thread has read.
    pub fn new(alloc: Global) -> Lent {
        Lent {
            names: Mutex::new(Vec::new(alloc)),
            is_alone: AtomicBool::new(true),
        }
    }

    /// Adds an object, and returns its place, or `None` while another thread is at the list.
    pub fn add(&self, name: &ObjectId) -> Result<Option<usize>, AllocError> {
        let Some(mut names) = self.names.try_lock() else {
            return Ok(None);
        };
        let place = names.len();
        names.push(*name)?;
        Ok(Some(place))
    }

    /// From now on several threads read.
    pub fn share(&self) {
        self.is_alone.store(false, Ordering::SeqCst);
    }

    /// The object that will probably be taken after the one in this place, if one thread reads alone.
    pub fn next(&self, place: Option<usize>) -> Option<ObjectId> {
        if !self.is_alone.load(Ordering::SeqCst) {
            return None;
        }
        let names = self.names.try_lock()?;
        names.get(place?.saturating_add(1)).copied()
    }
}
