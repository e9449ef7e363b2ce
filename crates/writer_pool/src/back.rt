//! What comes back from the actors of a pool.
ghost use Rattle.std.specs.Prelude.{◌≡◌, ◌≤◌, ◌+◌, IfOk, length, map};
ghost use Rattle.writer_pool.specs.Jobs.{passes_in, served_in};
ghost use Rattle.writer_pool.specs.Rooms.{HasRoomBack};

use crate::jobs::JobEnd;
use checkout_core::Event;
use driver_desk::Served;
use std::alloc::{AllocError, Global};

/// The passes of all actors, and for each desk its starter and the notes of its talk.
#[derive(Drop)]
pub(crate) struct Back<P, S> {
    pub passes: Vec<P>,
    pub starters: Vec<S>,
    pub talks: Vec<Vec<Event>>,
}

/// An empty one, with room for so many workers and drivers.
pub(crate) fn back_room<P: Drop, S: Drop>(
    alloc: Global,
    workers: u32,
    drivers: usize,
) -> Result<Back<P, S>, AllocError>
    requires few_workers { workers ≤ 16 }
    requires few_drivers { drivers ≤ 16 }
    ensures { IfOk result (λ r. HasRoomBack (workers + drivers) drivers r) }
{
    Ok(Back {
        passes: Vec::with_capacity(alloc, workers as usize + drivers)?,
        starters: Vec::with_capacity(alloc, drivers)?,
        talks: Vec::with_capacity(alloc, drivers)?,
    })
}

/// What the actors left, in the room that was taken for it.
pub(crate) fn came_back<P: Drop, S: Drop>(
    ends: Vec<JobEnd<P, Served<S>>>,
    room: Back<P, S>,
) -> Back<P, S>
    requires { HasRoomBack (length ends.items) (length (served_in ends.items)) room }
    ensures passes { result.passes.items ≡ passes_in ends.items }
    ensures starters { result.starters.items ≡ map (λ s. s.starter) (served_in ends.items) }
    ensures talks { result.talks.items ≡ map (λ s. s.talk) (served_in ends.items) }
{
    let Back {
        mut passes,
        mut starters,
        mut talks,
    } = room;
    for end in ends {
        let JobEnd { pass, served } = end;
        passes.push_reserved(pass);
        match served {
            Some(served) => {
                let Served { starter, talk } = served;
                starters.push_reserved(starter);
                talks.push_reserved(talk);
            }
            None => {}
        }
    }
    Back {
        passes,
        starters,
        talks,
    }
}
