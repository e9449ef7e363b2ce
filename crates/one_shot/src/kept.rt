//! Sessions that ended, as their links.
ghost use Rattle.std.specs.Prelude.{◌≡◌, ◌≤◌, ◌<◌, ◌+◌, ◌^◌, ◌∷◌, ◌++◌, [], true, IfOk, OnOk, length};
ghost use Rattle.std.specs.Prelude.{vec_len, vec_capacity};
ghost use Rattle.edge_kit.specs.Starters.{session_had, StartOutOfMemory};
ghost use Rattle.one_shot.specs.Replies.{once_seen, AreServed, TellNoAnswers};
ghost use Rattle.one_shot.specs.Starters.{IsEmpty, kept_had};

use crate::link::OnceLink;
use crate::run_link::RunLink;
use driver_host::Work;
use edge_kit::Link;
use std::alloc::{AllocError, Global};

/// A session that ended, and how many starts before it ran out of memory.
#[derive(Drop)]
pub struct EndedLink<K> {
    pub out_of_memory: u64,
    pub link: K,
}

/// What came of starts, none of which failed.
#[derive(Drop)]
pub struct KeptLinks<K> {
    pub ended: Vec<EndedLink<K>>,
    /// How many starts after the last of these ran out of memory.
    pub out_of_memory: u64,
}

impl<K: Link> KeptLinks<K> {
    /// Nothing, with room for one session.
    pub fn with_room(alloc: Global) -> Result<KeptLinks<K>, AllocError>
        ensures had { IfOk result (λ k. kept_had K.seen k ≡ []) }
        ensures len { IfOk result (λ k. vec_len k.ended ≡ 0) }
    {
        Ok(KeptLinks {
            ended: Vec::with_capacity(alloc, 1)?,
            out_of_memory: 0,
        })
    }

    /// Takes room for so many sessions more.
    pub fn reserve(&mut self, more: usize) -> Result<(), AllocError>
        ensures had { kept_had K.seen self.new ≡ kept_had K.seen self.old }
        ensures empty { IsEmpty self.new → IsEmpty self.old }
        ensures len { vec_len self.new.ended ≡ vec_len self.old.ended }
        ensures capacity { vec_capacity self.old.ended ≤ vec_capacity self.new.ended }
        ensures room { OnOk result (vec_len self.new.ended + more ≤ vec_capacity self.new.ended) }
    {
        self.ended.reserve(more)
    }

    /// Whether nothing came of starts.
    pub fn is_empty(&self) -> bool
        ensures empty { result ≡ true → IsEmpty self.now }
        ensures had { result ≡ true → kept_had K.seen self.now ≡ [] }
    {
        self.ended.is_empty() && self.out_of_memory == 0
    }

    /// One more start ran out of memory.
    #[tactic(auto, using(crate::proofs::Sessions::had_one_waits))]
    pub fn count_out_of_memory(&mut self)
        requires { length (kept_had K.seen self.old) < 2 ^ 32 }
        ensures had { kept_had K.seen self.new ≡ kept_had K.seen self.old ++ StartOutOfMemory ∷ [] }
        ensures ended { self.new.ended ≡ self.old.ended }
        ensures some { IsEmpty self.new → ⊥ }
    {
        self.out_of_memory += 1;
    }

    /// Keeps a session that ended. There is room for it.
    #[tactic(auto, using(crate::proofs::Sessions::had_in_more, crate::proofs::Sessions::had_one_kept))]
    pub fn keep(&mut self, link: K)
        requires { vec_len self.old.ended < vec_capacity self.old.ended }
        ensures had { kept_had K.seen self.new ≡ kept_had K.seen self.old ++ session_had (K.seen link) ∷ [] }
        ensures len { vec_len self.new.ended ≡ vec_len self.old.ended + 1 }
        ensures capacity { vec_capacity self.new.ended ≡ vec_capacity self.old.ended }
        ensures some { IsEmpty self.new → ⊥ }
    {
        self.ended.push_reserved(EndedLink {
            out_of_memory: self.out_of_memory,
            link,
        });
        self.out_of_memory = 0;
    }
}

impl<L: Link, W: Work> KeptLinks<OnceLink<L, RunLink<W>>> {
    /// What the sessions tell of their drivers' answers is so, unless they are of the spawner below.
    pub(crate) fn serve(&self)
        ensures { TellNoAnswers L.seen → AreServed (kept_had (once_seen L.seen W.told) self.now) }
    {
        let ended = self.ended.as_slice();
        for session in ended {
            session.link.serves();
        }
    }
}
