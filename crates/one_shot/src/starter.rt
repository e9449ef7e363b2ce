//! What starts a long-running driver, or a host that stands for one.
ghost use Rattle.std.specs.Prelude.{◌≡◌, ◌≤◌, ◌<◌, ◌+◌, ◌^◌, ◌++◌, ◌∷◌, [], ℕ, List, Bool, IfOk, IfErr, OnErr, length};
ghost use Rattle.std.specs.Prelude.{vec_len, vec_capacity};
ghost use Rattle.edge_kit.specs.Starters.{StartsOne, session_had};
ghost use Rattle.one_shot.specs.Replies.{once_seen};
ghost use Rattle.one_shot.specs.Starters.{IsEmpty, starter_seen, out_below, Serves};
ghost use Rattle.one_shot.specs.Spawners.{RunsBy};

use crate::kept::KeptLinks;
use crate::link::OnceLink;
use crate::once::OnceMaker;
use crate::run::Run;
use crate::run_link::RunLink;
use crate::work::OnceWork;
use driver_host::Work;
use edge_kit::{Link, SendFault, Starter};
use std::alloc::Global;

/// What gives the links of a starter.
#[derive(Drop)]
pub enum Source<S, M> {
    /// A starter of the spawner below.
    Inner(S),
    /// A command that runs once for each content.
    Single(Run<M>),
}

/// A link of a starter: one of the starter below, or one to a host that runs a command.
pub type LinkOf<S: Starter, M: OnceMaker> = OnceLink<S::Link, RunLink<OnceWork<M::Once>>>;

/// Starts a long-running driver, or a host that stands for one.
#[derive(Drop)]
pub struct OnceStarter<S: Starter, M, K> {
    pub(crate) alloc: Global,
    pub(crate) source: Source<S, M>,
    // the sessions that its source doesn't have
    pub(crate) kept: KeptLinks<K>,
    pub(crate) out: usize,
    // there is room for each link that is out
    ghost room: { vec_len kept.ended + out ≤ vec_capacity kept.ended },
    // until something is kept, a starter below has just these links out
    ghost lends: { IsEmpty kept → out_below S.seen source out ≡ out },
}

impl<S: Starter, M: OnceMaker> Starter for OnceStarter<S, M, LinkOf<S, M>>
where
    M::Once: Send,
{
    type Link = LinkOf<S, M>;

    ghost seen = { λ s.
        starter_seen S.seen M.told (once_seen S.Link.seen ⟦<OnceWork<M::Once> as Work>⟧.told) s.source s.kept s.out };

    /// A starter below starts nothing more once a link ended here that isn't its own, or once there was no room.
    fn start(&mut self) -> Result<LinkOf<S, M>, SendFault>
        requires { let seen = ⟦<OnceStarter<S, M, LinkOf<S, M>> as Starter>⟧.seen in
            length (seen self.old).had < 2 ^ 32 }
        ensures started { let seen = ⟦<OnceStarter<S, M, LinkOf<S, M>> as Starter>⟧.seen in
            StartsOne (once_seen S.Link.seen ⟦<OnceWork<M::Once> as Work>⟧.told)
            (seen self.old) (seen self.new) result }
        ensures serves { Serves M.told ⟦<OnceWork<M::Once> as Work>⟧.told self.old.source result }
        ensures stays { (maker : M) (keeps : Bool) (command : List ℕ)
            → RunsBy M.told maker keeps command self.old.source
            → RunsBy M.told maker keeps command self.new.source }
    {
        if self.kept.reserve(self.out + 1).is_err() {
            self.kept.count_out_of_memory();
            return Err(SendFault::NoMemory);
        }
        let is_whole = self.kept.is_empty();
        match &mut self.source {
            Source::Inner(starter) if is_whole => match starter.start() {
                Ok(link) => {
                    self.out += 1;
                    Ok(OnceLink::Inner(link))
                }
                Err(fault) => Err(fault),
            },
            Source::Inner(_) => {
                self.kept.count_out_of_memory();
                Err(SendFault::NoMemory)
            }
            Source::Single(run) => match run.begin(self.alloc) {
                Ok(link) => {
                    self.out += 1;
                    Ok(OnceLink::Hosted(link))
                }
                Err(_) => {
                    self.kept.count_out_of_memory();
                    Err(SendFault::NoMemory)
                }
            },
        }
    }

    fn end(&mut self, link: LinkOf<S, M>)
        requires { let seen = ⟦<OnceStarter<S, M, LinkOf<S, M>> as Starter>⟧.seen in
            0 < (seen self.old).out }
        ensures out { let seen = ⟦<OnceStarter<S, M, LinkOf<S, M>> as Starter>⟧.seen in
            (seen self.new).out + 1 ≡ (seen self.old).out }
        ensures back { let seen = ⟦<OnceStarter<S, M, LinkOf<S, M>> as Starter>⟧.seen in
            seen self.new ≡ record (seen self.old) {
              had = (seen self.old).had
                  ++ session_had (once_seen S.Link.seen ⟦<OnceWork<M::Once> as Work>⟧.told link) ∷ [];
              out = (seen self.new).out;
            } }
        ensures stays { (maker : M) (keeps : Bool) (command : List ℕ)
            → RunsBy M.told maker keeps command self.old.source
            → RunsBy M.told maker keeps command self.new.source }
    {
        let is_whole = self.kept.is_empty();
        match (&mut self.source, link) {
            (Source::Inner(starter), OnceLink::Inner(link)) if is_whole => starter.end(link),
            (_, link) => self.kept.keep(link),
        }
        self.out -= 1;
    }
}
