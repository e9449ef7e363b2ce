//! The maker of the starters of long-running drivers and of single runs.
ghost use Rattle.std.specs.Prelude.{◌≡◌, ◌≤◌, ◌<◌, ◌+◌, ◌∷◌, ◌++◌, [], IfOk, OnOk, OnErr, vec_len, vec_capacity};
ghost use Rattle.edge_kit.specs.Starters.{new_starter, starter_back};
ghost use Rattle.one_shot.specs.Replies.{once_seen};
ghost use Rattle.one_shot.specs.Starters.{is_single_run, starter_seen};
ghost use Rattle.one_shot.specs.Spawners.{commands_tell, all_back, RunsBy, AllServed, IsPlainBelow};

use crate::kept::KeptLinks;
use crate::once::OnceMaker;
use crate::run::Run;
use crate::starter::{LinkOf, OnceStarter, Source};
use crate::work::OnceWork;
use driver_host::Work;
use edge_kit::{Spawner, Starter};
use std::alloc::{AllocError, Global};

/// A starter of long-running drivers and of single runs over those of this spawner.
pub type StarterOf<P: Spawner, M: OnceMaker> = OnceStarter<P::Starter, M, LinkOf<P::Starter, M>>;

/// A spawner over another one. A command that begins with a NUL is the rest of it, run once for each content.
#[derive(Drop)]
pub struct OnceSpawner<P: Spawner, M: OnceMaker> {
    alloc: Global,
    inner: P,
    maker: M,
    keeps: bool,
    // the starters that were given back, in order: none for one that went to the spawner below
    back: Vec<Option<StarterOf<P, M>>>,
    // how many starters of the spawner below are out
    lent: usize,
    out: usize,
    // there is room for each starter that is out
    ghost room: { vec_len back + out ≤ vec_capacity back },
    ghost lends: { lent ≤ (P.seen inner).out },
}

/// Whether a command is a single run.
fn is_single_run(command: &[u8]) -> bool
    ensures { result ≡ is_single_run command.now }
{
    matches!(command, [0, ..])
}

impl<P: Spawner, M: OnceMaker + Send> OnceSpawner<P, M>
where
    M::Once: Send,
{
    /// A spawner over this one, which runs single runs by this maker. The links to them keep what is sent and taken if
    /// `keeps`.
    pub fn new(alloc: Global, inner: P, maker: M, keeps: bool) -> OnceSpawner<P, M>
        ensures told { ⟦<OnceSpawner<P, M> as Spawner>⟧.told result ≡
            commands_tell (P.told inner) keeps (M.told maker) }
        ensures returned { (⟦<OnceSpawner<P, M> as Spawner>⟧.seen result).returned ≡ (P.seen inner).returned }
        ensures out { (⟦<OnceSpawner<P, M> as Spawner>⟧.seen result).out ≡ 0 }
        ensures maker { result.maker ≡ maker }
        ensures keeps { result.keeps ≡ keeps }
    {
        OnceSpawner {
            alloc,
            inner,
            maker,
            keeps,
            back: Vec::new(alloc),
            lent: 0,
            out: 0,
        }
    }

    /// Each session that was given back and tells how its driver answers is a talk with a host that makes these
    /// choices, if the spawner below tells nothing of this.
    pub fn sessions_are_served(&self)
        ensures { IsPlainBelow P.seen P.Starter.seen P.Starter.Link.seen
            → AllServed (⟦<OnceSpawner<P, M> as Spawner>⟧.seen self.now).returned }
    {
        let back = self.back.as_slice();
        for starter in back {
            match starter {
                Some(starter) => starter.kept.serve(),
                None => {}
            }
        }
    }

    /// The spawner of the other commands.
    pub fn inner(&self) -> &P
        ensures { result.now ≡ self.now.inner }
    {
        &self.inner
    }
}

impl<P: Spawner, M: OnceMaker + Send> Spawner for OnceSpawner<P, M>
where
    M::Once: Send,
{
    type Starter = StarterOf<P, M>;

    ghost told = { λ s. commands_tell (P.told s.inner) s.keeps (M.told s.maker) };

    ghost seen = { λ s. record {
      returned = all_back (λ t. starter_back (starter_seen P.Starter.seen M.told
          (once_seen P.Starter.Link.seen ⟦<OnceWork<M::Once> as Work>⟧.told)
          t.source t.kept t.out)) s.back.items (P.seen s.inner).returned;
      out = s.out;
    } };

    fn starter(&mut self, command: &[u8]) -> Result<StarterOf<P, M>, AllocError>
        ensures told { let told = ⟦<OnceSpawner<P, M> as Spawner>⟧.told in told self.new ≡ told self.old }
        ensures starter { let told = ⟦<OnceSpawner<P, M> as Spawner>⟧.told in
            let seen = ⟦<StarterOf<P, M> as Starter>⟧.seen in
            IfOk result (λ s. seen s ≡ new_starter command.now (told self.old command.now)) }
        ensures out { let seen = ⟦<OnceSpawner<P, M> as Spawner>⟧.seen in
            OnOk result (seen self.new ≡ record (seen self.old) { out = (seen self.old).out + 1 }) }
        ensures kept { let seen = ⟦<OnceSpawner<P, M> as Spawner>⟧.seen in
            OnErr result (seen self.new ≡ seen self.old) }
        ensures runs { IfOk result
            (λ s. RunsBy M.told self.old.maker self.old.keeps command.now s.source) }
    {
        self.back.reserve(self.out + 1)?;
        let kept = KeptLinks::with_room(self.alloc)?;
        if is_single_run(command) {
            let run = Run::make(self.alloc, &self.maker, command, self.keeps)?;
            self.out += 1;
            return Ok(OnceStarter {
                alloc: self.alloc,
                source: Source::Single(run),
                kept,
                out: 0,
            });
        }
        let starter = self.inner.starter(command)?;
        self.lent = self.lent.saturating_add(1);
        self.out += 1;
        Ok(OnceStarter {
            alloc: self.alloc,
            source: Source::Inner(starter),
            kept,
            out: 0,
        })
    }

    /// A starter of the spawner below that has all that came of its starts goes back to it.
    fn take_back(&mut self, starter: StarterOf<P, M>) {
        let OnceStarter {
            alloc,
            source,
            kept,
            out,
        } = starter;
        self.out -= 1;
        match source {
            Source::Inner(starter) if self.lent > 0 && kept.is_empty() => {
                self.inner.take_back(starter);
                self.lent -= 1;
                self.back.push_reserved(None);
            }
            Source::Inner(starter) => self.back.push_reserved(Some(OnceStarter {
                alloc,
                source: Source::Inner(starter),
                kept,
                out,
            })),
            Source::Single(run) => self.back.push_reserved(Some(OnceStarter {
                alloc,
                source: Source::Single(run),
                kept,
                out,
            })),
        }
    }
}
