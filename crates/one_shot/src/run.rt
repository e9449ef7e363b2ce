//! A command that runs once for each content.
ghost use Rattle.std.specs.Prelude.{◌≡◌, drop, IfOk};
ghost use Rattle.edge_kit.specs.Links.{IsNewLink};
ghost use Rattle.one_shot.specs.Replies.{run_seen};
ghost use Rattle.one_shot.specs.Starters.{IsRunOf};

use crate::once::OnceMaker;
use crate::run_link::RunLink;
use crate::work::OnceWork;
use byte_path::Bytes;
use driver_host::{Host, HostLink, Work};
use filter_words::Caps;
use std::alloc::{AllocError, Global};

/// What a host announces that runs a command.
const SMUDGE_ALONE: Caps = Caps {
    smudge: true,
    delay: false,
};

/// A command that runs once for each content.
#[derive(Drop)]
pub struct Run<M> {
    pub maker: M,
    /// A NUL, and the command.
    pub command: Bytes,
    /// Whether its links keep what is sent and taken.
    pub keeps: bool,
}

/// The command without its NUL.
fn without_nul(command: &[u8]) -> &[u8]
    ensures { result.now ≡ drop 1 command.now }
{
    match command {
        [_, run @ ..] => run,
        [] => &[],
    }
}

impl<M: OnceMaker> Run<M> {
    /// A command, which begins with a NUL, with a maker of its own.
    pub fn make(alloc: Global, maker: &M, command: &[u8], keeps: bool) -> Result<Run<M>, AllocError>
        ensures command { IfOk result (λ r. r.command ≡ command.now) }
        ensures keeps { IfOk result (λ r. r.keeps ≡ keeps) }
        ensures told { IfOk result (λ r. M.told r.maker ≡ M.told maker.now) }
    {
        Ok(Run {
            maker: maker.another()?,
            command: Bytes::copy_of(alloc, command)?,
            keeps,
        })
    }

    /// A link to a host that runs the command.
    #[tactic(auto, using(crate::proofs::RunLinks::plain_work, crate::proofs::RunLinks::same_bool))]
    pub fn begin(&mut self, alloc: Global) -> Result<RunLink<OnceWork<M::Once>>, AllocError>
        ensures fresh { IfOk result (λ l. IsNewLink
            (run_seen ⟦<OnceWork<M::Once> as Work>⟧.told l)) }
        ensures runs { IfOk result (λ l. IsRunOf ⟦<OnceWork<M::Once> as Work>⟧.told
            (M.told self.old.maker) self.old.keeps (drop 1 self.old.command) l) }
        ensures command { self.new.command ≡ self.old.command }
        ensures keeps { self.new.keeps ≡ self.old.keeps }
        ensures told { M.told self.new.maker ≡ M.told self.old.maker }
    {
        let once = self.maker.once()?;
        let work = OnceWork::make(alloc, once, without_nul(self.command.as_slice()))?;
        let host = Host::reserve(alloc, work, SMUDGE_ALONE, 1)?;
        Ok(RunLink::begin(HostLink::begin(alloc, host, self.keeps)))
    }
}
