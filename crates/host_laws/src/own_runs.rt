//! That the sessions of single runs over the spawners below tell nothing false.
ghost use Rattle.one_shot.specs.Spawners.{AllServed, IsPlainBelow};
ghost use Rattle.host_laws.specs.SingleRuns.{OwnRunsAreHeard};

use crate::single_runs::single_runs_are_heard;
use edge_adapters::{ProcessLink, ProcessSpawner, ProcessStarter};
use edge_kit::{Link, MemoryLink, MemorySpawner, MemoryStarter, Spawner, Starter};
use one_shot::{OnceMaker, OnceSpawner};

/// No link of the spawners in memory and of child processes tells how its driver answers.
pub fn spawners_below_are_plain()
    ensures memory { IsPlainBelow ⟦<MemorySpawner as Spawner>⟧.seen ⟦<MemoryStarter as Starter>⟧.seen
        ⟦<MemoryLink as Link>⟧.seen }
    ensures processes { IsPlainBelow ⟦<ProcessSpawner as Spawner>⟧.seen ⟦<ProcessStarter as Starter>⟧.seen
        ⟦<ProcessLink as Link>⟧.seen }
{}

/// Each session that was given back and tells how its driver answers is a talk with a host that makes these choices.
pub fn runs_over_memory_are_served<M: OnceMaker + Send>(spawner: &OnceSpawner<MemorySpawner, M>)
where
    M::Once: Send,
    ensures { AllServed (⟦<OnceSpawner<MemorySpawner, M> as Spawner>⟧.seen spawner.now).returned }
{
    spawners_below_are_plain();
    spawner.sessions_are_served();
}

/// Sessions over the spawner of child processes tell truly how their drivers answer.
pub fn runs_over_processes_are_served<M: OnceMaker + Send>(spawner: &OnceSpawner<ProcessSpawner, M>)
where
    M::Once: Send,
    ensures { AllServed (⟦<OnceSpawner<ProcessSpawner, M> as Spawner>⟧.seen spawner.now).returned }
{
    spawners_below_are_plain();
    spawner.sessions_are_served();
}

/// A checkout that left this spawner of single runs so wrote for a driver that is a command the output that the command
/// gave, or refused the path, as the law of single runs says.
pub fn runs_over_memory_are_heard<M: OnceMaker + Send>(spawner: &OnceSpawner<MemorySpawner, M>)
where
    M::Once: Send,
    ensures { OwnRunsAreHeard (⟦<OnceSpawner<MemorySpawner, M> as Spawner>⟧.told spawner.now)
        (⟦<OnceSpawner<MemorySpawner, M> as Spawner>⟧.seen spawner.now) }
{
    runs_over_memory_are_served(spawner);
    single_runs_are_heard();
}

/// Paths under a command are heard over the spawner of child processes.
pub fn runs_over_processes_are_heard<M: OnceMaker + Send>(spawner: &OnceSpawner<ProcessSpawner, M>)
where
    M::Once: Send,
    ensures { OwnRunsAreHeard (⟦<OnceSpawner<ProcessSpawner, M> as Spawner>⟧.told spawner.now)
        (⟦<OnceSpawner<ProcessSpawner, M> as Spawner>⟧.seen spawner.now) }
{
    runs_over_processes_are_served(spawner);
    single_runs_are_heard();
}
