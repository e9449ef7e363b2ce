//! The index and the configuration of a repository, with the plan that they make.
ghost use Rattle.std.specs.Prelude.{◌≡◌};
ghost use Rattle.checkout_sources.specs.Sources.{HasSources, IsConfigured};
ghost use Rattle.checkout_sources.specs.PlannedIndex.{ReadsPlannedIndex};

use crate::planned::stop_of;
use crate::sources::{Sources, read_sources};
use crate::stop::Stop;
use checkout_plan::{Plan, make_plan};
use edge_kit::Repo;
use git_config::Config;
use git_index::Index;
use std::alloc::Global;

/// An index with the configuration of its repository and the plan of a checkout.
#[derive(Drop)]
pub struct PlannedIndex {
    pub index: Index,
    pub config: Config,
    pub plan: Plan,
}

/// The plan of what was read. A repository that can't be checked out is refused here too.
fn planned_from<R: Repo>(
    alloc: Global,
    repo: &mut R,
    sources: Sources,
) -> Result<PlannedIndex, Stop>
    requires sources { HasSources (R.told repo.old) sources.index sources.settings sources.outer }
    requires config { IsConfigured (R.told repo.old).config sources.config sources.settings }
    ensures told { R.told repo.new ≡ R.told repo.old }
    ensures reads { ReadsPlannedIndex (R.told repo.old) (R.seen repo.old) (R.seen repo.new) result }
{
    let Sources {
        index,
        config,
        settings,
        outer,
    } = sources;
    match make_plan(alloc, &index, repo, outer, &settings) {
        Ok(plan) => Ok(PlannedIndex {
            index,
            config,
            plan,
        }),
        Err(fault) => Err(stop_of(alloc, index.entries(), fault)),
    }
}

/// The index of a repository, its configuration and the plan of a checkout. It is refused exactly as for the plan alone.
/// The blobs of the attribute files in the index are given back.
pub fn read_planned_index<R: Repo>(alloc: Global, repo: &mut R) -> Result<PlannedIndex, Stop>
    ensures told { R.told repo.new ≡ R.told repo.old }
    ensures reads { ReadsPlannedIndex (R.told repo.old) (R.seen repo.old) (R.seen repo.new) result }
{
    let sources = read_sources(alloc, repo)?;
    planned_from(alloc, repo, sources)
}
