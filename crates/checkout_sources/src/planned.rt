//! The plan, and the refusal that a fault of it becomes.
ghost use Rattle.std.specs.Prelude.{◌≡◌, ◌<◌, IfOk, length, Some, slice_get};
ghost use Rattle.checkout_plan.specs.Making.{MakesPlan, GivesBack};
ghost use Rattle.checkout_sources.specs.Sources.{HasSources};
ghost use Rattle.checkout_sources.specs.Reading.{IsPathAt, IsWithin, IsStopOf, ReadsPlan};

use crate::sources::{Sources, read_sources};
use crate::stop::{Refusal, Stop};
use byte_path::Bytes;
use checkout_core::ObjectKind;
use checkout_plan::{PathPlan, Plan, PlanFault, make_plan};
use edge_kit::Repo;
use git_index::Entry;
use std::alloc::{AllocError, Global};

/// A plan, with what the settings say of the workers.
#[derive(Drop)]
pub struct Planned {
    pub plan: Plan,
    /// `checkout.workers`, from 1 to 16.
    pub workers: u32,
    /// `checkout.thresholdForParallelism`, in files.
    pub threshold: u64,
}

/// The path of an entry.
fn path_of(alloc: Global, entries: &[Entry], number: u32) -> Result<Bytes, AllocError>
    requires { number < length entries.now }
    ensures { IfOk result (IsPathAt entries.now number) }
{
    Bytes::copy_of(alloc, entries[number as usize].path.as_slice())
}

/// The stop that a fault of the plan becomes.
pub(crate) fn stop_of(alloc: Global, entries: &[Entry], fault: PlanFault) -> Stop
    requires { IsWithin entries.now fault }
    ensures { IsStopOf entries.now fault result }
{
    match fault {
        PlanFault::AttributeRead(_) => Stop::ReadFault,
        PlanFault::Attribute(number, kind) => match path_of(alloc, entries, number) {
            Ok(path) => Stop::Refused(Refusal::Attribute(path, kind)),
            Err(_) => Stop::NoMemory,
        },
        PlanFault::AttributeTooLarge(number) => match path_of(alloc, entries, number) {
            Ok(path) => Stop::Refused(Refusal::AttributeTooLarge(path)),
            Err(_) => Stop::NoMemory,
        },
        PlanFault::TooManyDrivers(count) => Stop::Refused(Refusal::TooManyDrivers(count)),
        PlanFault::NoMemory => Stop::NoMemory,
    }
}

/// The plan from what was read.
fn plan_from<R: Repo>(alloc: Global, repo: &mut R, sources: Sources) -> Result<Planned, Stop>
    requires { HasSources (R.told repo.old) sources.index sources.settings sources.outer }
    ensures told { R.told repo.new ≡ R.told repo.old }
    ensures reads { ReadsPlan (R.told repo.old) (R.seen repo.old) (R.seen repo.new) result }
{
    let Sources {
        index,
        settings,
        outer,
        ..
    } = sources;
    match make_plan(alloc, &index, repo, outer, &settings) {
        Ok(plan) => Ok(Planned {
            plan,
            workers: settings.workers,
            threshold: settings.threshold,
        }),
        Err(fault) => Err(stop_of(alloc, index.entries(), fault)),
    }
}

/// The plan of a repository. The blobs of its attribute files are given back.
pub fn read_plan<R: Repo>(alloc: Global, repo: &mut R) -> Result<Planned, Stop>
    ensures told { R.told repo.new ≡ R.told repo.old }
    ensures reads { ReadsPlan (R.told repo.old) (R.seen repo.old) (R.seen repo.new) result }
{
    let sources = read_sources(alloc, repo)?;
    plan_from(alloc, repo, sources)
}
