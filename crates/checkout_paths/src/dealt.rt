//! What the workers and the desks of a checkout begin with.
ghost use Rattle.std.specs.Prelude.{◌≡◌, ◌+◌, ◌<◌, ◌^◌, ◌++◌, ℕ, List, IfOk, OnErr, Some, None, length};
ghost use Rattle.checkout_book.specs.Reserving.{AreNew};
ghost use Rattle.checkout_book.specs.Sights.{sight};
ghost use Rattle.writer_pool.specs.Pools.{seed_cards};
ghost use Rattle.checkout_paths.specs.Cards.{AreCards, AreTexts};
ghost use Rattle.checkout_paths.specs.Dealing.{IsSeedFor, AreSeedsFor, AreUnused, IsWork};
ghost use Rattle.checkout_paths.specs.Made.{HasCards, HasMade, AreOut, AreBack, NoneOut};

use crate::cards::{cards_of, give_cards};
use crate::work::PlannedWork;
use checkout_plan::PathPlan;
use convert_plan::Card;
use edge_kit::{Blob, Leaf, Repo, Spawner, Worktree};
use settings_view::Driver;
use std::alloc::{AllocError, Global};
use writer_pool::DeskSeed;

/// The cards of a checkout, and the starters of its drivers.
#[derive(Drop)]
pub struct Dealt<S, B: Blob, L: Leaf> {
    /// The cards of the paths that start in the pool.
    pub pool: Vec<Card<B, L>>,
    /// What the desk of each driver begins with, in order of the drivers.
    pub desks: Vec<DeskSeed<S, B, L>>,
}

/// The desk of a driver, for which a seed is made.
#[derive(Clone, Copy)]
struct DeskPlan<'a> {
    /// The paths of the plan, also those of others.
    paths: &'a [PathPlan],
    number: u32,
    driver: &'a Driver,
}

/// What this desk begins with. If memory runs out, nothing of it is out.
fn new_seed<R: Repo, T: Worktree, P: Spawner>(
    alloc: Global,
    repo: &mut R,
    tree: &mut T,
    spawner: &mut P,
    desk: &DeskPlan<'_>,
) -> Result<DeskSeed<P::Starter, R::Blob, T::Leaf>, AllocError>
    requires few { length desk.now.paths.now < 2 ^ 32 }
    requires texts { AreTexts desk.now.paths.now }
    requires command { (command : List ℕ) × (desk.now.driver.now.process ≡ Some command) }
    ensures told { R.told repo.new ≡ R.told repo.old }
    ensures starts { P.told spawner.new ≡ P.told spawner.old }
    ensures made { IfOk result (λ x. HasMade (length x.cards.items) 1 (R.seen repo.old) (R.seen repo.new)
        (T.seen tree.old) (T.seen tree.new) (P.seen spawner.old) (P.seen spawner.new)) }
    ensures none { OnErr result ((P.seen spawner.new ≡ P.seen spawner.old)
        × HasCards 0 (R.seen repo.old) (R.seen repo.new) (T.seen tree.old) (T.seen tree.new)) }
    ensures seed { IfOk result (λ x. IsSeedFor P.Starter.seen (sight R.Blob.told R.Blob.seen T.Leaf.seen)
        (P.told spawner.old) (R.told repo.old).object desk.now.paths.now desk.now.number desk.now.driver.now x) }
{
    let Some(command) = &desk.driver.process else {
        unreachable!()
    };
    let cards = cards_of(alloc, repo, tree, desk.paths, Some(desk.number))?;
    let starter = match spawner.starter(command.as_slice()) {
        Ok(starter) => starter,
        Err(AllocError) => {
            give_cards(repo, tree, cards);
            return Err(AllocError);
        }
    };
    Ok(DeskSeed {
        required: desk.driver.required,
        starter,
        cards,
    })
}

/// Gives back what desks were to begin with and never used: their cards and their starters.
fn give_seeds<R: Repo, T: Worktree, P: Spawner>(
    repo: &mut R,
    tree: &mut T,
    spawner: &mut P,
    desks: Vec<DeskSeed<P::Starter, R::Blob, T::Leaf>>,
)
    requires unused { AreUnused P.Starter.seen (sight R.Blob.told R.Blob.seen T.Leaf.seen) desks.items }
    requires out { AreOut (length (seed_cards desks.items)) (length desks.items)
        (R.seen repo.old) (T.seen tree.old) (P.seen spawner.old) }
    ensures told { R.told repo.new ≡ R.told repo.old }
    ensures starts { P.told spawner.new ≡ P.told spawner.old }
    ensures back { AreBack (length (seed_cards desks.items)) (length desks.items) (R.seen repo.old) (R.seen repo.new)
        (T.seen tree.old) (T.seen tree.new) (P.seen spawner.old) (P.seen spawner.new) }
{
    for seed in desks {
        let DeskSeed { starter, cards, .. } = seed;
        give_cards(repo, tree, cards);
        spawner.take_back(starter);
    }
}

/// What the desk of each driver begins with, in order of the drivers. If memory runs out, all that was made is given
/// back, unused.
fn seeds_of<R: Repo, T: Worktree, P: Spawner>(
    alloc: Global,
    repo: &mut R,
    tree: &mut T,
    spawner: &mut P,
    work: &PlannedWork<'_>,
) -> Result<Vec<DeskSeed<P::Starter, R::Blob, T::Leaf>>, AllocError>
    requires { IsWork work.now.paths.now work.now.drivers.now }
    ensures told { R.told repo.new ≡ R.told repo.old }
    ensures starts { P.told spawner.new ≡ P.told spawner.old }
    ensures made { IfOk result (λ v. HasMade (length (seed_cards v.items)) (length v.items)
        (R.seen repo.old) (R.seen repo.new) (T.seen tree.old) (T.seen tree.new)
        (P.seen spawner.old) (P.seen spawner.new)) }
    ensures none { OnErr result (NoneOut (R.seen repo.old) (R.seen repo.new) (T.seen tree.old) (T.seen tree.new)
        (P.seen spawner.old) (P.seen spawner.new)) }
    ensures new { IfOk result (λ v. AreNew (sight R.Blob.told R.Blob.seen T.Leaf.seen) (seed_cards v.items)) }
    ensures seeds { IfOk result (λ v. AreSeedsFor P.Starter.seen (sight R.Blob.told R.Blob.seen T.Leaf.seen)
        (P.told spawner.old) (R.told repo.old).object work.now.paths.now 0 work.now.drivers.now v.items) }
{
    let paths = work.paths;
    let drivers = work.drivers;
    let mut desks = Vec::with_capacity(alloc, drivers.len())?;
    for (place, driver) in drivers.iter().enumerate() {
        let number = place as u32;
        let desk = DeskPlan {
            paths,
            number,
            driver,
        };
        match new_seed(alloc, repo, tree, spawner, &desk) {
            Ok(seed) => desks.push_reserved(seed),
            Err(AllocError) => {
                give_seeds(repo, tree, spawner, desks);
                return Err(AllocError);
            }
        }
    }
    Ok(desks)
}

/// Makes the cards of all open paths, and a starter for each driver, in order of the drivers. If memory runs out, all
/// that was made is given back, unused.
pub fn deal<R: Repo, T: Worktree, P: Spawner>(
    alloc: Global,
    repo: &mut R,
    tree: &mut T,
    spawner: &mut P,
    work: &PlannedWork<'_>,
) -> Result<Dealt<P::Starter, R::Blob, T::Leaf>, AllocError>
    requires { IsWork work.now.paths.now work.now.drivers.now }
    ensures told { R.told repo.new ≡ R.told repo.old }
    ensures starts { P.told spawner.new ≡ P.told spawner.old }
    ensures made { IfOk result (λ r. HasMade (length (r.pool.items ++ seed_cards r.desks.items))
        (length work.now.drivers.now) (R.seen repo.old) (R.seen repo.new) (T.seen tree.old) (T.seen tree.new)
        (P.seen spawner.old) (P.seen spawner.new)) }
    ensures none { OnErr result (NoneOut (R.seen repo.old) (R.seen repo.new) (T.seen tree.old) (T.seen tree.new)
        (P.seen spawner.old) (P.seen spawner.new)) }
    ensures new { IfOk result (λ r. AreNew (sight R.Blob.told R.Blob.seen T.Leaf.seen)
        (r.pool.items ++ seed_cards r.desks.items)) }
    ensures pool { IfOk result (λ r. AreCards None (sight R.Blob.told R.Blob.seen T.Leaf.seen)
        (R.told repo.old).object work.now.paths.now r.pool.items) }
    ensures desks { IfOk result (λ r. AreSeedsFor P.Starter.seen (sight R.Blob.told R.Blob.seen T.Leaf.seen)
        (P.told spawner.old) (R.told repo.old).object work.now.paths.now 0 work.now.drivers.now r.desks.items) }
{
    let pool = cards_of(alloc, repo, tree, work.paths, None)?;
    match seeds_of(alloc, repo, tree, spawner, work) {
        Ok(desks) => Ok(Dealt { pool, desks }),
        Err(AllocError) => {
            give_cards(repo, tree, pool);
            Err(AllocError)
        }
    }
}
