//! The blobs and the leaves of a checkout, given back in path order, and its starters, in order of the drivers.
ghost use Rattle.std.specs.Prelude.{◌≡◌, ◌+◌, ◌≤◌, ◌++◌, [], length, map};
ghost use Rattle.edge_kit.specs.Joins.{leaf_back};
ghost use Rattle.edge_kit.specs.Seen.{blob_back};
ghost use Rattle.edge_kit.specs.Starters.{starter_back};
ghost use Rattle.checkout_paths.specs.Cards.{JoinAll};
ghost use Rattle.checkout_paths.specs.Dealing.{AreEnded};

use edge_kit::{Repo, Spawner, Worktree};

/// Gives blobs back, in their order.
pub fn give_blobs<R: Repo>(repo: &mut R, blobs: Vec<R::Blob>)
    requires { length blobs.items ≤ (R.seen repo.old).out }
    ensures told { R.told repo.new ≡ R.told repo.old }
    ensures out { (R.seen repo.new).out + length blobs.items ≡ (R.seen repo.old).out }
    ensures back { R.seen repo.new ≡ record (R.seen repo.old) {
      out = (R.seen repo.new).out;
      returned = (R.seen repo.old).returned ++ map (λ b. blob_back (R.Blob.seen b)) blobs.items;
    } }
{
    for blob in blobs {
        repo.take_back(blob);
    }
}

/// Gives leaves back, in their order. Their files join the worktree's.
pub fn give_leaves<T: Worktree>(tree: &mut T, leaves: Vec<T::Leaf>)
    requires { length leaves.items ≤ (T.seen tree.old).out }
    ensures faults { (T.seen tree.new).faults ≡ (T.seen tree.old).faults }
    ensures out { (T.seen tree.new).out + length leaves.items ≡ (T.seen tree.old).out }
    ensures back { (T.seen tree.new).returned
        ≡ (T.seen tree.old).returned ++ map (λ l. leaf_back (T.Leaf.seen l)) leaves.items }
    ensures files { JoinAll (map T.Leaf.seen leaves.items) (T.seen tree.old).files (T.seen tree.new).files }
    ensures none { leaves.items ≡ [] → T.seen tree.new ≡ T.seen tree.old }
{
    for leaf in leaves {
        tree.take_back(leaf);
    }
}

/// Gives starters back, in their order. None of their links is out.
pub fn give_starters<P: Spawner>(spawner: &mut P, starters: Vec<P::Starter>)
    requires given { length starters.items ≤ (P.seen spawner.old).out }
    requires ended { AreEnded P.Starter.seen starters.items }
    ensures told { P.told spawner.new ≡ P.told spawner.old }
    ensures out { (P.seen spawner.new).out + length starters.items ≡ (P.seen spawner.old).out }
    ensures back { P.seen spawner.new ≡ record (P.seen spawner.old) {
      out = (P.seen spawner.new).out;
      returned = (P.seen spawner.old).returned ++ map (λ s. starter_back (P.Starter.seen s)) starters.items;
    } }
{
    for starter in starters {
        spawner.take_back(starter);
    }
}
