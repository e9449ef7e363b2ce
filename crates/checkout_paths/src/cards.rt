//! The cards of a plan's open paths.
ghost use Rattle.std.specs.Prelude.{◌≡◌, ◌+◌, ◌≤◌, ◌<◌, ◌^◌, ℕ, IfOk, OnOk, OnErr, length};
ghost use Rattle.std.specs.List.{filter};
ghost use Rattle.std.specs.Str.{IsUtf8};
ghost use Rattle.edge_kit.specs.Seen.{RepoSeen, TreeSeen};
ghost use Rattle.checkout_book.specs.Reserving.{AreNew};
ghost use Rattle.checkout_book.specs.Sights.{sight, seen};
ghost use Rattle.checkout_paths.specs.Cards.{AreCards, IsCardFor, AreTexts, is_of};
ghost use Rattle.checkout_paths.specs.Made.{HasCards};
ghost use Rattle.checkout_paths.specs.Workers.{starts_of};

use byte_path::Bytes;
use checkout_core::Start;
use checkout_plan::PathPlan;
use convert_plan::Card;
use edge_kit::{Repo, Worktree};
use std::alloc::{AllocError, Global};

/// How each path starts.
pub fn starts_of(alloc: Global, paths: &[PathPlan]) -> Result<Vec<Start>, AllocError>
    ensures { IfOk result (λ v. v.items ≡ starts_of paths.now) }
{
    Ok(paths.iter().map(|path| path.start).collect(alloc)?)
}

/// Whether a path that starts so is the pool's, or is at the desk of that driver.
fn is_of(owner: Option<u32>, start: Start) -> bool
    ensures { result ≡ is_of owner start }
{
    match (owner, start) {
        (None, Start::Pool) => true,
        (Some(number), Start::Desk { driver, .. }) => number == driver,
        _ => false,
    }
}

/// How many paths are the pool's, or are at the desk of that driver.
pub fn count_of(paths: &[PathPlan], owner: Option<u32>) -> usize
    ensures { result ≡ length (filter (λ p. is_of owner p.start) paths.now) }
{
    paths.iter().filter(|path| is_of(owner, path.start)).count()
}

/// The new card of the path with this number, which is text. If memory runs out, nothing of it is out.
fn new_card<R: Repo, T: Worktree>(
    alloc: Global,
    repo: &mut R,
    tree: &mut T,
    number: u32,
    path: &PathPlan,
) -> Result<Card<R::Blob, T::Leaf>, AllocError>
    requires { IsUtf8 path.now.path }
    ensures told { R.told repo.new ≡ R.told repo.old }
    ensures repo { OnOk result (R.seen repo.new
        ≡ record (R.seen repo.old) { out = (R.seen repo.old).out + 1 }) }
    ensures tree { OnOk result (T.seen tree.new
        ≡ record (T.seen tree.old) { out = (T.seen tree.old).out + 1 }) }
    ensures none { OnErr result
        (HasCards 0 (R.seen repo.old) (R.seen repo.new) (T.seen tree.old) (T.seen tree.new)) }
    ensures number { IfOk result (λ c. c.path ≡ number) }
    ensures card { IfOk result (λ c. IsCardFor (R.told repo.old).object number path.now
        (seen (sight R.Blob.told R.Blob.seen T.Leaf.seen) c)) }
{
    let Ok(name) = str::from_utf8(path.path.as_slice()) else {
        unreachable!()
    };
    let text = Bytes::copy_of(alloc, path.path.as_slice())?;
    let blob = repo.blob(&path.object)?;
    let leaf = match tree.leaf_for(name, path.mark) {
        Ok(leaf) => leaf,
        Err(AllocError) => {
            repo.take_back(blob);
            return Err(AllocError);
        }
    };
    let object = path.object;
    Ok(Card {
        path: number,
        text,
        object,
        mark: path.mark,
        conversion: path.conversion,
        blob,
        leaf,
        ready: None,
    })
}

/// Gives cards back that were never used: their blobs and leaves.
pub fn give_cards<R: Repo, T: Worktree>(
    repo: &mut R,
    tree: &mut T,
    cards: Vec<Card<R::Blob, T::Leaf>>,
)
    requires new { AreNew (sight R.Blob.told R.Blob.seen T.Leaf.seen) cards.items }
    requires blobs { length cards.items ≤ (R.seen repo.old).out }
    requires leaves { length cards.items ≤ (T.seen tree.old).out }
    ensures told { R.told repo.new ≡ R.told repo.old }
    ensures blobs_out { (R.seen repo.new).out + length cards.items ≡ (R.seen repo.old).out }
    ensures leaves_out { (T.seen tree.new).out + length cards.items ≡ (T.seen tree.old).out }
    ensures back { (n : ℕ) (repo0 : RepoSeen) (tree0 : TreeSeen)
        → HasCards (n + length cards.items) repo0 (R.seen repo.old) tree0 (T.seen tree.old)
        → HasCards n repo0 (R.seen repo.new) tree0 (T.seen tree.new) }
{
    for card in cards {
        let Card { blob, leaf, .. } = card;
        repo.take_back(blob);
        tree.take_back(leaf);
    }
}

/// The new cards of the paths that are the pool's, or are at the desk of that driver, in path order. They hold no
/// content. If memory runs out, those that were made are given back.
pub fn cards_of<R: Repo, T: Worktree>(
    alloc: Global,
    repo: &mut R,
    tree: &mut T,
    paths: &[PathPlan],
    owner: Option<u32>,
) -> Result<Vec<Card<R::Blob, T::Leaf>>, AllocError>
    requires few { length paths.now < 2 ^ 32 }
    requires texts { AreTexts paths.now }
    ensures told { R.told repo.new ≡ R.told repo.old }
    ensures repo { IfOk result (λ v. R.seen repo.new
        ≡ record (R.seen repo.old) { out = (R.seen repo.old).out + length v.items }) }
    ensures tree { IfOk result (λ v. T.seen tree.new
        ≡ record (T.seen tree.old) { out = (T.seen tree.old).out + length v.items }) }
    ensures none { OnErr result
        (HasCards 0 (R.seen repo.old) (R.seen repo.new) (T.seen tree.old) (T.seen tree.new)) }
    ensures new { IfOk result (λ v. AreNew (sight R.Blob.told R.Blob.seen T.Leaf.seen) v.items) }
    ensures cards { IfOk result (λ v. AreCards owner (sight R.Blob.told R.Blob.seen T.Leaf.seen)
        (R.told repo.old).object paths.now v.items) }
{
    let mut cards = Vec::with_capacity(alloc, count_of(paths, owner))?;
    for (place, path) in paths.iter().enumerate() {
        if is_of(owner, path.start) {
            match new_card(alloc, repo, tree, place as u32, path) {
                Ok(card) => cards.push_reserved(card),
                Err(AllocError) => {
                    give_cards(repo, tree, cards);
                    return Err(AllocError);
                }
            }
        }
    }
    Ok(cards)
}
