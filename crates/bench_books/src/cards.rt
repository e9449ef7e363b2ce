// New cards, and a card as its desk hands it back.
ghost use Rattle.std.specs.Prelude.{◌≡◌, IfOk, IfSome};
ghost use Rattle.convert_plan.specs.Card.{IsNewCard, IsRefusedCard};
ghost use Rattle.checkout_book.specs.Sights.{sight, seen};
ghost use Rattle.bench_books.specs.Pools.{IsPool};

use byte_path::{Bytes, ObjectId};
use checkout_core::Start;
use convert_plan::{Card, Conversion, prepare};
use edge_kit::{Blob, Leaf, Mark, Repo, Worktree};
use eol_convert::Action;
use object_dir::read_blob;
use std::alloc::{AllocError, Global};

/// A new card of the path with this number, for this object.
pub fn new_card<R: Repo, W: Worktree>(
    alloc: Global,
    repo: &mut R,
    tree: &mut W,
    path: u32,
    object: &ObjectId,
) -> Result<Card<R::Blob, W::Leaf>, AllocError>
    ensures path { IfOk result (λ c. c.path ≡ path) }
    ensures new { IfOk result (λ c. IsNewCard (seen (sight R.Blob.told R.Blob.seen W.Leaf.seen) c)) }
{
    let name = "f";
    let text = Bytes::copy_of(alloc, name.as_bytes())?;
    let leaf = tree.leaf(name)?;
    let blob = repo.blob(object)?;
    Ok(Card {
        path,
        text,
        object: *object,
        mark: Mark::Plain,
        conversion: Conversion {
            ident: false,
            action: Action::Binary,
            encoding: None,
        },
        blob,
        leaf,
        ready: None,
    })
}

/// The new cards of a pool.
pub struct NewCards<B: Blob, L: Leaf> {
    pub cards: Vec<Card<B, L>>,
    pub starts: Vec<Start>,
}

/// So many new cards of a pool, with their starts. Their object isn't there.
pub fn new_cards<R: Repo, W: Worktree>(
    alloc: Global,
    repo: &mut R,
    tree: &mut W,
    count: u32,
) -> Result<NewCards<R::Blob, W::Leaf>, AllocError>
    ensures pool { IfOk result (λ r. IsPool (sight R.Blob.told R.Blob.seen W.Leaf.seen) count
        r.starts.items r.cards.items) }
{
    let object = [7; 20];
    let mut cards = Vec::with_capacity(alloc, count as usize)?;
    let mut starts = Vec::with_capacity(alloc, count as usize)?;
    for path in 0..count {
        let card = new_card(alloc, repo, tree, path, &object)?;
        cards.push(card)?;
        starts.push(Start::Pool)?;
    }
    Ok(NewCards { cards, starts })
}

/// A new card as its desk hands it back, with its content prepared. `None` where its object can't be read, or memory
/// runs out.
pub fn refused_card<B: Blob, L: Leaf>(alloc: Global, mut card: Card<B, L>) -> Option<Card<B, L>>
    requires { IsNewCard (seen (sight B.told B.seen L.seen) card) }
    ensures { IfSome result (λ r. IsRefusedCard (seen (sight B.told B.seen L.seen) card)
        (seen (sight B.told B.seen L.seen) r)) }
{
    let Ok(content) = read_blob(alloc, &mut card.blob, &card.object) else {
        return None;
    };
    let Ok(ready) = prepare(alloc, &card.conversion, &card.object, content) else {
        return None;
    };
    match card.leaf.restart() {
        Ok(()) => {
            card.ready = Some(ready);
            Some(card)
        }
        Err(_) => None,
    }
}
