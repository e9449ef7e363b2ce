//! What blobs give, before it is checked: so the SHA-1 of several objects is found at once.
ghost use Rattle.std.specs.Prelude.{◌≡◌, ℕ, List, [], ◌∷◌, Some, IfSome};
ghost use Rattle.edge_kit.specs.Told.{Told};
ghost use Rattle.sha1.specs.Sha1.{sha1};
ghost use Rattle.object_dir.specs.Object.{IsObject, AfterRead};
ghost use Rattle.object_dir.specs.Taking.{IsTaken, stored_in, stored_of};

use crate::fault::ObjectFault;
use crate::stored_blob::{MAX_STORED, object_in};
use byte_path::ObjectId;
use edge_kit::{Blob, TakeFault};
use sha1_lanes::digest_four;

/// What a blob gave for the object with this name.
#[derive(Drop)]
pub struct Taken {
    stored: Result<Option<Vec<u8>>, TakeFault>,
    name: ObjectId,
    /// The SHA-1 of the stored bytes, if it was found before.
    known: Option<ObjectId>,
}

/// Takes the stored bytes of the object with this name, whose blob this is, and checks none of them.
pub fn take_blob<B: Blob>(blob: &mut B, name: &ObjectId) -> Taken
    ensures told { B.told blob.new ≡ B.told blob.old }
    ensures kept { B.seen blob.new ≡
        record (B.seen blob.old) { faults = (B.seen blob.new).faults } }
    ensures taken { IsTaken (B.told blob.old) name.now (B.seen blob.old).faults (B.seen blob.new).faults result }
{
    Taken {
        stored: blob.take_all(MAX_STORED),
        name: *name,
        known: None,
    }
}

impl Taken {
    /// The stored bytes, or none where the blob gave none.
    pub fn stored(&self) -> &[u8]
        ensures { result.now ≡ stored_in self.now.stored }
    {
        match &self.stored {
            Ok(Some(stored)) => stored.as_slice(),
            Ok(None) => &[],
            Err(_) => &[],
        }
    }

    /// Keeps the SHA-1 of the stored bytes, which was found.
    pub fn keep_sha1(&mut self, found: ObjectId)
        requires { found ≡ sha1 (stored_in self.old.stored) }
        ensures { self.new ≡ record self.old { known = Some found } }
    {
        self.known = Some(found);
    }

    /// The content of the object, in the memory of the stored bytes: what `read_blob` answers for it.
    pub fn into_content(self) -> Result<Vec<u8>, ObjectFault>
        requires { IfSome self.known (λ found. found ≡ sha1 (stored_in self.stored)) }
        ensures { (told : Told) (name : List ℕ) (before after : ℕ) → IsTaken told name before after self
            → IsObject told name result × AfterRead before after result }
    {
        let Taken {
            stored,
            name,
            known,
        } = self;
        object_in(stored, &name, known)
    }
}

/// The stored bytes of what a blob gave, if there is any.
fn stored_of(taken: Option<&Taken>) -> &[u8]
    ensures { result.now ≡ stored_of taken.entry }
{
    match taken {
        Some(taken) => taken.stored(),
        None => &[],
    }
}

/// The SHA-1 of the stored bytes of up to four objects, found at once.
pub fn sha1_of_four(
    a: Option<&Taken>,
    b: Option<&Taken>,
    c: Option<&Taken>,
    d: Option<&Taken>,
) -> [ObjectId; 4]
    ensures { result ≡ sha1 (stored_of a.entry) ∷ sha1 (stored_of b.entry) ∷ sha1 (stored_of c.entry)
        ∷ sha1 (stored_of d.entry) ∷ [] }
{
    digest_four(stored_of(a), stored_of(b), stored_of(c), stored_of(d))
}
