ghost use Rattle.std.specs.Prelude.{◌≡◌, ◌≤◌, ℕ, List, Ok, length};
ghost use Rattle.sha1.specs.Sha1.{sha1};
ghost use Rattle.object_dir.specs.Object.{object_of};
ghost use Rattle.object_dir.specs.Spelling.{spelled_blob};

use byte_path::{ObjectId, one_decimal};

/// The law that the stored bytes of a content within the limit give that content under their name. It does nothing.
pub fn spelling_gives_its_content(content: &[u8])
    requires { length content.now ≤ 268435456 }
    ensures { let stored = spelled_blob content.now in
        object_of stored (sha1 stored) ≡ Ok content.now }
{
    one_decimal();
}

/// The law that stored bytes give a content only if they are its spelling and have the name. It does nothing.
pub fn content_has_one_spelling(stored: &[u8], name: &ObjectId)
    ensures { (content : List ℕ) → object_of stored.now name.now ≡ Ok content →
        (stored.now ≡ spelled_blob content) × (sha1 stored.now ≡ name.now) }
{
    one_decimal();
}
