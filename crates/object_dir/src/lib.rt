//! The objects of a repository: what a blob's stored bytes hold, and how a content is stored, under which name and in
//! which file.
//!
//! An object is stored as `blob`, a space, the decimal size, a NUL and the content, uncompressed. Its name is the SHA-1
//! of all these bytes.
#![tactic(auto)]

mod fault;
mod laws;
mod spelling;
mod stored_blob;
mod taken_blob;

pub use fault::ObjectFault;
pub use laws::{content_has_one_spelling, spelling_gives_its_content};
pub use spelling::{blob_name, object_path, spell_blob};
pub use stored_blob::read_blob;
pub use taken_blob::{Taken, sha1_of_four, take_blob};
