//! The encoding of a file in the worktree (gitattributes(5), "working-tree-encoding").
#![tactic(auto)]

mod ascii_test;
mod encoded_text;
mod encoding;
mod form;
mod named;
mod prepared;
mod text;

pub use encoded_text::{encode, encode_text};
pub use encoding::{Encoding, UnknownEncoding, name_names_encoding, one_content};
pub use named::encoding_of;
pub use prepared::Prepared;
