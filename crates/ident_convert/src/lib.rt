//! The conversion `ident` of gitattributes(5): the keyword `$Id$` of a content, expanded to its blob's name.
#![tactic(auto)]

mod expansion;
mod keyword;
mod laws;

pub use expansion::{expand_ident, has_keyword};
pub use laws::{keyword_is_replaced, other_byte_is_kept};
