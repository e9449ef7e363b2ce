//! What happens to a path's content on its way to the worktree (gitattributes(5), "Interaction between checkin/checkout
//! attributes").
#![tactic(auto)]

mod card;
mod conversion;
mod prepared_content;

pub use card::Card;
pub use conversion::{Conversion, conversion_of};
pub use prepared_content::prepare;
