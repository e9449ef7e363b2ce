//! The journal of a checkout as a text, and the judge of such a text.
#![tactic(auto)]

mod answer;
mod cut;
mod judge;
mod laws;
mod line_reader;
mod print;
mod words;

pub use answer::Audit;
pub use judge::audit;
pub use laws::{journal_fits_audit, text_has_one_audit, text_has_one_journal};
pub use print::print_journal;
