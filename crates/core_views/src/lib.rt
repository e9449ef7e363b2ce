//! What of the core is shown in the cases of the protocol: the steps of a checkout, and the audits of its journals.
#![tactic(auto)]

mod checkout;
mod journals;

pub use checkout::followed;
pub use journals::judged;
