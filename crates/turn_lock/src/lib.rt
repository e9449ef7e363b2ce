//! A lock whose holders take turns, with receipts.
//!
//! The value under the lock keeps a history. Each seat of the lock knows a first part of that one history, as it was at
//! the seat's last turn, and its own entries in it. At the end the history has the entries of the seats and no others.
#![tactic(auto)]

mod kept;
pub mod laws;
mod lock;
mod rule;
mod seat;
mod steps;
mod view;

pub use kept::Kept;
pub use lock::{Turn, TurnLock};
pub use seat::TurnSeat;
