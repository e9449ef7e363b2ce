//! A session with a filter driver over a link: gitattributes(5), "Long Running Filter Process".
//!
//! Each call is one exchange: a request is sent, and its answer is taken from the front of what is left unread, in
//! whatever pieces the link gives it.
#![tactic(auto)]

mod asked;
mod clean_session;
mod content;
mod handshake;
mod laws;
mod list_request;
mod request;
mod sent_parts;
mod session;

pub use asked::Asked;
pub use clean_session::{CleanBegun, CleanSession, Cleaned};
pub use handshake::Begun;
pub use laws::same_heard;
pub use session::{Session, Standing};
