//! The texts of requests to a filter driver, and its answers: gitattributes(5), "Long Running Filter Process".
#![tactic(auto)]

mod answer_state;
mod handshake;
mod laws;
mod listing;
mod packet;
mod reply;
mod requests;
mod smudge_reply;
mod words;

pub use answer_state::{AnswerState, MOST_ANSWER};
pub use handshake::{
    HandshakePhase, announces_clean, handshake_after_flush, handshake_after_line,
    handshake_after_packet,
};
pub use laws::{
    handshake_grammar, list_grammar, one_handshake, one_list, one_reply, own_causes, reply_content,
    reply_grammar, request_in_parts,
};
pub use listing::{
    ListEnd, ListPart, Listing, list_after_flush, list_after_packet, list_reply, listed_name,
};
pub use packet::ReadPacket;
pub use reply::{BreakCause, Caps, ListReply, Reply};
pub use requests::{
    push_caps, push_clean, push_clean_keys, push_hello, push_list, push_smudge, push_smudge_keys,
};
pub use smudge_reply::{
    GoodReply, ReplyPhase, reply_after_flush, reply_after_line, reply_after_packet, reply_of,
};
pub use words::{Status, key_value, next_status, read_status};
