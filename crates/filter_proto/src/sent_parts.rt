//! A request for a path is sent packet by packet, so its content is never copied as a whole.
ghost use Rattle.std.specs.Prelude.{◌≡◌, ◌≤◌, ◌<◌, ◌++◌, [], length, OnOk, OnErr};
ghost use Rattle.pkt_line.specs.Packets.{Payload};
ghost use Rattle.pkt_line.specs.Spelling.{spelling};
ghost use Rattle.filter_words.specs.Requests.{content_text, first_text, clean_text, list_text};
ghost use Rattle.filter_proto.specs.Sending.{SendsAll};

use byte_path::ObjectId;
use edge_kit::{Link, SendFault};
use filter_words::{push_clean_keys, push_list, push_smudge_keys, request_in_parts};
use pkt_line::{push_flush, push_payload, spells};
use std::alloc::{AllocError, Global};

/// The most bytes of a content in one packet.
const MOST_PAYLOAD: usize = 65_516;

/// What a driver is asked for a path of 1 to 4,096 bytes, with the name of its blob. gitattributes(5), `smudge`
#[derive(Clone, Copy)]
pub(crate) struct SmudgeRequest<'a> {
    pub path: &'a [u8],
    pub name: &'a ObjectId,
    pub can_delay: bool,
    pub content: &'a [u8],
}

/// Sends the request to smudge a content for a path of 1 to 4,096 bytes. `text` holds one packet at a time, with the
/// key list before the first and the flush packet after the last.
#[tactic(auto, using(crate::proofs::Sent::sent_none, crate::proofs::Sent::sent_as))]
pub(crate) fn send_smudge<K: Link>(
    alloc: Global,
    link: &mut K,
    text: &mut Vec<u8>,
    request: &SmudgeRequest<'_>,
) -> Result<(), SendFault>
    requires some { 1 ≤ length request.now.path.now }
    requires few { length request.now.path.now ≤ 4096 }
    ensures { SendsAll
        (first_text request.now.path.now request.now.name.now
        request.now.can_delay request.now.content.now)
        (K.seen link.old) (K.seen link.new) result }
{
    request_in_parts();
    text.clear();
    let SmudgeRequest {
        path,
        name,
        can_delay,
        content,
    } = *request;
    match push_smudge_keys(alloc, text, path, name, can_delay) {
        Ok(()) => send_behind(alloc, link, text, content),
        Err(_) => Err(SendFault::NoMemory),
    }
}

/// Sends the request to clean a content for a path of 1 to 4,096 bytes, packet by packet too. gitattributes(5), `clean`
#[tactic(auto, using(crate::proofs::Sent::sent_none, crate::proofs::Sent::sent_as))]
pub(crate) fn send_clean<K: Link>(
    alloc: Global,
    link: &mut K,
    text: &mut Vec<u8>,
    path: &[u8],
    content: &[u8],
) -> Result<(), SendFault>
    requires some { 1 ≤ length path.now }
    requires few { length path.now ≤ 4096 }
    ensures { SendsAll (clean_text path.now content.now) (K.seen link.old) (K.seen link.new) result }
{
    request_in_parts();
    text.clear();
    match push_clean_keys(alloc, text, path) {
        Ok(()) => send_behind(alloc, link, text, content),
        Err(_) => Err(SendFault::NoMemory),
    }
}

/// Sends the request for a list of the delayed paths that are ready.
#[tactic(auto, using(crate::proofs::Sent::sent_none, crate::proofs::Sent::sent_as))]
pub(crate) fn send_list<K: Link>(
    alloc: Global,
    link: &mut K,
    text: &mut Vec<u8>,
) -> Result<(), SendFault>
    ensures { SendsAll list_text (K.seen link.old) (K.seen link.new) result }
{
    text.clear();
    match push_list(alloc, text) {
        Ok(()) => send_held(link, text),
        Err(_) => Err(SendFault::NoMemory),
    }
}

/// Sends the text that is held, then a content as packets, and then a flush packet.
fn send_behind<K: Link>(
    alloc: Global,
    link: &mut K,
    text: &mut Vec<u8>,
    content: &[u8],
) -> Result<(), SendFault>
    ensures { SendsAll ((text.old).items ++ content_text content.now)
        (K.seen link.old) (K.seen link.new) result }
{
    spells();
    let mut rest = content;
    while rest.len() > MOST_PAYLOAD {
        let (piece, after) = rest.split_at(MOST_PAYLOAD);
        match send_piece(alloc, link, text, piece) {
            Ok(()) => rest = after,
            Err(fault) => return Err(fault),
        }
    }
    send_last(alloc, link, text, rest)
}

/// Sends the text that is held and then one packet. After that nothing is held.
#[tactic(auto, using(crate::proofs::Sent::sent_none, crate::proofs::Sent::sent_as))]
fn send_piece<K: Link>(
    alloc: Global,
    link: &mut K,
    text: &mut Vec<u8>,
    piece: &[u8],
) -> Result<(), SendFault>
    requires some { 1 ≤ length piece.now }
    requires few { length piece.now ≤ 65516 }
    ensures sends { SendsAll ((text.old).items ++ spelling (Payload piece.now))
        (K.seen link.old) (K.seen link.new) result }
    ensures empty { OnOk result ((text.new).items ≡ []) }
{
    match push_payload(alloc, text, piece) {
        Ok(()) => send_held(link, text),
        Err(_) => Err(SendFault::NoMemory),
    }
}

/// Sends the text that is held, then the last packet of a content if it isn't empty, and then a flush packet.
#[tactic(auto, using(crate::proofs::Sent::sent_none, crate::proofs::Sent::sent_as))]
fn send_last<K: Link>(
    alloc: Global,
    link: &mut K,
    text: &mut Vec<u8>,
    piece: &[u8],
) -> Result<(), SendFault>
    requires few { length piece.now ≤ 65516 }
    ensures { SendsAll ((text.old).items ++ content_text piece.now)
        (K.seen link.old) (K.seen link.new) result }
{
    match push_last(alloc, text, piece) {
        Ok(()) => send_held(link, text),
        Err(_) => Err(SendFault::NoMemory),
    }
}

/// Appends a content as one packet, or as none if it is empty, and then a flush packet.
#[tactic(auto, using(crate::proofs::Sent::last_none, crate::proofs::Sent::last_one))]
fn push_last(alloc: Global, text: &mut Vec<u8>, piece: &[u8]) -> Result<(), AllocError>
    requires few { length piece.now ≤ 65516 }
    ensures ok { OnOk result ((text.new).items ≡ (text.old).items ++ content_text piece.now) }
{
    if piece.is_empty() {
        return push_flush(alloc, text);
    }
    push_payload(alloc, text, piece)?;
    push_flush(alloc, text)
}

/// Sends the text that is held. After that nothing is held.
fn send_held<K: Link>(link: &mut K, text: &mut Vec<u8>) -> Result<(), SendFault>
    ensures sends { SendsAll (text.old).items (K.seen link.old) (K.seen link.new) result }
    ensures empty { (text.new).items ≡ [] }
{
    let sent = link.send(text.as_slice());
    text.clear();
    sent
}
