ghost use Rattle.std.specs.Prelude.{◌≡◌, ◌≤◌, ◌<◌, ◌+◌, ◌++◌, ◌∷◌, [], length, OnOk, OnErr, vec_len, vec_capacity};
ghost use Rattle.pkt_line.specs.Packets.{Packet, Payload, Flush};
ghost use Rattle.pkt_line.specs.Spelling.{four_digits, spelling, spelling_all, content_packets};

use crate::length::{DIGITS, MOST_PAYLOAD, digits_of};
use std::alloc::{AllocError, Global};

/// Appends one packet with this payload, of 1 to 65,516 bytes.
///
/// This call and the three below append spellings with lower case digits. Their only error is out of memory, and then
/// `out` is as it was.
pub fn push_payload(_alloc: Global, out: &mut Vec<u8>, payload: &[u8]) -> Result<(), AllocError>
    requires some { 1 ≤ length payload.now }
    requires few { length payload.now ≤ 65516 }
    ensures ok { OnOk result (out.new.items ≡ out.old.items ++ spelling (Payload payload.now)) }
    ensures err { OnErr result (out.new.items ≡ out.old.items) }
{
    out.reserve(DIGITS + payload.len())?;
    append_digits(out, DIGITS + payload.len());
    append(out, payload);
    Ok(())
}

/// Appends a text of at most 65,515 bytes and LF as one packet.
pub fn push_line(_alloc: Global, out: &mut Vec<u8>, text: &[u8]) -> Result<(), AllocError>
    requires { length text.now ≤ 65515 }
    ensures ok { OnOk result
        (out.new.items ≡ out.old.items ++ spelling (Payload (text.now ++ 10 ∷ []))) }
    ensures err { OnErr result (out.new.items ≡ out.old.items) }
{
    out.reserve(DIGITS + text.len() + 1)?;
    append_digits(out, DIGITS + text.len() + 1);
    append(out, text);
    append(out, b"\n");
    Ok(())
}

/// Appends a content as packets of 65,516 bytes, the last one with the rest. An empty content appends nothing.
pub fn push_content(_alloc: Global, out: &mut Vec<u8>, content: &[u8]) -> Result<(), AllocError>
    ensures ok { OnOk result
        (out.new.items ≡ out.old.items ++ spelling_all (content_packets content.now)) }
    ensures err { OnErr result (out.new.items ≡ out.old.items) }
{
    let packets = content.len().div_ceil(MOST_PAYLOAD);
    out.reserve(content.len().saturating_add(DIGITS * packets))?;
    let mut rest = content;
    while !rest.is_empty() {
        let (piece, after) = rest.split_at(MOST_PAYLOAD.min(rest.len()));
        append_digits(out, DIGITS + piece.len());
        append(out, piece);
        rest = after;
    }
    Ok(())
}

/// Appends a flush packet, `0000`.
pub fn push_flush(_alloc: Global, out: &mut Vec<u8>) -> Result<(), AllocError>
    ensures ok { OnOk result (out.new.items ≡ out.old.items ++ spelling Flush) }
    ensures err { OnErr result (out.new.items ≡ out.old.items) }
{
    out.reserve(DIGITS)?;
    append_digits(out, 0);
    Ok(())
}

/// Appends the four digits of a packet's length, for which there is room.
fn append_digits(out: &mut Vec<u8>, length: usize)
    requires small { length < 65536 }
    requires room { vec_len out.old + 4 ≤ vec_capacity out.old }
    ensures items { out.new.items ≡ out.old.items ++ four_digits length }
    ensures len { vec_len out.new ≡ vec_len out.old + 4 }
    ensures capacity { vec_capacity out.old ≤ vec_capacity out.new }
{
    append(out, &digits_of(length as u16));
}

/// Appends bytes, for which there is room, so it takes no memory.
fn append(out: &mut Vec<u8>, bytes: &[u8])
    requires { vec_len out.old + length bytes.now ≤ vec_capacity out.old }
    ensures items { out.new.items ≡ out.old.items ++ bytes.now }
    ensures len { vec_len out.new ≡ vec_len out.old + length bytes.now }
    ensures capacity { vec_capacity out.old ≤ vec_capacity out.new }
{
    let _ = out.extend_from_slice(bytes);
}
