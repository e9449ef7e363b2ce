//! What a driver wrote first in a session.
ghost use Rattle.std.specs.Prelude.{◌≡◌, not, take};
ghost use Rattle.std.specs.List.{list_any};
ghost use Rattle.std.specs.Char.{is_ascii_hexdigit};

/// How many bytes of it are kept.
const MOST: usize = 80;

/// Keeps bytes behind those that are kept, as far as there is room for them. If memory runs out they aren't kept.
pub fn keep_front(front: &mut Vec<u8>, bytes: &[u8]) {
    let room = MOST.saturating_sub(front.len());
    let (kept, _) = bytes.split_at(room.min(bytes.len()));
    let _ = front.extend_from_slice(kept);
}

/// Whether no packet begins with these bytes: one of the first four is no hexadecimal digit.
pub fn is_no_packet(front: &[u8]) -> bool
    ensures { result ≡ list_any (λ byte. not (is_ascii_hexdigit byte)) (take 4 front.now) }
{
    front.iter().take(4).any(|byte| !byte.is_ascii_hexdigit())
}
