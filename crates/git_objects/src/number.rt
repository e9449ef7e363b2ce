//! Numbers of several bytes, as packs have them (gitformat-pack(5)).
ghost use Rattle.std.specs.Prelude.{IfSome, length, ◌<◌};
ghost use Rattle.git_objects.specs.Numbers.{HasNumber, HasDistance};

/// The most bytes of a number that is below 2^64.
const MOST: u32 = 10;

/// A number of at most so many bytes at the front, seven bits a byte, the least significant first, and what is behind.
fn read_in(from: &[u8], most: u32) -> Option<(u64, &[u8])>
    ensures number { IfSome result (λ r. HasNumber from.now r.0 r.1.now) }
    ensures shorter { IfSome result (λ r. length r.1.now < length from.now) }
{
    let most = most.checked_sub(1)?;
    let (byte, behind) = from.split_first()?;
    if *byte < 128 {
        return Some((u64::from(*byte), behind));
    }
    let (higher, rest) = read_in(behind, most)?;
    let number = higher
        .checked_mul(128)?
        .checked_add(u64::from(*byte - 128))?;
    Some((number, rest))
}

/// The number at the front, seven bits a byte, the least significant first, and what is behind it.
pub fn read_number(from: &[u8]) -> Option<(u64, &[u8])>
    ensures number { IfSome result (λ r. HasNumber from.now r.0 r.1.now) }
    ensures shorter { IfSome result (λ r. length r.1.now < length from.now) }
{
    read_in(from, MOST)
}

/// A distance of at most so many bytes at the front, behind bytes that come to this, and what is behind it.
fn distance_in(before: u64, from: &[u8], most: u32) -> Option<(u64, &[u8])>
    ensures distance { IfSome result (λ r. HasDistance before from.now r.0 r.1.now) }
    ensures shorter { IfSome result (λ r. length r.1.now < length from.now) }
{
    let most = most.checked_sub(1)?;
    let (byte, behind) = from.split_first()?;
    let shifted = before.checked_mul(128)?;
    if *byte < 128 {
        return Some((shifted.checked_add(u64::from(*byte))?, behind));
    }
    let more = shifted.checked_add(u64::from(*byte - 127))?;
    distance_in(more, behind, most)
}

/// The distance at the front, and what is behind it.
pub fn read_distance(from: &[u8]) -> Option<(u64, &[u8])>
    ensures distance { IfSome result (λ r. HasDistance 0 from.now r.0 r.1.now) }
    ensures shorter { IfSome result (λ r. length r.1.now < length from.now) }
{
    distance_in(0, from, MOST)
}
