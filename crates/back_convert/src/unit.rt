//! The first character in units of 16 and of 32 bits.
ghost use Rattle.std.specs.Prelude.{◌≡◌, ◌<◌, ◌≤◌, None, MatchOption, IfSome, length};
ghost use Rattle.back_convert.specs.Encoding.{more, ending, twos, fours, chars16, chars32};

/// The order of the two bytes of a unit.
pub(crate) trait Order {
    ghost use Rattle.std.specs.Prelude.{◌≡◌, ◌<◌, ℕ};

    ghost unit: { ℕ → ℕ → ℕ };

    fn unit(first: u8, second: u8) -> u32
        ensures value { result ≡ unit first second }
        ensures small { result < 65536 };
}

/// UTF-16, with the lowest byte of a unit first.
pub(crate) struct Little16;

/// UTF-16, with the highest byte of a unit first.
pub(crate) struct Big16;

/// UTF-32, with the lowest byte of a unit first.
pub(crate) struct Little32;

/// UTF-32, with the highest byte of a unit first.
pub(crate) struct Big32;

impl Order for Little16 {
    ghost use Rattle.back_convert.specs.Encoding.{little16};

    ghost unit = { little16 };

    fn unit(first: u8, second: u8) -> u32 {
        u32::from(first) + u32::from(second) * 256
    }
}

impl Order for Big16 {
    ghost use Rattle.back_convert.specs.Encoding.{big16};

    ghost unit = { big16 };

    fn unit(first: u8, second: u8) -> u32 {
        u32::from(second) + u32::from(first) * 256
    }
}

/// The first unit of 16 bits, and what follows it.
fn first_unit<O: Order>(bytes: &[u8]) -> Option<(u32, &[u8])>
    ensures value { MatchOption result (length bytes.now < 2)
        (λ r. twos O.unit bytes.now ≡ more r.0 (twos O.unit r.1.now)) }
    ensures bounds { IfSome result (λ r. (r.0 < 65536) × (length r.1.now < length bytes.now)) }
{
    let (pair, behind) = bytes.split_first_chunk::<2>()?;
    let [first, second] = *pair;
    Some((O::unit(first, second), behind))
}

/// The character of a high surrogate and a low one, and what follows them.
fn pair_behind<O: Order>(unit: u32, bytes: &[u8]) -> Option<(char, &[u8])>
    requires { (0xD800 ≤ unit) × (unit < 0xE000) }
    ensures value { MatchOption result (chars16 (more unit (twos O.unit bytes.now)) ≡ None)
        (λ r. chars16 (more unit (twos O.unit bytes.now)) ≡ more r.0 (chars16 (twos O.unit r.1.now))) }
    ensures shorter { IfSome result (λ r. length r.1.now < length bytes.now) }
{
    if unit >= 0xDC00 {
        return None;
    }
    let Some((low, behind)) = first_unit::<O>(bytes) else {
        return None;
    };
    if low < 0xDC00 {
        return None;
    }
    if low >= 0xE000 {
        return None;
    }
    match char::from_u32(0x1_0000 + (unit - 0xD800) * 0x400 + (low - 0xDC00)) {
        Some(character) => Some((character, behind)),
        None => None,
    }
}

/// The first character of units of 16 bits: a unit that is no surrogate, or a high surrogate and a low one.
pub(crate) fn first16<O: Order>(bytes: &[u8]) -> Option<(char, &[u8])>
    ensures value { MatchOption result (chars16 (twos O.unit bytes.now) ≡ ending bytes.now)
        (λ r. chars16 (twos O.unit bytes.now) ≡ more r.0 (chars16 (twos O.unit r.1.now))) }
    ensures shorter { IfSome result (λ r. length r.1.now < length bytes.now) }
{
    let Some((unit, behind)) = first_unit::<O>(bytes) else {
        return None;
    };
    match char::from_u32(unit) {
        Some(character) => Some((character, behind)),
        None => pair_behind::<O>(unit, behind),
    }
}

/// The order of the four bytes of a unit.
pub(crate) trait Wide {
    ghost use Rattle.std.specs.Prelude.{◌≡◌, ℕ, slice_index};

    ghost unit: { ℕ → ℕ → ℕ → ℕ → ℕ };

    fn unit(bytes: [u8; 4]) -> u32
        ensures { result ≡ unit (slice_index bytes 0) (slice_index bytes 1) (slice_index bytes 2)
            (slice_index bytes 3) };
}

impl Wide for Little32 {
    ghost use Rattle.back_convert.specs.Encoding.{little32};

    ghost unit = { little32 };

    fn unit(bytes: [u8; 4]) -> u32 {
        let [a, b, c, d] = bytes;
        u32::from(a) + u32::from(b) * 256 + (u32::from(c) + u32::from(d) * 256) * 0x1_0000
    }
}

impl Wide for Big32 {
    ghost use Rattle.back_convert.specs.Encoding.{big32};

    ghost unit = { big32 };

    fn unit(bytes: [u8; 4]) -> u32 {
        let [a, b, c, d] = bytes;
        u32::from(d) + u32::from(c) * 256 + (u32::from(b) + u32::from(a) * 256) * 0x1_0000
    }
}

/// The first unit of 32 bits, and what follows it.
fn first_wide<O: Wide>(bytes: &[u8]) -> Option<(u32, &[u8])>
    ensures value { MatchOption result (length bytes.now < 4)
        (λ r. fours O.unit bytes.now ≡ more r.0 (fours O.unit r.1.now)) }
    ensures bounds { IfSome result (λ r. length r.1.now < length bytes.now) }
{
    let (four, behind) = bytes.split_first_chunk::<4>()?;
    Some((O::unit(*four), behind))
}

/// The first character of units of 32 bits.
pub(crate) fn first32<O: Wide>(bytes: &[u8]) -> Option<(char, &[u8])>
    ensures value { MatchOption result (chars32 (fours O.unit bytes.now) ≡ ending bytes.now)
        (λ r. chars32 (fours O.unit bytes.now) ≡ more r.0 (chars32 (fours O.unit r.1.now))) }
    ensures shorter { IfSome result (λ r. length r.1.now < length bytes.now) }
{
    let Some((unit, behind)) = first_wide::<O>(bytes) else {
        return None;
    };
    match char::from_u32(unit) {
        Some(character) => Some((character, behind)),
        None => None,
    }
}
