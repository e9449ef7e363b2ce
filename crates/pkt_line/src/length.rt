//! The four digits in front of a packet.
ghost use Rattle.std.specs.Prelude.{◌≡◌, ◌≤◌, ◌<◌, ◌^◌, length, IfSome};
ghost use Rattle.pkt_line.specs.Packets.{number_at};
ghost use Rattle.pkt_line.specs.Spelling.{four_digits};

/// The most bytes that a packet takes, its four digits included.
pub(crate) const MOST_SIZE: usize = 65_520;

/// The most bytes of a payload.
pub(crate) const MOST_PAYLOAD: usize = 65_516;

/// The digits in front of a packet.
pub(crate) const DIGITS: usize = 4;

/// The number that the first four bytes give, if each of them is a hexadecimal digit.
pub(crate) fn number_of(bytes: &[u8]) -> Option<u16>
    requires { 4 ≤ length bytes.now }
    ensures { result ≡ number_at bytes.now }
{
    let (digits, _) = bytes.split_at(DIGITS);
    let mut number = [0; 2];
    match hex::decode_to_slice(digits, &mut number) {
        Ok(()) => Some(u16::from_be_bytes(number)),
        Err(_) => None,
    }
}

/// The four lower case digits of a packet's length.
pub(crate) fn digits_of(length: u16) -> [u8; 4]
    ensures { result ≡ four_digits length }
{
    let mut digits = [0; DIGITS];
    let _ = hex::encode_to_slice(length.to_be_bytes(), &mut digits);
    digits
}
