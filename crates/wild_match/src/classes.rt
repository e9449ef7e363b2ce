//! The ASCII classes of a set.
ghost use Rattle.std.specs.Prelude.{◌≡◌};
ghost use Rattle.wild_match.specs.Classes.{class_named, is_in_class};

/// A class as `[:alpha:]`, for ASCII alone.
#[derive(Clone, Copy)]
pub enum Class {
    Alnum,
    Alpha,
    Blank,
    Cntrl,
    Digit,
    Graph,
    Lower,
    Print,
    Punct,
    Space,
    Upper,
    Xdigit,
}

/// The class that stands between `[:` and `:]`.
#[tactic(auto, unfolding(crate::specs::Classes::class_named))]
pub fn class_named(name: &[u8]) -> Option<Class>
    ensures { result ≡ class_named name.now }
{
    if name == b"alnum".as_slice() {
        Some(Class::Alnum)
    } else if name == b"alpha".as_slice() {
        Some(Class::Alpha)
    } else if name == b"blank".as_slice() {
        Some(Class::Blank)
    } else if name == b"cntrl".as_slice() {
        Some(Class::Cntrl)
    } else if name == b"digit".as_slice() {
        Some(Class::Digit)
    } else if name == b"graph".as_slice() {
        Some(Class::Graph)
    } else if name == b"lower".as_slice() {
        Some(Class::Lower)
    } else if name == b"print".as_slice() {
        Some(Class::Print)
    } else if name == b"punct".as_slice() {
        Some(Class::Punct)
    } else if name == b"space".as_slice() {
        Some(Class::Space)
    } else if name == b"upper".as_slice() {
        Some(Class::Upper)
    } else if name == b"xdigit".as_slice() {
        Some(Class::Xdigit)
    } else {
        None
    }
}

/// Whether a byte is in a class.
pub fn is_in_class(class: Class, byte: u8) -> bool
    ensures { result ≡ is_in_class class byte }
{
    let is_letter = matches!(byte, b'a'..=b'z' | b'A'..=b'Z');
    let is_digit = matches!(byte, b'0'..=b'9');
    match class {
        Class::Alnum => is_letter || is_digit,
        Class::Alpha => is_letter,
        Class::Blank => byte == b' ' || byte == b'\t',
        Class::Cntrl => byte < b' ' || byte == 0x7F,
        Class::Digit => is_digit,
        Class::Graph => byte > b' ' && byte < 0x7F,
        Class::Lower => matches!(byte, b'a'..=b'z'),
        Class::Print => byte >= b' ' && byte < 0x7F,
        Class::Punct => byte > b' ' && byte < 0x7F && !is_letter && !is_digit,
        Class::Space => matches!(byte, b' ' | b'\t'..=b'\r'),
        Class::Upper => matches!(byte, b'A'..=b'Z'),
        Class::Xdigit => matches!(byte, b'0'..=b'9' | b'a'..=b'f' | b'A'..=b'F'),
    }
}
