ghost use Rattle.std.specs.Prelude.{◌≡◌, ◌==◌, MatchOption, false, position};
ghost use Rattle.std.specs.List.{list_any};
ghost use Rattle.ident_convert.specs.Ident.{is_dollar, inner, is_middle, keyword_len, has_keyword, IsFirstKeyword};

use memchr::memchr;

/// The place of the first `$`.
fn dollar_place(text: &[u8]) -> Option<usize>
    ensures { result ≡ position is_dollar text.now }
{
    memchr(b'$', text)
}

/// The bytes without the first and the last.
fn inner(bytes: &[u8]) -> &[u8]
    ensures { result.now ≡ inner bytes.now }
{
    match bytes {
        [_, inner @ .., _] => inner,
        _ => &[],
    }
}

/// Whether these bytes may be between `$Id:` and the next `$`.
fn is_middle(middle: &[u8]) -> bool
    ensures { result ≡ is_middle middle.now }
{
    !middle.contains(&b'\n') && !inner(middle).contains(&b' ')
}

/// How many bytes the keyword at the start of a text takes: `$Id$`, or `$Id:`, a middle and `$`.
#[tactic(auto, unfolding(crate::specs::Ident::keyword_len))]
fn keyword_len(text: &[u8]) -> Option<usize>
    ensures { result ≡ keyword_len text.now }
{
    if text.starts_with(b"$Id$") {
        return Some(4);
    }
    if !text.starts_with(b"$Id:") {
        return None;
    }
    let (_, behind) = text.split_at(4);
    let end = dollar_place(behind)?;
    let (middle, _) = behind.split_at(end);
    if is_middle(middle) {
        Some(end + 5)
    } else {
        None
    }
}

/// The place of a keyword in a text, and how many bytes it takes.
#[derive(Clone, Copy)]
pub struct Keyword {
    pub start: usize,
    pub len: usize,
}

/// The first keyword of a text. It takes no memory.
pub fn first_keyword(text: &[u8]) -> Option<Keyword>
    ensures { MatchOption result (has_keyword text.now ≡ false) (λ k. IsFirstKeyword text.now k.start k.len) }
{
    let mut place = 0;
    'dollars: loop {
        let (_, rest) = text.split_at(place);
        let Some(at) = memchr(b'$', rest) else {
            return None;
        };
        let (_, found) = rest.split_at(at);
        if let Some(len) = keyword_len(found) {
            let start = place + at;
            return Some(Keyword { start, len });
        }
        place += at + 1;
    }
}
