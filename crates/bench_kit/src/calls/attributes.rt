// What attributes say of a content.
use attr_line::AttrState;
use bench_books::marks::{begin, end};
use byte_path::Bytes;
use convert_plan::{Conversion, conversion_of};
use eol_convert::{Action, AutoCrlf, EolSetting, LineEnds, line_ends_of};
use std::alloc::{AllocError, Global};
use std::io;
use std::io::Print;
use tree_encoding::{Encoding, encoding_of};

fn value(alloc: Global, text: &[u8]) -> Result<AttrState, AllocError> {
    Ok(AttrState::Value(Bytes::copy_of(alloc, text)?))
}

/// Whether these attributes ask for `$Id$`, automatic line ends and UTF-16LE with a mark.
fn is_whole(conversion: Conversion) -> bool {
    conversion.ident
        && matches!(conversion.action, Action::AutoCrlf)
        && matches!(conversion.encoding, Some(Encoding::Utf16LeBom))
}

/// What these attributes say of line ends and of the encoding.
fn make_single<R: Print>(
    rt: &R,
    text: &AttrState,
    eol: &AttrState,
    encoding: &AttrState,
) -> io::Result<()> {
    begin(rt, "line_ends_of")?;
    let ends = line_ends_of(
        text,
        &AttrState::Unset,
        eol,
        AutoCrlf::Input,
        EolSetting::Lf,
    );
    end(rt, matches!(ends, LineEnds::AutoCrlf))?;
    begin(rt, "encoding_of")?;
    end(
        rt,
        matches!(encoding_of(encoding), Ok(Some(Encoding::Utf16LeBom))),
    )
}

pub fn make_calls<R: Print + AllocGlobal>(rt: &R) -> io::Result<()> {
    let text = value(rt.alloc(), b"auto")?;
    let eol = value(rt.alloc(), b"crlf")?;
    let encoding = value(rt.alloc(), b"utf-16le-bom")?;
    make_single(rt, &text, &eol, &encoding)?;
    let states = [text, AttrState::Unspecified, eol, AttrState::Set, encoding];
    begin(rt, "conversion_of")?;
    let conversion = conversion_of(&states, AutoCrlf::False, EolSetting::Lf);
    end(rt, conversion.is_ok_and(is_whole))
}
