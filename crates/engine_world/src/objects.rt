//! The objects that a case may use.
use byte_path::ObjectId;
use case_kit::unknown;
use std::test::Fail;

/// The name that `git hash-object` gives to `hi` and a line feed.
pub const HI: ObjectId =
    *b"\x45\xb9\x83\xbe\x36\xb7\x3c\x07\x88\xdc\x9c\xbc\xb7\x6c\xbb\x80\xfc\x7b\xb0\x57";

/// The name that `git hash-object` gives to `bin`.
const BIN: ObjectId =
    *b"\xc5\xe8\x2d\x74\x58\x5d\x15\xd6\xea\x82\x1b\x5f\x23\xcd\x65\x62\x41\x90\xf2\x44";

/// The name that `git hash-object` gives to `a`, LF, `b`, CR LF.
const MIXED: ObjectId =
    *b"\xe8\x9c\x76\x0d\x3c\x63\x6a\xc7\x16\xf6\xcb\xc9\x55\xbd\x10\x0a\x94\xaf\x60\x6d";

/// The name that `git hash-object` gives to `$Id$ $Id: a b $` and a line feed.
const IDENT: ObjectId =
    *b"\x93\x14\x61\x77\xb8\x3e\xbd\x89\xea\xa3\xcd\xa0\xf7\x06\x4a\x9e\x22\x50\x86\xb3";

/// The name that `git hash-object` gives to U+00E9 and U+1F600 in UTF-8.
const WIDE: ObjectId =
    *b"\xe6\xf9\xa5\x34\x76\xa0\x97\xf6\x0d\x9e\x9b\x16\x33\x5d\xcb\x9f\xbd\x79\x87\x8f";

/// The name that `git hash-object` gives to nothing.
const EMPTY: ObjectId =
    *b"\xe6\x9d\xe2\x9b\xb2\xd1\xd6\x43\x4b\x8b\x29\xae\x77\x5a\xd8\xc2\xe4\x8c\x53\x91";

/// The name that `git hash-object` gives to the byte FF.
const ODD: ObjectId =
    *b"\xce\x54\x2e\xfa\xa5\x12\x4a\x04\x37\xf0\xc4\xdb\x32\x9d\x7e\xc4\xb7\xba\x70\xa7";

/// The name that `git hash-object` gives to `*.txt text eol=crlf` and a line feed.
const ATTRIBUTES: ObjectId =
    *b"\xc6\x1b\x24\x1e\xb4\x97\xeb\x43\x1d\xf8\x25\x84\x1e\x80\x85\x03\x14\x56\x00\xe1";

/// The name that `git hash-object` gives to 1,048,577 NULs.
const NULS: ObjectId =
    *b"\x4d\x43\x51\x48\xd9\x32\x40\xe4\xd0\x5d\x1e\x03\xe5\xfe\x5b\x84\xfe\x9a\x7a\x47";

/// The name that `git hash-object` gives to `abcd`.
const LETTERS: ObjectId =
    *b"\x85\xdf\x50\x78\x5d\x62\xd3\xb0\x5a\xb0\x3d\x9c\xbf\x7e\x4a\x0b\x49\x44\x97\x30";

/// The name that `git hash-object` gives to 8,388,609 letters `a`.
const LARGE: ObjectId =
    *b"\x8c\xb2\xac\x40\xd9\x88\x7c\xbe\xb9\xa8\x69\x70\xb5\xed\x65\x84\xed\x65\x3f\x91";

/// The name that `git hash-object` gives to a pointer to a large file, of 130 bytes.
const POINTER: ObjectId =
    *b"\x60\xc8\xd8\xab\x2a\xdc\xf5\x7a\x39\x11\x63\xa7\xee\xb0\xcd\xb8\xbf\x34\x8e\x44";

/// The SHA-1 of the index of no entries, as `sha1sum` gives it.
pub const NO_ENTRIES: ObjectId =
    *b"\x39\xd8\x90\x13\x9e\xe5\x35\x6c\x7e\xf5\x72\x21\x6c\xeb\xcd\x27\xaa\x41\xf9\xdf";

/// The SHA-1 of the index of the one entry `a` of `HI`, as `sha1sum` gives it.
pub const ONE_ENTRY: ObjectId =
    *b"\x1c\x6c\x18\x59\xc8\xad\xa0\x11\x07\xc2\x6b\x97\x6e\xe0\x64\x3e\xd8\xc1\xc7\x49";

/// Objects that a test may use, as they are stored.
pub const OBJECTS: [(ObjectId, &[u8]); 9] = [
    (BIN, b"blob 3\0bin"),
    (MIXED, b"blob 5\0a\nb\r\n"),
    (IDENT, b"blob 16\0$Id$ $Id: a b $\n"),
    (WIDE, b"blob 6\0\xc3\xa9\xf0\x9f\x98\x80"),
    (EMPTY, b"blob 0\0"),
    (ODD, b"blob 1\0\xff"),
    (ATTRIBUTES, b"blob 20\0*.txt text eol=crlf\n"),
    (LETTERS, b"blob 4\0abcd"),
    (
        POINTER,
        b"blob 130\0version https://git-lfs.github.com/spec/v1\n\
            oid sha256:4d7a214614ab2935c943f9e0ff69d22eadbb8f32b1258daaa5e2ca24d17e2393\nsize 12345\n",
    ),
];

/// The name of the object with this letter.
pub fn name_of(letter: u8) -> Result<ObjectId, Fail> {
    Ok(match letter {
        b'h' => HI,
        b'b' => BIN,
        b'm' => MIXED,
        b'i' => IDENT,
        b'w' => WIDE,
        b'e' => EMPTY,
        b'o' => ODD,
        b'a' => ATTRIBUTES,
        b'n' => NULS,
        b'4' => LETTERS,
        b'p' => POINTER,
        b'l' => LARGE,
        b'9' => [9; 20],
        _ => return Err(unknown(&[letter])),
    })
}

/// The name of the object of which a text is the letter.
pub fn named_by(text: &[u8]) -> Result<ObjectId, Fail> {
    match text {
        [letter] => name_of(*letter),
        _ => Err(unknown(text)),
    }
}
