//! The objects of each repository.
use byte_path::ObjectId;
use case_kit::unknown;
use std::alloc::{AllocError, Global};
use std::test::Fail;

/// An object by its letter, with the name that `git hash-object` gives to it, as it is stored.
#[derive(Clone, Copy)]
struct Object {
    letter: u8,
    name: ObjectId,
    stored: &'static [u8],
}

/// They hold `old`, `hi`, `a$Id$`, `old` with a carriage return, nothing, and a pointer to a large file.
const OBJECTS: [Object; 6] = [
    Object {
        letter: b'o',
        name: *b"\x33\x67\xaf\xdb\xbf\x91\xe6\x38\xef\xe9\x83\x61\x63\x77\xc6\x04\x77\xcc\x66\x12",
        stored: b"blob 4\0old\n",
    },
    Object {
        letter: b'h',
        name: *b"\x45\xb9\x83\xbe\x36\xb7\x3c\x07\x88\xdc\x9c\xbc\xb7\x6c\xbb\x80\xfc\x7b\xb0\x57",
        stored: b"blob 3\0hi\n",
    },
    Object {
        letter: b'k',
        name: *b"\x21\x19\x01\xea\xc5\x21\xea\x1a\x72\xc6\xa0\x04\x73\x1f\x59\xf6\x3e\x3e\xc9\xcf",
        stored: b"blob 6\0a$Id$\n",
    },
    Object {
        letter: b'c',
        name: *b"\x9c\xca\x7e\x3e\x36\x14\x6d\xc4\x80\x0a\x36\x3b\x55\x40\x52\x1c\x03\x69\xa6\xac",
        stored: b"blob 5\0old\r\n",
    },
    Object {
        letter: b'e',
        name: *b"\xe6\x9d\xe2\x9b\xb2\xd1\xd6\x43\x4b\x8b\x29\xae\x77\x5a\xd8\xc2\xe4\x8c\x53\x91",
        stored: b"blob 0\0",
    },
    Object {
        letter: b'p',
        name: *b"\x60\xc8\xd8\xab\x2a\xdc\xf5\x7a\x39\x11\x63\xa7\xee\xb0\xcd\xb8\xbf\x34\x8e\x44",
        stored: b"blob 130\0version https://git-lfs.github.com/spec/v1\n\
            oid sha256:4d7a214614ab2935c943f9e0ff69d22eadbb8f32b1258daaa5e2ca24d17e2393\nsize 12345\n",
    },
];

/// The name of the object with this letter. There is none with the name of `9`.
pub fn name_of(letter: u8) -> Result<ObjectId, Fail> {
    if letter == b'9' {
        return Ok([9; 20]);
    }
    for object in OBJECTS {
        if object.letter == letter {
            return Ok(object.name);
        }
    }
    Err(unknown(&[letter]))
}

/// Appends the objects with their names, as they are stored.
fn push_objects(alloc: Global, objects: &mut Vec<(ObjectId, Vec<u8>)>) -> Result<(), AllocError> {
    for object in OBJECTS {
        let stored = Vec::from_slice(alloc, object.stored)?;
        objects.push((object.name, stored))?;
    }
    Ok(())
}

/// The objects with their names, as they are stored.
pub fn objects(alloc: Global) -> Result<Vec<(ObjectId, Vec<u8>)>, AllocError> {
    let mut objects = Vec::new(alloc);
    push_objects(alloc, &mut objects)?;
    Ok(objects)
}
