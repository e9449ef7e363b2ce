//! What the drivers of a case write.
use byte_path::{Bytes, Items};
use case_kit::{Cell, Words, given, meant, number_of, parted, unknown};
use edge_kit::{DriverScript, SessionScript};
use one_shot::OnceScript;
use std::alloc::{AllocError, Global};
use std::test::Fail;
use std::vec::Vec;

/// A session in which a driver writes this. A read gives at most so many bytes.
fn session_of(
    alloc: Global,
    starts: bool,
    output: &[u8],
    piece: u32,
) -> Result<SessionScript, AllocError> {
    Ok(SessionScript {
        starts,
        output: Bytes::copy_of(alloc, output)?,
        piece,
        fail_send: None,
        fail_read: None,
    })
}

fn script_of(alloc: Global, command: &[u8], output: &[u8]) -> Result<DriverScript, AllocError> {
    let mut sessions = Vec::new(alloc);
    sessions.push(session_of(alloc, true, output, 1000)?)?;
    Ok(DriverScript {
        command: Bytes::copy_of(alloc, command)?,
        sessions: Items::from_vec(sessions),
    })
}

/// A single run of this command that reads and writes nothing and ends well.
fn single_of(alloc: Global, command: &[u8]) -> Result<OnceScript, AllocError> {
    Ok(OnceScript {
        command: Bytes::copy_of(alloc, command)?,
        input: Bytes::copy_of(alloc, b"")?,
        output: Bytes::copy_of(alloc, b"")?,
        zero: true,
    })
}

/// What a cell says of the drivers.
#[derive(Clone, Copy)]
enum Word {
    Driver,
    Gives,
    Fails,
    Piece,
    Cut,
}

const WORDS: Words<Word> = &[
    (b"driver", Word::Driver),
    (b"gives", Word::Gives),
    (b"fails", Word::Fails),
    (b"piece", Word::Piece),
    (b"cut", Word::Cut),
];

/// What the drivers of a case write.
#[derive(Drop)]
pub struct DriverCase {
    /// The drivers of one session.
    pub drivers: Vec<DriverScript>,
    /// The starts of the driver `lfs`, and how many bytes a read of the next one gives.
    pub starts: Vec<SessionScript>,
    piece: u32,
    pub singles: Vec<OnceScript>,
}

impl DriverCase {
    /// No driver.
    pub fn new(alloc: Global) -> DriverCase {
        DriverCase {
            drivers: Vec::new(alloc),
            starts: Vec::new(alloc),
            piece: 1000,
            singles: Vec::new(alloc),
        }
    }

    /// Cuts the last start's session.
    fn cut(&mut self, word: &[u8]) -> Result<(), Fail> {
        let Some(session) = self.starts.last_mut() else {
            return Err(unknown(word));
        };
        if word == b"send".as_slice() {
            session.fail_send = Some(0);
        } else if word == b"read".as_slice() {
            session.fail_read = Some(0);
        } else {
            return Err(unknown(word));
        }
        Ok(())
    }

    /// Adds a start of the driver `lfs`.
    fn start(&mut self, session: Result<SessionScript, AllocError>) -> Result<(), AllocError> {
        Ok(self.starts.push(session?)?)
    }

    /// Adds a driver of one session.
    fn add(&mut self, script: Result<DriverScript, AllocError>) -> Result<(), AllocError> {
        Ok(self.drivers.push(script?)?)
    }

    /// Takes what a cell says of the drivers.
    fn take(&mut self, alloc: Global, word: Word, value: &[u8]) -> Result<(), Fail> {
        match word {
            Word::Driver => {
                let (command, output) = parted(value);
                given(self.add(script_of(alloc, command, output)))
            }
            Word::Gives => given(self.start(session_of(alloc, true, value, self.piece))),
            Word::Fails => given(self.start(session_of(alloc, false, b"", 1000))),
            Word::Piece => {
                self.piece = number_of(value)?;
                Ok(())
            }
            Word::Cut => self.cut(value),
        }
    }

    /// Takes what a cell says of the drivers. Whether it is such a cell.
    pub fn set(&mut self, alloc: Global, word: &[u8], value: &[u8]) -> Result<bool, Fail> {
        match meant(WORDS, word) {
            Some(word) => {
                self.take(alloc, word, value)?;
                Ok(true)
            }
            None => set_single(alloc, &mut self.singles, word, value),
        }
    }
}

/// What a cell says of the last single run.
#[derive(Clone, Copy)]
enum Single {
    Reads,
    Writes,
    Broken,
}

const SINGLES: Words<Single> = &[
    (b"reads", Single::Reads),
    (b"writes", Single::Writes),
    (b"broken", Single::Broken),
];

/// Takes what a cell says of a single run.
fn take_single(
    alloc: Global,
    single: &mut OnceScript,
    word: Single,
    value: &[u8],
) -> Result<(), AllocError> {
    match word {
        Single::Reads => single.input = Bytes::copy_of(alloc, value)?,
        Single::Writes => single.output = Bytes::copy_of(alloc, value)?,
        Single::Broken => single.zero = false,
    }
    Ok(())
}

/// Adds a single run.
fn add_single(
    singles: &mut Vec<OnceScript>,
    single: Result<OnceScript, AllocError>,
) -> Result<bool, Fail> {
    singles.push(single?)?;
    Ok(true)
}

/// Takes what a cell says of the single runs. Whether it is such a cell.
fn set_single(
    alloc: Global,
    singles: &mut Vec<OnceScript>,
    word: &[u8],
    value: &[u8],
) -> Result<bool, Fail> {
    if word == b"single".as_slice() {
        return add_single(singles, single_of(alloc, value));
    }
    match (singles.last_mut(), meant(SINGLES, word)) {
        (Some(single), Some(word)) => {
            take_single(alloc, single, word, value)?;
            Ok(true)
        }
        _ => Ok(false),
    }
}

/// Takes each of these cells.
fn set_singles(alloc: Global, singles: &mut Vec<OnceScript>, cells: &[Cell]) -> Result<(), Fail> {
    for cell in cells {
        if !set_single(alloc, singles, &cell.key, &cell.value)? {
            return Err(unknown(&cell.key));
        }
    }
    Ok(())
}

/// The single runs of these cells.
pub fn singles_of(alloc: Global, cells: &[Cell]) -> Result<Vec<OnceScript>, Fail> {
    let mut singles = Vec::new(alloc);
    set_singles(alloc, &mut singles, cells)?;
    Ok(singles)
}
