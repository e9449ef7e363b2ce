//! A child process `git cat-file --batch`, which gives one object after another (git-cat-file(1)).
ghost use Rattle.std.specs.Prelude.{◌≡◌, ◌↔◌, ◌+◌, ◌++◌, ◌≤◌, ◌<◌, IfOk, IfSome, IsTrue, None, Ok, Some, codes, length};
ghost use Rattle.edge_kit.specs.Told.{Untold, Takes};
ghost use Rattle.git_edge.specs.declared.cat_file.Head.TheVariants.{Missing};

use byte_path::{ObjectId, read_decimal};
use edge_adapters::write_whole;
use edge_kit::TakeFault;
use git_answers::{Git, fault_of};
use memchr::memchr;
use std::alloc::Global;
use std::io;
use std::io::{ErrorKind, PipeReader, PipeWriter, Read};
use std::process::Child;

/// A child that has answered all that it was asked, but for at most one object that it was asked for ahead. When it is
/// dropped it is ended, and waited for.
pub struct CatFile {
    child: Child,
    input: PipeWriter,
    output: PipeReader,
    // the object that it was asked for ahead
    ahead: Option<ObjectId>,
}

/// The bytes of a first read: a head and, of most source files, all of the content.
const FIRST: usize = 4096;

/// The longest object that is read only to be dropped: what a pipe holds (pipe(7)), so that all of it may be there.
const DROPPED: u64 = 65_536;

/// What the line before a content says behind the object's name.
#[derive(Clone, Copy)]
enum Head<'a> {
    Missing,
    /// The object has this kind and size, here as a text and as a number.
    There { text: &'a [u8], size: u64 },
}

/// What stands behind the front of a line, if the line begins with it.
fn behind<'a>(front: &[u8], line: &'a [u8]) -> Option<&'a [u8]>
    ensures { IfSome result (λ rest. line.now ≡ front.now ++ rest.now) }
{
    if line.len() < front.len() {
        return None;
    }
    let (begun, rest) = line.split_at(front.len());
    if begun == front { Some(rest) } else { None }
}

/// What a line says behind the name that was asked for. A line of any other object says nothing.
fn behind_name<'a>(digits: &[u8], line: &'a [u8]) -> Option<&'a [u8]>
    ensures { IfSome result (λ rest. line.now ≡ digits.now ++ codes " " ++ rest.now) }
{
    behind(b" ", behind(digits, line)?)
}

fn is_missing(rest: &[u8]) -> bool
    ensures { IsTrue result ↔ (rest.now ≡ codes "missing") }
{
    rest == b"missing".as_slice()
}

/// What a line without its end says of the object with this name in hex.
fn head_of<'a>(digits: &[u8], line: &'a [u8]) -> Option<Head<'a>> {
    let text = behind_name(digits, line)?;
    if is_missing(text) {
        return Some(Head::Missing);
    }
    let space = memchr(b' ', text)?;
    let (_, size) = text.split_at(space + 1);
    Some(Head::There {
        text,
        size: read_decimal(size, u64::MAX)?,
    })
}

/// An object as it is stored: the text before its NUL, and how many bytes it has in all.
#[derive(Clone, Copy)]
struct Stored<'a> {
    head: &'a [u8],
    len: u64,
}

/// The object with this head and a content of this size.
fn stored_with(head: &[u8], size: u64) -> Option<Stored<'_>>
    ensures { IfSome result (λ s. s.len ≡ length head.now + 1 + size) }
{
    let len = size.checked_add(1)?.checked_add(head.len() as u64)?;
    Some(Stored { head, len })
}

/// The object that an answer with this head has, or `None` if it isn't there.
fn answered(head: Option<Head<'_>>, limit: u64) -> Result<Option<Stored<'_>>, TakeFault>
    ensures missing { head.entry ≡ Some Missing → result ≡ Ok None }
    ensures within { IfOk result (λ told. IfSome told (λ s. s.len ≤ limit)) }
{
    match head {
        None => Err(TakeFault::Failed),
        Some(Head::Missing) => Ok(None),
        Some(Head::There { text, size }) => match stored_with(text, size) {
            Some(stored) if stored.len <= limit => Ok(Some(stored)),
            _ => Err(TakeFault::TooLong),
        },
    }
}

/// Reads until there is a whole line, and returns how many bytes were read and where the line ends.
fn read_line(pipe: &mut PipeReader, into: &mut [u8]) -> io::Result<(usize, usize)>
    ensures { IfOk result (λ at. (at.1 < at.0) × (at.0 ≤ length into.new)) }
{
    let mut had = 0;
    for _ in 0..u64::MAX {
        let (_, free) = into.split_at_mut(had);
        match pipe.read(free) {
            Ok(0) => return Err(io::Error::from(ErrorKind::UnexpectedEof)),
            Ok(count) => had += count,
            Err(error) if error.kind() == ErrorKind::Interrupted => {}
            Err(error) => return Err(error),
        }
        let (read, _) = into.split_at(had);
        if let Some(end) = memchr(b'\n', read) {
            return Ok((had, end));
        }
    }
    Err(io::Error::from(ErrorKind::Interrupted))
}

impl CatFile {
    /// Starts a child.
    pub fn start(git: &Git) -> io::Result<CatFile> {
        let mut command = git.object_giver()?;
        let (asked, input) = io::pipe(&git.rt)?;
        let (output, given) = io::pipe(&git.rt)?;
        command.stdin(asked);
        command.stdout(given);
        let child = command.spawn(&git.rt)?;
        Ok(CatFile {
            child,
            input,
            output,
            ahead: None,
        })
    }

    /// Ends the child, and starts another one in its place.
    fn restart(&mut self, git: &Git) -> Result<(), TakeFault> {
        match CatFile::start(git) {
            Ok(child) => {
                *self = child;
                Ok(())
            }
            Err(error) => Err(fault_of(&error)),
        }
    }

    /// Asks for an object.
    fn ask(&mut self, name: &ObjectId) -> Result<(), TakeFault> {
        let mut line = [b'\n'; 41];
        let (digits, _) = line.split_at_mut(40);
        let _ = hex::encode_to_slice(name.as_slice(), digits);
        match write_whole(&mut self.input, line.as_slice()) {
            Ok(()) => Ok(()),
            Err(ErrorKind::OutOfMemory) => Err(TakeFault::NoMemory),
            Err(_) => Err(TakeFault::Failed),
        }
    }

    /// Asks for the object that will probably be taken next, if there is one, once the last take went well. The
    /// child gets it ready meanwhile, as far as the pipe holds it. Returns whether the child is still of use.
    pub fn ask_ahead(&mut self, next: Option<ObjectId>) -> bool {
        let Some(name) = next else {
            return true;
        };
        self.ahead = Some(name);
        self.ask(&name).is_ok()
    }

    /// The object with this name as it is stored uncompressed, or `None` if it isn't there. After an error the child is
    /// of no more use.
    pub fn take(
        &mut self,
        git: &Git,
        name: &ObjectId,
        limit: u64,
    ) -> Result<Option<Vec<u8>>, TakeFault>
        ensures { Takes Untold limit result }
    {
        let mut first = [0u8; FIRST];
        let (had, end) = self.answer(git, name, first.as_mut_slice())?;
        let (read, _) = first.split_at(had);
        self.receive(git.alloc, name, read, end, limit)
    }

    /// Reads until the line of the answer for an object is whole, as `read_line` does.
    fn answer(
        &mut self,
        git: &Git,
        name: &ObjectId,
        into: &mut [u8],
    ) -> Result<(usize, usize), TakeFault>
        ensures { IfOk result (λ at. (at.1 < at.0) × (at.0 ≤ length into.new)) }
    {
        if self.was_asked(git, name)? {
            if let Ok(read) = read_line(&mut self.output, into) {
                return Ok(read);
            }
            // The child may have ended before it was asked, which is no fault of the object: another one decides.
            self.restart(git)?;
        }
        self.ask(name)?;
        match read_line(&mut self.output, into) {
            Ok(read) => Ok(read),
            Err(error) => Err(fault_of(&error)),
        }
    }

    /// Whether the child was asked for this object ahead. If it was asked for another one, that answer is dropped.
    fn was_asked(&mut self, git: &Git, name: &ObjectId) -> Result<bool, TakeFault> {
        match self.ahead.take() {
            None => Ok(false),
            Some(asked) if asked == *name => Ok(true),
            Some(asked) => {
                if !self.drop_answer(git.alloc, &asked) {
                    self.restart(git)?;
                }
                Ok(false)
            }
        }
    }

    /// Reads the answer for an object that nobody wants. Returns whether the child is still of use, as after a
    /// short one.
    fn drop_answer(&mut self, alloc: Global, name: &ObjectId) -> bool {
        let mut first = [0u8; FIRST];
        let Ok((had, end)) = read_line(&mut self.output, first.as_mut_slice()) else {
            return false;
        };
        let (read, _) = first.split_at(had);
        self.receive(alloc, name, read, end, DROPPED).is_ok()
    }

    /// The object of this name, where so much of the answer was read, whose line ends there.
    fn receive(
        &mut self,
        alloc: Global,
        name: &ObjectId,
        read: &[u8],
        end: usize,
        limit: u64,
    ) -> Result<Option<Vec<u8>>, TakeFault>
        requires { end < length read.now }
        ensures { Takes Untold limit result }
    {
        let mut digits = [0u8; 40];
        let _ = hex::encode_to_slice(name.as_slice(), digits.as_mut_slice());
        let (line, rest) = read.split_at(end);
        let Some(stored) = answered(head_of(digits.as_slice(), line), limit)? else {
            return Ok(None);
        };
        let (_, begun) = rest.split_at(1);
        Ok(Some(self.take_rest(alloc, stored, begun)?))
    }

    /// The object whose content has begun.
    fn take_rest(
        &mut self,
        alloc: Global,
        object: Stored<'_>,
        begun: &[u8],
    ) -> Result<Vec<u8>, TakeFault>
        ensures { IfOk result (λ stored. length stored.items ≡ object.entry.len) }
    {
        let Stored { head, len } = object;
        // the line end behind the content, and one byte so that the end is seen without growing
        let room = len.saturating_add(2);
        let mut stored = Vec::with_capacity(alloc, room as usize)?;
        stored.extend_from_slice(head)?;
        stored.extend_from_slice(b"\0")?;
        stored.extend_from_slice(begun)?;
        let left = len.saturating_add(1).saturating_sub(stored.len() as u64);
        if let Err(error) = self.output.by_ref().take(left).read_to_end(&mut stored) {
            return Err(fault_of(&error));
        }
        if stored.pop() != Some(b'\n') || stored.len() as u64 != len {
            return Err(TakeFault::Failed);
        }
        Ok(stored)
    }
}

impl Drop for CatFile {
    fn drop(self) {
        let CatFile {
            mut child,
            input,
            output,
            ahead: _,
        } = self;
        drop(input);
        drop(output);
        // It only reads, so it may be ended anywhere.
        if child.kill().is_ok() {
            let _ = child.wait();
        }
    }
}
