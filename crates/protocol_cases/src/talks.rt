//! A talk with a driver that has written all its output.
//!
//! The kind `talk` first has the cells of the driver and its link, in any order:
//!
//! - `part`: a part of the output, and `parts`: a number, and a part that comes so often. A read gives bytes of one
//!   part;
//! - `piece`: how many bytes a read gives at most;
//! - `fails`: `send` or `read`, which fails at once;
//! - `forgets`: neither the link nor a page keeps its bytes.
//!
//! Where the handshake breaks, its cause comes. Otherwise each step has a line:
//!
//! - `ask` and `again`, each with a path and behind a space the content: the reply, what the puts answered, the page's
//!   state, how many bytes it was put and, if it keeps them, these. With `ask-broken` the page's next put fails;
//! - `list`: the reply; `listed`: the places that are listed; `deliver`: the first of them; `puts`: how many there
//!   were.
//!
//! Then come `live` or `over`, and how far the link is shut. A last cell `then` asks for what was `sent`, for the
//! `sizes` of all and of the longest send, or for the puts at each of the `reads`.
ghost use Rattle.std.specs.Prelude.{◌≡◌};
ghost use Rattle.edge_kit.specs.declared.leaf_state.LeafState.TheVariants as leaf_state;

use crate::delays::table_of_six;
use crate::page::{Counter, Page};
use crate::pipe::Pipe;
use crate::runs::{folded, unfolded};
use byte_path::ObjectId;
use case_kit::{Cell, Words, found, given, meant, number_of, parted, push_all, shown, unknown};
use delay_table::DelayTable;
use edge_kit::{Link, SendFault};
use filter_proto::{Begun, Session};
use filter_words::{BreakCause, Reply};
use std::alloc::{AllocError, Global};
use std::test::Fail;

/// The name that `git hash-object` gives to a pointer of 130 bytes to a large file. Each request has this name.
const NAME: ObjectId =
    *b"\x60\xc8\xd8\xab\x2a\xdc\xf5\x7a\x39\x11\x63\xa7\xee\xb0\xcd\xb8\xbf\x34\x8e\x44";

/// What came of a request.
type Came = (Reply, Result<(), SendFault>);

/// What a talk has beside its session.
#[derive(Drop)]
pub struct Talk {
    alloc: Global,
    table: DelayTable,
    puts: Counter,
    keeps: bool,
    // the lines so far
    came: Vec<u8>,
}

impl Talk {
    /// A talk in which nothing was said.
    pub fn new(alloc: Global, puts: Counter, keeps: bool) -> Result<Talk, AllocError> {
        Ok(Talk {
            alloc,
            table: table_of_six(alloc)?,
            puts,
            keeps,
            came: Vec::new(alloc),
        })
    }

    /// Adds the line of a request.
    fn push_asked(&mut self, came: Came, page: &Page) -> Result<(), AllocError> {
        let told = format!(in self.alloc; "{came:?} {:?} {}:", page.state, page.bytes)?;
        push_all(&mut self.came, &[told.as_bytes(), &page.content, b"\n"])
    }

    /// The lines.
    pub fn into_came(self) -> Vec<u8> {
        self.came
    }

    /// Adds a line.
    pub fn push_line(&mut self, line: &[u8]) -> Result<(), AllocError> {
        push_all(&mut self.came, &[line, b"\n"])
    }

    /// What a look at the table or at the puts tells.
    fn looked(&mut self, look: Look) -> Result<Vec<u8>, AllocError> {
        let alloc = self.alloc;
        match look {
            Look::Listed => shown(alloc, self.table.listed()),
            Look::Deliver => shown(alloc, self.table.deliver()),
            Look::Puts => shown(alloc, self.puts.get()),
        }
    }

    /// Takes a step that looks at the table or at the puts.
    fn take_look(&mut self, look: Look) -> Result<(), AllocError> {
        let line = self.looked(look)?;
        self.push_line(&line)
    }
}

/// What a step looks at.
#[derive(Clone, Copy)]
enum Look {
    Listed,
    Deliver,
    Puts,
}

/// Asks for a path and its content, or again for a path, if that is allowed.
fn ask<K: Link>(
    session: &mut Session<K>,
    path: &[u8],
    content: Option<&[u8]>,
    page: &mut Page,
) -> Option<Came>
    requires { page.old.state ≡ leaf_state.Fresh }
{
    if !session.live() {
        return None;
    }
    if !session.caps().smudge {
        return None;
    }
    if path.is_empty() || path.len() > 4096 {
        return None;
    }
    let asked = match content {
        Some(content) => session.ask(path, &NAME, content, page),
        None => session.ask_again(path, &NAME, page),
    };
    Some((asked.reply, asked.put))
}

/// A request with a fresh page, of which the put with this number fails.
fn take_request<K: Link>(
    talk: &mut Talk,
    session: &mut Session<K>,
    path: &[u8],
    content: Option<&[u8]>,
    fails: Option<u32>,
) -> Result<(), Fail> {
    let mut page = Page::new(talk.alloc, talk.puts.clone()?, talk.keeps, fails);
    let Some(came) = ask(session, path, content, &mut page) else {
        return Err(unknown(path));
    };
    talk.push_asked(came, &page)?;
    Ok(())
}

/// A list request.
fn take_list<K: Link>(talk: &mut Talk, session: &mut Session<K>) -> Result<(), Fail> {
    if !session.live() {
        return Err(unknown(b"list"));
    }
    let reply = session.list(&mut talk.table);
    let line = shown(talk.alloc, reply)?;
    talk.push_line(&line)?;
    Ok(())
}

/// What a step does.
#[derive(Clone, Copy)]
enum Step {
    Ask,
    AskBroken,
    Again,
    List,
    Listed,
    Deliver,
    Puts,
    Then,
}

const STEPS: Words<Step> = &[
    (b"ask", Step::Ask),
    (b"ask-broken", Step::AskBroken),
    (b"again", Step::Again),
    (b"list", Step::List),
    (b"listed", Step::Listed),
    (b"deliver", Step::Deliver),
    (b"puts", Step::Puts),
    (b"then", Step::Then),
];

/// A request with a content in which long runs are folded.
fn take_ask<K: Link>(
    talk: &mut Talk,
    session: &mut Session<K>,
    path: &[u8],
    content: &[u8],
) -> Result<(), Fail> {
    let content = unfolded(talk.alloc, content)?;
    take_request(talk, session, path, Some(&content), None)
}

/// Takes a step.
fn take_step<K: Link>(talk: &mut Talk, session: &mut Session<K>, cell: &Cell) -> Result<(), Fail> {
    let (path, content) = parted(&cell.value);
    match found(STEPS, &cell.key)? {
        Step::Ask => take_ask(talk, session, path, content),
        Step::AskBroken => {
            let fails = talk.puts.get();
            take_request(talk, session, path, Some(content), Some(fails))
        }
        Step::Again => take_request(talk, session, path, None, None),
        Step::List => take_list(talk, session),
        Step::Listed => given(talk.take_look(Look::Listed)),
        Step::Deliver => given(talk.take_look(Look::Deliver)),
        Step::Puts => given(talk.take_look(Look::Puts)),
        Step::Then => Ok(()),
    }
}

/// Takes each step behind this many cells.
pub fn take_steps<K: Link>(
    talk: &mut Talk,
    session: &mut Session<K>,
    cells: &[Cell],
    count: usize,
) -> Result<(), Fail> {
    for cell in cells.iter().skip(count) {
        take_step(talk, session, cell)?;
    }
    Ok(())
}

/// What a cell says of the driver and its link.
#[derive(Clone, Copy)]
enum Part {
    Part,
    Parts,
    Piece,
    Fails,
    Forgets,
}

const PARTS: Words<Part> = &[
    (b"part", Part::Part),
    (b"parts", Part::Parts),
    (b"piece", Part::Piece),
    (b"fails", Part::Fails),
    (b"forgets", Part::Forgets),
];

/// Adds a part in which long runs are folded, which comes this many times.
fn add_part(alloc: Global, pipe: &mut Pipe, part: &[u8], times: u32) -> Result<(), Fail> {
    let part = unfolded(alloc, part)?;
    given(pipe.add(alloc, &part, times))
}

/// Sets what a cell says of the driver and its link.
fn set_part(alloc: Global, pipe: &mut Pipe, part: Part, value: &[u8]) -> Result<(), Fail> {
    match part {
        Part::Part => return add_part(alloc, pipe, value, 1),
        Part::Parts => {
            let (times, part) = parted(value);
            return add_part(alloc, pipe, part, number_of(times)?);
        }
        Part::Piece => pipe.piece = number_of(value)? as usize,
        Part::Fails => {
            pipe.fails_send = value == b"send".as_slice();
            pipe.fails_read = value == b"read".as_slice();
        }
        Part::Forgets => pipe.keeps = false,
    }
    Ok(())
}

/// Takes a cell of the driver, and returns whether it is one.
fn take_part(alloc: Global, pipe: &mut Pipe, cell: &Cell) -> Result<bool, Fail> {
    match meant(PARTS, &cell.key) {
        Some(part) => {
            set_part(alloc, pipe, part, &cell.value)?;
            Ok(true)
        }
        None => Ok(false),
    }
}

/// Takes the first cells, which are the driver's, and returns how many they are.
fn take_parts(alloc: Global, pipe: &mut Pipe, cells: &[Cell]) -> Result<usize, Fail> {
    let mut count = 0usize;
    for cell in cells {
        if !take_part(alloc, pipe, cell)? {
            break;
        }
        count = count.saturating_add(1);
    }
    Ok(count)
}

/// The driver of the first cells, and how many they are.
pub fn pipe_of(alloc: Global, cells: &[Cell]) -> Result<(Pipe, usize), Fail> {
    let mut pipe = Pipe::new(alloc)?;
    let count = take_parts(alloc, &mut pipe, cells)?;
    Ok((pipe, count))
}

/// What a last cell asks for.
#[derive(Clone, Copy)]
enum Then {
    Sent,
    Sizes,
    Reads,
}

const THENS: Words<Then> = &[
    (b"sent", Then::Sent),
    (b"sizes", Then::Sizes),
    (b"reads", Then::Reads),
];

/// What a last cell asks for.
fn then_of(alloc: Global, pipe: &Pipe, then: Then) -> Result<Vec<u8>, AllocError> {
    match then {
        Then::Sent => folded(alloc, &pipe.sent),
        Then::Sizes => shown(alloc, (pipe.sent_bytes, pipe.most_sent)),
        Then::Reads => shown(alloc, pipe.puts.as_slice()),
    }
}

/// Appends how a session and its link end, and what the last cell asks for.
pub fn push_end(
    alloc: Global,
    came: &mut Vec<u8>,
    live: bool,
    pipe: &Pipe,
    cells: &[Cell],
) -> Result<(), Fail> {
    came.extend_from_slice(if live { b"live " } else { b"over " })?;
    came.extend_from_slice(pipe.end_word())?;
    let Some(last) = cells.last() else {
        return Ok(());
    };
    if last.key.as_slice() == b"then".as_slice() {
        let then = then_of(alloc, pipe, found(THENS, &last.value)?)?;
        came.extend_from_slice(b"\n")?;
        came.extend_from_slice(&then)?;
    }
    Ok(())
}

/// What comes of a broken handshake.
pub fn broken(alloc: Global, cause: BreakCause, pipe: &Pipe) -> Result<Vec<u8>, AllocError> {
    let mut came = shown(alloc, cause)?;
    push_all(&mut came, &[b" ", pipe.end_word()])?;
    Ok(came)
}

/// Takes the steps behind this many cells with a session that has begun, and ends it.
fn take_session(
    talk: &mut Talk,
    mut session: Session<Pipe>,
    cells: &[Cell],
    count: usize,
) -> Result<(), Fail> {
    take_steps(talk, &mut session, cells, count)?;
    let live = session.live();
    push_end(talk.alloc, &mut talk.came, live, &session.shut(), cells)
}

/// A talk about this pipe in which nothing was said.
fn talk_over(alloc: Global, pipe: &Pipe) -> Result<Talk, AllocError> {
    Talk::new(alloc, pipe.counter()?, pipe.keeps)
}

/// What comes of the steps behind this many cells.
fn told(mut talk: Talk, begun: Begun<Pipe>, cells: &[Cell], count: usize) -> Result<Vec<u8>, Fail> {
    match begun {
        Begun::Live(session) => {
            take_session(&mut talk, session, cells, count)?;
            Ok(talk.into_came())
        }
        Begun::Broken(pipe, cause) => Ok(broken(talk.alloc, cause, &pipe)?),
        Begun::NoMemory(_) => Err(Fail::from(AllocError)),
    }
}

/// What comes of a case of the kind `talk`.
pub fn talked(alloc: Global, cells: &[Cell]) -> Result<Vec<u8>, Fail> {
    let (pipe, count) = pipe_of(alloc, cells)?;
    let talk = talk_over(alloc, &pipe)?;
    told(talk, Session::begin(alloc, pipe), cells, count)
}
