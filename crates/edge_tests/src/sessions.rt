//! A session with a real child process.
ghost use Rattle.std.specs.Prelude.{◌≡◌, ◌⊎◌, None, []};
ghost use Rattle.edge_kit.specs.declared.leaf_state.LeafState.TheVariants as leaf_state;

use edge_adapters::{ProcessLink, ProcessSpawner};
use edge_kit::{Failed, Leaf, LeafState, Mark, SendFault, Spawner, Starter};
use filter_proto::{Begun, Session};
use filter_words::{BreakCause, Reply};
use std::alloc::Global;
use std::test::Fail;

/// A leaf that keeps what it is put, and tells nothing of it.
#[derive(Drop)]
struct Page {
    content: Vec<u8>,
    state: LeafState,
}

impl Page {
    fn new(alloc: Global) -> Page
        ensures { result.state ≡ LeafState.Fresh }
    {
        Page {
            content: Vec::new(alloc),
            state: LeafState::Fresh,
        }
    }
}

impl Leaf for Page {
    ghost seen = { λ p. record { path = []; content = None; state = p.state; faults = 0 } };

    ghost fresh_content = { λ _ _. tt };

    fn put(&mut self, piece: &[u8]) -> Result<(), SendFault> {
        if self.content.extend_from_slice(piece).is_err() {
            return Err(SendFault::NoMemory);
        }
        self.state = LeafState::Partly;
        Ok(())
    }

    fn restart(&mut self) -> Result<(), Failed> {
        self.state = LeafState::Fresh;
        Ok(())
    }

    fn seal(&mut self, mark: Mark) -> Result<(), Failed> {
        self.state = LeafState::Sealed(mark);
        Ok(())
    }

    fn discard(&mut self) -> Result<(), Failed> {
        self.state = LeafState::Gone;
        Ok(())
    }
}

/// A driver that answers a handshake and one request, and reads its input to the end.
const ONE_ANSWER: &[u8] =
    b"printf '0016git-filter-server\\n000eversion=2\\n00000016capability=smudge\\n0000\
0013status=success\\n0000000bpixels\\n00000000'; cat >/dev/null";

/// A driver that closes its output after the handshake.
const NO_ANSWER: &[u8] =
    b"printf '0016git-filter-server\\n000eversion=2\\n00000016capability=smudge\\n0000'
exec >&-; cat >/dev/null";

/// The reply to a request for `big.psd`, if it may be made and no put fails.
fn reply_of(session: &mut Session<ProcessLink>, page: &mut Page) -> Option<Reply>
    requires { page.old.state ≡ leaf_state.Fresh }
{
    if !session.live() {
        return None;
    }
    if !session.caps().smudge {
        return None;
    }
    let asked = session.ask(b"big.psd", &[7; 20], b"pointer", page);
    match asked.put {
        Ok(()) => Some(asked.reply),
        Err(_) => None,
    }
}

/// Whether a request to this driver gets this reply, and this content is put.
fn is_asked(rt: HostRuntime, command: &[u8], want: Reply, content: &[u8]) -> Result<bool, Fail> {
    let mut starter = ProcessSpawner::new(rt).starter(command)?;
    let Ok(link) = starter.start() else {
        return Ok(false);
    };
    let mut page = Page::new(rt.alloc());
    let Begun::Live(mut session) = Session::begin(rt.alloc(), link) else {
        return Ok(false);
    };
    let reply = reply_of(&mut session, &mut page);
    starter.end(session.shut());
    Ok(reply == Some(want) && page.content.as_slice() == content)
}

#[test]
fn a_child_process_is_asked(rt: HostRuntime) -> Result<(), Fail> {
    assert!(rt; is_asked(rt, ONE_ANSWER, Reply::Content, b"pixels\n")?);
    assert!(rt; is_asked(rt, NO_ANSWER, Reply::Broken(BreakCause::Ended), b"")?);
    Ok(())
}
