//! A session that cleans: the way of a content from a worktree to the repository.
ghost use Rattle.std.specs.Prelude.{◌≡◌, IsTrue, ◌↔◌, ◌≤◌, ℕ, true, false, List, [], length};
ghost use Rattle.filter_words.specs.declared.reply.BreakCause.{BreakCause};
ghost use Rattle.filter_words.specs.declared.reply.Caps.{Caps};
ghost use Rattle.filter_words.specs.Handshake.{handshake_step, handshake_start};
ghost use Rattle.filter_words.specs.Requests.{clean_text};
ghost use Rattle.filter_words.specs.SmudgeReply.{reply_step, reply_start};
ghost use Rattle.filter_proto.specs.Wires.{SessionSeen, wire_of, IsShutAfter};
ghost use Rattle.filter_proto.specs.Exchanges.{Good, Broke, OutOfMemory};
ghost use Rattle.filter_proto.specs.Openings.{IsOpening, Announces};
ghost use Rattle.filter_proto.specs.Complete.{IsComplete};
ghost use Rattle.filter_proto.specs.Cleans.{TellsClean, IsCleaning, cleaned_end, cleaned_of, standing_after_clean};

use crate::asked::Asked;
use crate::content::Content;
use crate::handshake::{Begun, Opened};
use crate::laws::complete;
use crate::session::{Session, Standing};
use byte_path::Bytes;
use edge_kit::Link;
use filter_words::{BreakCause, Reply, own_causes};
use std::alloc::Global;
use std::marker::Model;

/// What a driver made of a content that it was asked to clean.
#[derive(Drop)]
pub enum Cleaned {
    Content(Bytes),
    Error,
    /// `status=error` after the content.
    ErrorAfter,
    Abort,
    Broken(BreakCause),
    NoMemory,
}

/// What came of the opening of a session that cleans.
#[derive(Drop)]
pub enum CleanBegun<K: Link> {
    Live(CleanSession<K>),
    /// The driver doesn't announce `clean`. The link isn't shut.
    NoClean(K),
    Broken(K, BreakCause),
    NoMemory(K),
}

/// A session with a driver that announces `clean`: gitattributes(5), "Long Running Filter Process".
#[derive(Drop)]
pub struct CleanSession<K: Link> {
    session: Session<K>,
}

impl<K: Link> Model for CleanSession<K> {
    ghost use Rattle.filter_proto.specs.Wires.{SessionSeen};

    ghost Value = { SessionSeen };

    ghost view = { λ s. s.session };
}

impl<K: Link> CleanSession<K> {
    /// Opens a session over a link, as `Session::begin` does. It is live if a line of the driver's second answer is
    /// `capability=clean`, and `NoClean` if none is.
    pub fn begin(alloc: Global, link: K) -> CleanBegun<K>
        ensures live { (s : SessionSeen) → result ≡ CleanBegun.Live s
            → Announces true (wire_of [] (K.seen link)) s.wire s.caps }
        ensures standing { (s : SessionSeen) → result ≡ CleanBegun.Live s → s.standing ≡ Standing.Live }
        ensures no_clean { (l : K) → result ≡ CleanBegun.NoClean l → (unread : List ℕ) × (caps : Caps)
            × Announces false (wire_of [] (K.seen link)) (wire_of unread (K.seen l)) caps }
        ensures live_told { (s : SessionSeen) → result ≡ CleanBegun.Live s → TellsClean true (wire_of [] (K.seen link)) }
        ensures no_clean_told { (l : K) → result ≡ CleanBegun.NoClean l → TellsClean false (wire_of [] (K.seen link)) }
        ensures broken { (l : K) (why : BreakCause) → result ≡ CleanBegun.Broken l why
            → (unread : List ℕ) × IsOpening (wire_of [] (K.seen link)) (wire_of unread (K.seen l)) (Broke why) }
        ensures live_complete { (s : SessionSeen) → result ≡ CleanBegun.Live s
            → IsComplete handshake_step handshake_start (wire_of [] (K.seen link)) s.wire (Good s.caps) }
        ensures broken_complete { (l : K) (why : BreakCause) → result ≡ CleanBegun.Broken l why
            → IsComplete handshake_step handshake_start (wire_of [] (K.seen link)) (wire_of [] (K.seen l)) (Broke why) }
        ensures no_memory { (l : K) → result ≡ CleanBegun.NoMemory l
            → (unread : List ℕ) × IsOpening (wire_of [] (K.seen link)) (wire_of unread (K.seen l)) OutOfMemory }
    {
        complete();
        let Opened { begun, clean } = Session::open(alloc, link);
        match begun {
            Begun::Live(session) => {
                if clean {
                    CleanBegun::Live(CleanSession { session })
                } else {
                    CleanBegun::NoClean(session.into_link())
                }
            }
            Begun::Broken(link, cause) => CleanBegun::Broken(link, cause),
            Begun::NoMemory(link) => CleanBegun::NoMemory(link),
        }
    }

    /// Whether it can be asked: false after an abort, a break or out of memory.
    pub fn live(&self) -> bool
        ensures { IsTrue result ↔ (self.now.standing ≡ Standing.Live) }
    {
        self.session.live()
    }

    /// Asks the driver to clean a content for a path of 1 to 4,096 bytes. The content of the reply is kept in memory.
    /// If there is no room for it, the rest of the reply is read and dropped.
    pub fn ask(&mut self, path: &[u8], content: &[u8]) -> Cleaned
        requires live { self.old.standing ≡ Standing.Live }
        requires some { 1 ≤ length path.now }
        requires few { length path.now ≤ 4096 }
        ensures exchange { IsCleaning (clean_text path.now content.now) self.old.wire self.new.wire result }
        ensures complete { IsComplete (reply_step false) reply_start self.old.wire self.new.wire (cleaned_end result) }
        ensures standing { self.new ≡ record self.old {
          wire = self.new.wire;
          standing = standing_after_clean result;
        } }
    {
        own_causes();
        complete();
        let mut kept = Content::new(self.session.alloc());
        let asked = self.session.request_clean(path, content, &mut kept);
        let cleaned = cleaned_of(asked, kept);
        self.session.set_standing(standing_after(&cleaned));
        cleaned
    }

    /// Ends a session and gives its link back, as `Session::shut` does.
    pub fn shut(self) -> K
        ensures { IsShutAfter self.standing self.wire (K.seen result) }
    {
        self.session.shut()
    }
}

/// What a reply gives, with what was kept of its content.
fn cleaned_of(asked: Asked, kept: Content) -> Cleaned
    ensures { result ≡ cleaned_of asked.reply asked.put kept.bytes.items }
{
    match asked.reply {
        Reply::Content => match asked.put {
            Ok(()) => Cleaned::Content(kept.into_bytes()),
            Err(_) => Cleaned::NoMemory,
        },
        Reply::Error => Cleaned::Error,
        Reply::ErrorAfter => Cleaned::ErrorAfter,
        Reply::Abort => Cleaned::Abort,
        // It doesn't come: no `can-delay=1` was sent.
        Reply::Delayed => Cleaned::Broken(BreakCause::StrangeDelay),
        Reply::Broken(cause) => Cleaned::Broken(cause),
        Reply::NoMemory => Cleaned::NoMemory,
    }
}

/// The standing of a session after a clean request.
fn standing_after(cleaned: &Cleaned) -> Standing
    ensures { result ≡ standing_after_clean cleaned.now }
{
    match cleaned {
        Cleaned::Content(_) | Cleaned::Error | Cleaned::ErrorAfter => Standing::Live,
        Cleaned::Abort => Standing::Aborted,
        Cleaned::Broken(_) | Cleaned::NoMemory => Standing::Over,
    }
}
