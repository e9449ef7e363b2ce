//! A session with a driver: its calls, each over one exchange.
ghost use Rattle.std.specs.Prelude.{◌≡◌, IsTrue, ◌↔◌, ◌≤◌, ◌<◌, IfOk, OnOk, take, drop, length, vec_len};
ghost use Rattle.pkt_line.specs.Packets.{IsPartial, HasPacketOf};
ghost use Rattle.filter_words.specs.Requests.{first_text, clean_text, list_text};
ghost use Rattle.edge_kit.specs.Faults.{AfterCall};
ghost use Rattle.edge_kit.specs.Links.{Reads};
ghost use Rattle.filter_proto.specs.Wires.{wire_of, Filled, FillFails, Sees, SendsOn, IsShutAfter};

use crate::sent_parts::{SmudgeRequest, send_clean, send_list, send_smudge};
use edge_kit::{Failed, Link, SendFault};
use filter_words::{BreakCause, Caps};
use pkt_line::{Next, PktFault, PktReader};
use std::alloc::Global;
use std::marker::Model;

/// Whether a session can be asked.
#[derive(Clone, Copy)]
pub enum Standing {
    Live,
    Aborted,
    /// It broke, or memory ran out.
    Over,
}

/// A session with a driver over a link: gitattributes(5), "Long Running Filter Process".
#[derive(Drop)]
pub struct Session<K: Link> {
    alloc: Global,
    link: K,
    reader: PktReader,
    // what a read gives
    piece: Vec<u8>,
    // one packet of a request
    text: Vec<u8>,
    caps: Caps,
    standing: Standing,
}

impl<K: Link> Model for Session<K> {
    ghost use Rattle.std.specs.Prelude.{◌<◌, vec_len};
    ghost use Rattle.filter_proto.specs.Wires.{SessionSeen, wire_of};

    ghost Value = { SessionSeen };

    ghost view = { λ s. record {
      wire = wire_of s.reader.unread (K.seen s.link);
      caps = s.caps;
      standing = s.standing;
    } };

    ghost invariant = { λ s. 0 < vec_len s.piece };
}

impl<K: Link> Session<K> {
    /// What the driver announced.
    pub fn caps(&self) -> Caps
        ensures { result ≡ self.now.caps }
    {
        self.caps
    }

    /// Whether it can be asked: false after an abort, a break or out of memory.
    pub fn live(&self) -> bool
        ensures { IsTrue result ↔ (self.now.standing ≡ Standing.Live) }
    {
        match self.standing {
            Standing::Live => true,
            Standing::Aborted | Standing::Over => false,
        }
    }

    pub(crate) fn set_standing(&mut self, standing: Standing)
        ensures { self.new ≡ record self.old { standing = standing } }
    {
        self.standing = standing;
    }

    /// A session over a link from which nothing was read.
    pub(crate) fn over(alloc: Global, link: K, reader: PktReader, piece: Vec<u8>) -> Session<K>
        requires { 0 < vec_len piece }
        ensures wire { result.wire ≡ wire_of reader.unread (K.seen link) }
        ensures standing { result.standing ≡ Standing.Live }
    {
        Session {
            alloc,
            link,
            reader,
            piece,
            text: Vec::new(alloc),
            caps: Caps {
                smudge: false,
                delay: false,
            },
            standing: Standing::Live,
        }
    }

    pub(crate) fn set_caps(&mut self, caps: Caps)
        ensures { self.new ≡ record self.old { caps = caps } }
    {
        self.caps = caps;
    }

    /// Its link, with nothing called on it.
    pub(crate) fn into_link(self) -> K
        ensures { wire_of self.wire.unread (K.seen result) ≡ self.wire }
    {
        let Session { link, .. } = self;
        link
    }

    pub(crate) fn alloc(&self) -> Global {
        self.alloc
    }

    /// What is at the front of what is unread.
    #[tactic(auto, using(crate::proofs::Told::sees))]
    pub(crate) fn peek(&self) -> Result<Next<'_>, PktFault>
        ensures { Sees result self.now.wire.unread }
    {
        self.reader.peek()
    }

    /// Drops the packet at the front, which takes this many bytes.
    pub(crate) fn skip(&mut self, size: usize)
        requires { HasPacketOf size self.old.wire.unread }
        ensures { self.new ≡ record self.old {
          wire = record self.old.wire { unread = drop size self.old.wire.unread };
        } }
    {
        self.reader.skip(size);
    }

    /// Sends a piece.
    #[tactic(auto, using(crate::proofs::Told::sends_on))]
    pub(crate) fn send(&mut self, piece: &[u8]) -> Result<(), SendFault>
        ensures sends { SendsOn piece.now self.old.wire self.new.wire result }
        ensures rest { self.new ≡ record self.old { wire = self.new.wire } }
    {
        self.link.send(piece)
    }

    /// Sends the request to smudge a content for a path.
    #[tactic(auto, using(crate::proofs::Told::sends_all_on))]
    pub(crate) fn send_smudge(&mut self, request: &SmudgeRequest<'_>) -> Result<(), SendFault>
        requires some { 1 ≤ length request.now.path.now }
        requires few { length request.now.path.now ≤ 4096 }
        ensures sends { SendsOn
            (first_text request.now.path.now request.now.name.now
            request.now.can_delay request.now.content.now)
            self.old.wire self.new.wire result }
        ensures rest { self.new ≡ record self.old { wire = self.new.wire } }
    {
        send_smudge(self.alloc, &mut self.link, &mut self.text, request)
    }

    /// Sends the request to clean a content for a path.
    #[tactic(auto, using(crate::proofs::Told::sends_all_on))]
    pub(crate) fn send_clean(&mut self, path: &[u8], content: &[u8]) -> Result<(), SendFault>
        requires some { 1 ≤ length path.now }
        requires few { length path.now ≤ 4096 }
        ensures sends { SendsOn (clean_text path.now content.now) self.old.wire self.new.wire result }
        ensures rest { self.new ≡ record self.old { wire = self.new.wire } }
    {
        send_clean(self.alloc, &mut self.link, &mut self.text, path, content)
    }

    /// Sends the request for a list.
    #[tactic(auto, using(crate::proofs::Told::sends_all_on))]
    pub(crate) fn send_list(&mut self) -> Result<(), SendFault>
        ensures sends { SendsOn list_text self.old.wire self.new.wire result }
        ensures rest { self.new ≡ record self.old { wire = self.new.wire } }
    {
        send_list(self.alloc, &mut self.link, &mut self.text)
    }

    /// Takes more bytes, if less than a packet is there.
    pub(crate) fn fill(&mut self) -> Result<(), BreakCause>
        requires { IsPartial self.old.wire.unread }
        ensures ok { OnOk result (Filled self.old.wire self.new.wire) }
        ensures more { OnOk result (length self.old.wire.unread < length self.new.wire.unread) }
        ensures most { length self.new.wire.unread ≤ 65520 }
        ensures err { FillFails self.old.wire self.new.wire result }
        ensures sent { self.new.wire.sent ≡ self.old.wire.sent }
        ensures stage { self.new.wire.stage ≡ self.old.wire.stage }
        ensures rest { self.new ≡ record self.old { wire = self.new.wire } }
    {
        let room = self.reader.room();
        let most = if room < self.piece.len() {
            room
        } else {
            self.piece.len()
        };
        match read_some(&mut self.link, &mut self.piece, most) {
            Ok(count) => {
                if count == 0 {
                    return Err(BreakCause::Ended);
                }
                let (front, _) = self.piece.split_at(count);
                let _ = self.reader.feed(front);
                Ok(())
            }
            Err(_) => Err(BreakCause::LinkFault),
        }
    }

    /// Ends a session and gives its link back. If the session could be asked or was aborted, the input of its link is
    /// shut and its end is waited for, and a fault there changes nothing else. On any other link nothing is called.
    pub fn shut(self) -> K
        ensures { IsShutAfter self.standing self.wire (K.seen result) }
    {
        let Session {
            mut link,
            standing,
            ..
        } = self;
        match standing {
            Standing::Live | Standing::Aborted => {
                let _ = link.shut_input();
                let _ = link.wait_end();
            }
            Standing::Over => {}
        }
        link
    }
}

/// Reads at most this many bytes into a piece.
fn read_some<K: Link>(link: &mut K, piece: &mut [u8], most: usize) -> Result<usize, Failed>
    requires some { 0 < most }
    requires within { most ≤ length piece.old }
    ensures taken { Reads piece.new (K.seen link.old) (K.seen link.new) result }
    ensures faults { AfterCall (K.seen link.old).faults (K.seen link.new).faults result }
    ensures within { IfOk result (λ n. n ≤ most) }
{
    let (front, _) = piece.split_at_mut(most);
    link.read(front)
}
