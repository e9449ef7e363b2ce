//! A link to a long-running driver, or to a host that stands for one.
ghost use Rattle.one_shot.specs.Links.{either_seen};
ghost use Rattle.one_shot.specs.Replies.{once_seen, record_of, IsServed, TellNoAnswers};

use crate::run_link::RunLink;
use driver_host::Work;
use edge_kit::{Failed, Link, SendFault};

/// A link of the spawner below, or one to a host.
#[derive(Drop)]
pub enum OnceLink<L: Link, K: Link> {
    Inner(L),
    Hosted(K),
}

impl<L: Link, W: Work> OnceLink<L, RunLink<W>> {
    /// What it tells of its driver's answers is so, unless it is a link of the spawner below.
    #[tactic(auto, using(crate::proofs::RunLinks::unanswered))]
    pub(crate) fn serves(&self)
        ensures { TellNoAnswers L.seen
            → IsServed (record_of (once_seen L.seen W.told self.now)) }
    {
        match self {
            OnceLink::Inner(_) => {}
            OnceLink::Hosted(link) => link.serves(),
        }
    }
}

impl<L: Link, K: Link> Link for OnceLink<L, K> {
    ghost seen = { λ l. either_seen L.seen K.seen l };

    fn send(&mut self, piece: &[u8]) -> Result<(), SendFault> {
        match self {
            OnceLink::Inner(link) => link.send(piece),
            OnceLink::Hosted(link) => link.send(piece),
        }
    }

    fn read(&mut self, into: &mut [u8]) -> Result<usize, Failed> {
        match self {
            OnceLink::Inner(link) => link.read(into),
            OnceLink::Hosted(link) => link.read(into),
        }
    }

    fn shut_input(&mut self) -> Result<(), Failed> {
        match self {
            OnceLink::Inner(link) => link.shut_input(),
            OnceLink::Hosted(link) => link.shut_input(),
        }
    }

    fn wait_end(&mut self) -> Result<(), Failed> {
        match self {
            OnceLink::Inner(link) => link.wait_end(),
            OnceLink::Hosted(link) => link.wait_end(),
        }
    }
}
