//! A link to a host that runs a command once for each content.
ghost use Rattle.std.specs.Prelude.{◌≡◌, ◌<◌, ℕ, List, true, Some, length, OnOk, IfOk};
ghost use Rattle.edge_kit.specs.Faults.{Rose, AfterSend, AfterCall};
ghost use Rattle.edge_kit.specs.Links.{IsNewLink, Replies, Sends, Reads};
ghost use Rattle.driver_host.specs.HostLinks.{link_seen, left_of, IsFrontRead};
ghost use Rattle.driver_host.specs.Hosts.{IsHostAfter, TakesPiece};
ghost use Rattle.driver_host.specs.declared.work.Choice.{Choice};
ghost use Rattle.one_shot.specs.Replies.{smudge_alone, told_by, run_seen, IsServed, record_of};

use driver_host::{HostLink, Work};
use edge_kit::{Failed, Link, SendFault};
use std::marker::Model;

/// A link to a host that runs a command once for each content. If its host's link tells what is sent and taken, it
/// tells how its driver answers.
///
/// Its driver is gone once it met an end of input: each later send or read fails.
#[derive(Drop)]
pub struct RunLink<W: Work> {
    link: HostLink<W>,
    over: bool,
    faults: u64,
}

impl<W: Work> Model for RunLink<W> {
    ghost use Rattle.one_shot.specs.Replies.{RunState, IsRunLink};

    ghost Value = { RunState W };

    ghost view = { λ l. record { link = l.link; over = l.over; faults = l.faults } };

    ghost invariant = { λ l. IsRunLink W.told (record { link = l.link; over = l.over; faults = l.faults }) };
}

impl<W: Work> RunLink<W> {
    /// A link over one on which nothing was called, to a host that announces `smudge` alone.
    #[tactic(auto, using(crate::proofs::RunLinks::begins, crate::proofs::RunLinks::new_run))]
    pub(crate) fn begin(link: HostLink<W>) -> RunLink<W>
        requires fresh { IsNewLink (link_seen link) }
        requires kept { link.tells ≡ true → link.keeps ≡ true }
        requires caps { link.host.talk.own ≡ smudge_alone }
        requires batch { link.host.talk.batch ≡ 1 }
        requires plain { let told = W.told link.host.talk.work in
            (replies : Replies) → told.runs ≡ Some replies → told ≡ told_by replies }
        ensures link { result.link ≡ link }
        ensures faults { result.faults ≡ 0 }
        ensures fresh { IsNewLink (run_seen W.told result) }
    {
        let _tells = link.tells();
        RunLink {
            link,
            over: false,
            faults: 0,
        }
    }

    /// What it tells is a talk with a host that makes the choices which it tells.
    #[tactic(auto, using(crate::proofs::RunLinks::serves))]
    pub(crate) fn serves(&self)
        ensures { IsServed (record_of (run_seen W.told self.now)) }
    {
        let _link = &self.link;
    }

    /// Counts a call that failed.
    fn fail(&mut self)
        requires { self.old.over ≡ true }
        ensures same { self.new ≡ record self.old { faults = self.new.faults } }
        ensures rose { Rose self.old.faults self.new.faults }
    {
        self.faults = self.faults.saturating_add(1);
    }
}

#[tactic(auto, using(crate::proofs::RunLinks::never_rises))]
impl<W: Work> Link for RunLink<W> {
    ghost seen = { λ l. run_seen W.told l };

    fn send(&mut self, piece: &[u8]) -> Result<(), SendFault>
        ensures sent { let seen = run_seen W.told in Sends piece.now (seen self.old) (seen self.new) result }
        ensures faults { let seen = run_seen W.told in
            AfterSend (seen self.old).faults (seen self.new).faults result }
        ensures gives { OnOk result ((bytes : List ℕ) (cs : List Choice) (text : List ℕ)
            → IsHostAfter W.told W.latest bytes cs text self.old.link.host
            → TakesPiece W.told W.latest bytes cs text piece.now self.new.link.host
            (left_of self.old.link) (left_of self.new.link)) }
    {
        if self.over {
            self.fail();
            return Err(SendFault::Failed);
        }
        let Ok(()) = self.link.send(piece) else {
            return Err(SendFault::NoMemory);
        };
        let _tells = self.link.tells();
        Ok(())
    }

    fn read(&mut self, into: &mut [u8]) -> Result<usize, Failed>
        requires { 0 < length into.old }
        ensures taken { let seen = run_seen W.told in Reads into.new (seen self.old) (seen self.new) result }
        ensures faults { let seen = run_seen W.told in
            AfterCall (seen self.old).faults (seen self.new).faults result }
        ensures front { IfOk result (λ n. IsFrontRead (left_of self.old.link) into.new n (left_of self.new.link)) }
    {
        if self.over {
            self.fail();
            return Err(Failed);
        }
        let Ok(count) = self.link.read(into) else {
            unreachable!()
        };
        self.over = count == 0;
        let _tells = self.link.tells();
        Ok(count)
    }

    fn shut_input(&mut self) -> Result<(), Failed> {
        let Ok(()) = self.link.shut_input() else {
            unreachable!()
        };
        Ok(())
    }

    fn wait_end(&mut self) -> Result<(), Failed> {
        let Ok(()) = self.link.wait_end() else {
            unreachable!()
        };
        Ok(())
    }
}
