ghost use Rattle.std.specs.Prelude.{◌≡◌, ◌<◌, length};
ghost use Rattle.edge_kit.specs.Faults.{AfterSend, AfterCall};
ghost use Rattle.edge_kit.specs.Links.{LinkSeen, Sends, Reads, input_shut, waited};

use crate::faults::{Failed, SendFault};

/// The two pipes of a driver that was started.
pub trait Link: Drop {
    /// What was sent and taken and what is left, its counts of faults and of ends of input, and how
    /// far it was shut.
    ghost seen: { Self → LinkSeen };

    /// Sends the whole piece. After an error a proper first part of it was sent, or nothing.
    fn send(&mut self, piece: &[u8]) -> Result<(), SendFault>
        ensures sent { Sends piece.now (seen self.old) (seen self.new) result }
        ensures faults { AfterSend (seen self.old).faults (seen self.new).faults result };

    /// Takes bytes from the front of what is left, and returns how many. 0 is an end of input.
    fn read(&mut self, into: &mut [u8]) -> Result<usize, Failed>
        requires { 0 < length into.old }
        ensures taken { Reads into.new (seen self.old) (seen self.new) result }
        ensures faults { AfterCall (seen self.old).faults (seen self.new).faults result };

    /// Closes the driver's input.
    fn shut_input(&mut self) -> Result<(), Failed>
        ensures kept { seen self.new ≡ record (seen self.old) {
          stage = input_shut (seen self.old).stage;
          faults = (seen self.new).faults;
        } }
        ensures faults { AfterCall (seen self.old).faults (seen self.new).faults result };

    /// Waits for the driver's exit, whatever its exit status.
    fn wait_end(&mut self) -> Result<(), Failed>
        ensures kept { seen self.new ≡ record (seen self.old) {
          stage = waited (seen self.old).stage;
          faults = (seen self.new).faults;
        } }
        ensures faults { AfterCall (seen self.old).faults (seen self.new).faults result };
}
