//! The answer to a list request: each path that it names is listed in the table when its packet is whole.
ghost use Rattle.std.specs.Prelude.{◌≡◌, ◌≤◌, ◌<◌, ◌+◌, ◌-◌, ◌*◌, List, ℕ, length};
ghost use Rattle.pkt_line.specs.Packets.{Payload, Flush};
ghost use Rattle.delay_table.specs.Table.{Table};
ghost use Rattle.filter_proto.specs.Wires.{Wire};
ghost use Rattle.filter_proto.specs.Lists.{IsListExchange, delayed_in, standing_after_list};
ghost use Rattle.filter_proto.specs.Complete.{BeginsGood, GivesList};
ghost use Rattle.filter_words.specs.Listing.{GoodList, list_step, list_start};
ghost use Rattle.filter_proto.specs.ListSteps.{IsListing, IsReadList, ListStepIs, TakesName, TakesList};
ghost use Rattle.filter_proto.specs.declared.list_request.ListStep.TheVariants as step;

use crate::laws::complete;
use crate::session::{Session, Standing};
use delay_table::DelayTable;
use edge_kit::{Link, SendFault};
use filter_words::{
    AnswerState, BreakCause, ListPart, ListReply, MOST_ANSWER, list_after_flush, list_reply,
    listed_name, next_status,
};
use pkt_line::Next;

/// How far the reading of a list has come: how many bytes its packets may still take, in which part it is, and how many
/// paths it has listed.
#[derive(Drop)]
pub(crate) struct Listing {
    pub room: u64,
    pub part: ListPart,
    pub count: u32,
}

/// What one more packet, or more bytes, made of a list.
#[derive(Clone, Copy)]
pub(crate) enum ListStep {
    On,
    End(ListReply),
}

/// Lists the path that a line names, if it names one. It returns false if that path isn't delayed.
fn take_name(count: &mut u32, table: &mut DelayTable, line: &[u8]) -> bool
    requires { count.old < 536870912 }
    ensures takes { TakesName line.now count.old table.old result count.new table.new }
    ensures count { count.new ≤ count.old + 1 }
{
    table.names_differ();
    match listed_name(line) {
        Some(name) => match table.list(name) {
            Some(_) => {
                *count += 1;
                true
            }
            None => false,
        },
        None => true,
    }
}

/// Takes a payload.
fn take_list_line(listing: &mut Listing, table: &mut DelayTable, line: &[u8]) -> ListStep
    requires { listing.old.count + listing.old.room ≤ 536870912 }
    ensures takes { TakesList listing.old (Payload line.now) result listing.new table.old table.new }
    ensures count { listing.new.count + listing.new.room ≤ 536870912 }
    ensures fewer { result ≡ step.On → listing.new.room + (4 + length line.now) ≡ listing.old.room }
{
    let size = line.len() as u64 + 4;
    if listing.room < size {
        return ListStep::End(ListReply::Broken(BreakCause::TooLong));
    }
    listing.room -= size;
    match listing.part {
        ListPart::Names => {
            if take_name(&mut listing.count, table, line) {
                ListStep::On
            } else {
                ListStep::End(ListReply::Broken(BreakCause::StrangePath))
            }
        }
        ListPart::KeyList(status) => {
            listing.part = ListPart::KeyList(next_status(status, line));
            ListStep::On
        }
    }
}

/// Takes a flush packet.
#[tactic(auto, using(crate::proofs::Listings::flush_taken))]
fn take_list_flush(listing: &mut Listing) -> ListStep
    requires { listing.old.count + listing.old.room ≤ 536870912 }
    ensures takes { (table : Table) → TakesList listing.old Flush result listing.new table table }
    ensures count { listing.new.count + listing.new.room ≤ 536870912 }
    ensures fewer { result ≡ step.On → listing.new.room + 4 ≡ listing.old.room }
{
    if listing.room < 4 {
        return ListStep::End(ListReply::Broken(BreakCause::TooLong));
    }
    match list_after_flush(listing.part) {
        AnswerState::On(part) => {
            listing.room -= 4;
            listing.part = part;
            ListStep::On
        }
        AnswerState::Done(end) => ListStep::End(list_reply(end, listing.count)),
        AnswerState::Broken(cause) => ListStep::End(ListReply::Broken(cause)),
        AnswerState::Late => unreachable!(),
    }
}

impl<K: Link> Session<K> {
    /// Takes one more packet of a list, or more bytes.
    #[tactic(auto, using(crate::proofs::More::stands_long, crate::proofs::More::payload_long))]
    fn list_step(&mut self, listing: &mut Listing, table: &mut DelayTable) -> ListStep
        requires { listing.old.count + listing.old.room ≤ 536870912 }
        ensures step { (start : Wire) (before : Table) → IsListing start self.old.wire listing.old before table.old
            → ListStepIs start self.new.wire result listing.new before table.new }
        ensures count { listing.new.count + listing.new.room ≤ 536870912 }
        ensures smaller { result ≡ step.On → 2 * listing.new.room + (65520 - length self.new.wire.unread)
            < 2 * listing.old.room + (65520 - length self.old.wire.unread) }
        ensures sent { self.new.wire.sent ≡ self.old.wire.sent }
        ensures stage { self.new.wire.stage ≡ self.old.wire.stage }
        ensures rest { self.new ≡ record self.old { wire = self.new.wire } }
    {
        match self.peek() {
            Ok(Next::NeedMore) => match self.fill() {
                Ok(()) => ListStep::On,
                Err(cause) => ListStep::End(ListReply::Broken(cause)),
            },
            Ok(Next::Flush) => {
                let step = take_list_flush(listing);
                self.skip(4);
                step
            }
            Ok(Next::Payload(line)) => {
                let size = 4 + line.len();
                let step = take_list_line(listing, table, line);
                self.skip(size);
                step
            }
            Err(_) => ListStep::End(ListReply::Broken(BreakCause::BadPacket)),
        }
    }

    /// Reads a list.
    fn read_list(&mut self, table: &mut DelayTable) -> ListReply
        ensures read { IsReadList self.old.wire self.new.wire table.old table.new result }
        ensures sent { self.new.wire.sent ≡ self.old.wire.sent }
        ensures stage { self.new.wire.stage ≡ self.old.wire.stage }
        ensures rest { self.new ≡ record self.old { wire = self.new.wire } }
    {
        let mut listing = Listing {
            room: MOST_ANSWER,
            part: ListPart::Names,
            count: 0,
        };
        loop {
            match self.list_step(&mut listing, table) {
                ListStep::On => {}
                ListStep::End(reply) => return reply,
            }
        }
    }

    /// Asks for a list and reads it.
    #[tactic(auto, using(crate::proofs::Listings::list_asked))]
    fn ask_list(&mut self, table: &mut DelayTable) -> ListReply
        ensures exchange { IsListExchange self.old.wire self.new.wire table.old table.new result }
        ensures rest { self.new ≡ record self.old { wire = self.new.wire } }
    {
        match self.send_list() {
            Ok(()) => self.read_list(table),
            Err(SendFault::Failed) => ListReply::Broken(BreakCause::LinkFault),
            Err(SendFault::NoMemory) => ListReply::NoMemory,
        }
    }

    /// Asks which of the delayed paths are ready. Each path that the driver names is listed in the table, in the
    /// driver's order.
    pub fn list(&mut self, table: &mut DelayTable) -> ListReply
        requires live { self.old.standing ≡ Standing.Live }
        ensures exchange { IsListExchange self.old.wire self.new.wire table.old table.new result }
        ensures complete { (g : GoodList) → BeginsGood (list_step (delayed_in table.old)) list_start self.old.wire g
            → GivesList g self.old.wire self.new.wire result }
        ensures standing { self.new ≡ record self.old {
          wire = self.new.wire;
          standing = standing_after_list result;
        } }
    {
        complete();
        let reply = self.ask_list(table);
        self.set_standing(standing_after_list(reply));
        reply
    }
}

/// The standing of a session after a list.
fn standing_after_list(reply: ListReply) -> Standing
    ensures { result ≡ standing_after_list reply }
{
    match reply {
        ListReply::Names(_) | ListReply::Empty => Standing::Live,
        ListReply::Abort => Standing::Aborted,
        ListReply::Broken(_) | ListReply::NoMemory => Standing::Over,
    }
}
