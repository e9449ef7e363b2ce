ghost use Rattle.std.specs.Prelude.{◌≡◌, List, None};
ghost use Rattle.std.specs.Prelude.{ℕ, Bool};
ghost use Rattle.filter_words.specs.SmudgeReply.{reply_step, reply_start};
ghost use Rattle.filter_words.specs.Listing.{ListPhase, GoodList, list_step, list_start};
ghost use Rattle.filter_words.specs.Handshake.{handshake_step, handshake_start};
ghost use Rattle.filter_words.specs.declared.reply.Caps.{Caps};
ghost use Rattle.filter_words.specs.declared.handshake.HandshakePhase.{HandshakePhase};
ghost use Rattle.filter_words.specs.declared.smudge_reply.GoodReply.{GoodReply};
ghost use Rattle.filter_words.specs.declared.smudge_reply.ReplyPhase.{ReplyPhase};
ghost use Rattle.driver_line.specs.Conversations.{Exchange};
ghost use Rattle.driver_line.specs.EqualSessions.{EqualSessions};
ghost use Rattle.driver_line.specs.Lines.{LineView, Paths, RunsTo};
ghost use Rattle.driver_line.specs.OneContent.{OneContent};
ghost use Rattle.driver_line.specs.Parts.{IsOnePart};
ghost use Rattle.driver_line.specs.SameCauses.{SameCauses};
ghost use Rattle.driver_line.specs.SameHeard.{SameHeard};
ghost use Rattle.driver_line.specs.Starters.{IsSameStarter};
ghost use Rattle.driver_line.specs.Transcripts.{HasItems};

use filter_words::{one_handshake, one_list, one_reply};
use pkt_line::{no_packet, one_reading};

/// The exchanges of a line, from where no session is open to where none is, are spelled by the sessions and the failed
/// starts that its starter keeps. These go by the starts that it tells, with the same bytes where a session tells none.
pub fn exchanges_are_spelled()
    ensures { (paths : Paths) (v w : LineView) (es : List Exchange) → v.session ≡ None → w.session ≡ None
        → RunsTo paths v es w → HasItems paths v es w }
{}

/// Where no session is open before the exchanges of a line and none after them, as many links of its starter are out.
pub fn links_are_given_back()
    ensures { (paths : Paths) (v w : LineView) (es : List Exchange) → v.session ≡ None → w.session ≡ None
        → RunsTo paths v es w → w.starter.out ≡ v.starter.out }
{}

/// The starter of a line stays the one that it began with, and its count rises where a start fails.
pub fn a_starter_stays_the_same()
    ensures { (paths : Paths) (v w : LineView) (es : List Exchange)
        → RunsTo paths v es w → IsSameStarter es v.starter w.starter }
{}

/// Two answers to one request that stand at the front of one output are the same, and so are their packets and bytes,
/// however much of the output was taken. An end of input counts only if all of it was taken, and no answer may have
/// ended by a fault of the link or out of memory.
pub fn one_part()
    ensures reply { (d : Bool) → IsOnePart ReplyPhase GoodReply (reply_step d) reply_start }
    ensures list { (delayed : List (List ℕ)) → IsOnePart ListPhase GoodList (list_step delayed) list_start }
    ensures handshake { IsOnePart HandshakePhase Caps handshake_step handshake_start }
{
    one_reply();
    one_list();
    one_handshake();
    one_reading();
    no_packet();
}

/// Two talks over the same paths with a driver whose starts and outputs are the same tell the same of each path, where
/// no link failed and memory ran out for no path. If besides memory ran out in no exchange, they have the same
/// exchanges.
pub fn equal_outputs_give_equal_talks()
    ensures { SameHeard }
{
    one_part();
}

/// Two talks over the same paths with equal failed starts and sessions tell the same of each path, also where a link
/// failed, if memory ran out for no path. If besides memory ran out in no exchange, they have the same exchanges.
pub fn equal_sessions_give_equal_talks()
    ensures { EqualSessions }
{
    one_part();
}

/// The counts of a session tell how it broke: of two with equal counts that were both shut, or neither, both broke by a
/// fault of the link or neither, and so with an end of input.
pub fn counts_tell_the_cause()
    ensures { SameCauses }
{}

/// A path gets one content in a talk at most.
pub fn a_path_gets_one_content()
    ensures { OneContent }
{}
