ghost use Rattle.std.specs.Prelude.{◌≡◌, List, ℕ, Bool};
ghost use Rattle.filter_words.specs.SmudgeReply.{reply_step, reply_start};
ghost use Rattle.filter_words.specs.Listing.{ListPhase, GoodList, list_step, list_start};
ghost use Rattle.filter_words.specs.Handshake.{handshake_step, handshake_start};
ghost use Rattle.filter_words.specs.declared.reply.Caps.{Caps};
ghost use Rattle.filter_words.specs.declared.handshake.HandshakePhase.{HandshakePhase};
ghost use Rattle.filter_words.specs.declared.smudge_reply.GoodReply.{GoodReply};
ghost use Rattle.filter_words.specs.declared.smudge_reply.ReplyPhase.{ReplyPhase};
ghost use Rattle.filter_proto.specs.Wires.{Wire};
ghost use Rattle.filter_proto.specs.Exchanges.{Ends, IsExchange};
ghost use Rattle.filter_proto.specs.Openings.{IsOpening, Announces};
ghost use Rattle.filter_proto.specs.Cleans.{TellsClean};
ghost use Rattle.filter_proto.specs.Complete.{IsComplete, IsHeardOnce};

use filter_words::{one_handshake, one_list, one_reply};
use pkt_line::fault_stays;

/// If two answers to one request were taken from one output, in pieces of any length and however much of it, they are
/// the same, and if they are good their bytes are the same. An end of input counts only if the whole output was taken,
/// and no answer may have ended by a fault of the link or out of memory. For a list the same paths are delayed.
pub fn same_heard()
    ensures reply { (d : Bool) → IsHeardOnce ReplyPhase GoodReply (reply_step d) reply_start }
    ensures list { (delayed : List (List ℕ)) → IsHeardOnce ListPhase GoodList (list_step delayed) list_start }
    ensures handshake { IsHeardOnce HandshakePhase Caps handshake_step handshake_start }
{
    one_reply();
    one_list();
    one_handshake();
}

/// If what is left unread begins with a good answer, an exchange gives that answer, or its link failed, or memory ran
/// out. Whether a good handshake announces `clean` is what its output tells.
pub(crate) fn complete()
    ensures reply { (d : Bool) (text : List ℕ) (old new : Wire) (end : Ends GoodReply)
        → IsExchange (reply_step d) reply_start text old new end (λ _. Unit {0})
        → IsComplete (reply_step d) reply_start old new end }
    ensures list { (delayed : List (List ℕ)) (text : List ℕ) (old new : Wire) (end : Ends GoodList)
        → IsExchange (list_step delayed) list_start text old new end (λ _. Unit {0})
        → IsComplete (list_step delayed) list_start old new end }
    ensures handshake { (old new : Wire) (end : Ends Caps) → IsOpening old new end
        → IsComplete handshake_step handshake_start old new end }
    ensures clean { (clean : Bool) (old new : Wire) (caps : Caps) → Announces clean old new caps
        → TellsClean clean old }
{
    one_reply();
    one_list();
    one_handshake();
    fault_stays();
}
