//! What the reading packet by packet has to do with the grammar of answers.
ghost use Rattle.std.specs.Prelude.{◌≡◌, ◌≤◌, ◌++◌, [], List, ℕ, Bool, true};
ghost use Rattle.pkt_line.specs.Packets.{Packet, SpellAll, HasNoPacket, total};
ghost use Rattle.filter_words.specs.Outcomes.{outcome, limit, IsEnd};
ghost use Rattle.filter_words.specs.Answer.{IsAnswer};
ghost use Rattle.filter_words.specs.Grammar.{block, IsOpen, IsBroken, IsOwnCause};
ghost use Rattle.filter_words.specs.SmudgeReply.{reply_step, reply_start, content_in};
ghost use Rattle.filter_words.specs.Words.{last_status};
ghost use Rattle.filter_words.specs.Requests.{first_text, keys_text, content_text, clean_text, clean_keys_text};
ghost use Rattle.filter_words.specs.ReplyGrammar.{IsReply, BreaksReply, joined};
ghost use Rattle.filter_words.specs.Listing.{ListPhase, GoodList, list_step, list_start};
ghost use Rattle.filter_words.specs.ListGrammar.{IsList, BreaksList};
ghost use Rattle.filter_words.specs.Handshake.{handshake_step, handshake_start};
ghost use Rattle.filter_words.specs.HandshakeGrammar.{IsHandshake, BreaksHandshake};
ghost use Rattle.filter_words.specs.declared.reply.Caps.{Caps};
ghost use Rattle.filter_words.specs.declared.handshake.HandshakePhase.{HandshakePhase};
ghost use Rattle.filter_words.specs.declared.reply.BreakCause.{BreakCause};
ghost use Rattle.filter_words.specs.declared.reply.BreakCause.TheVariants as cause;
ghost use Rattle.filter_words.specs.declared.smudge_reply.GoodReply.{GoodReply};
ghost use Rattle.filter_words.specs.declared.smudge_reply.GoodReply.TheVariants as good;
ghost use Rattle.filter_words.specs.declared.smudge_reply.ReplyPhase.{ReplyPhase};
ghost use Rattle.filter_words.specs.declared.answer_state.AnswerState.{AnswerState};
ghost use Rattle.filter_words.specs.declared.answer_state.AnswerState.TheVariants as state;

use crate::words::Status;
use pkt_line::{no_packet, one_reading, prefix_free};

/// A reply to a smudge request ends well exactly by its grammar and within the limit. While it is open it can still
/// become good. It is broken at the first packet that passes the limit, and then as too long, or else at the first
/// after which no continuation is good, with the cause that its statuses give.
pub fn reply_grammar()
    ensures good { (d : Bool) (ps : List Packet) (g : GoodReply)
        → outcome (reply_step d) limit reply_start ps ≡ state.Done g
        → IsReply d ps g × (total ps ≤ limit) }
    ensures again { (d : Bool) (ps : List Packet) (g : GoodReply) → IsReply d ps g
        → total ps ≤ limit → outcome (reply_step d) limit reply_start ps ≡ state.Done g }
    ensures opened { (d : Bool) (ps : List Packet) (p : ReplyPhase)
        → outcome (reply_step d) limit reply_start ps ≡ state.On p
        → IsOpen GoodReply (IsReply d) ps × (total ps ≤ limit) }
    ensures broken { (d : Bool) (ps : List Packet) (why : BreakCause)
        → outcome (reply_step d) limit reply_start ps ≡ state.Broken why
        → IsBroken GoodReply (IsReply d) (BreaksReply d) ps why }
{}

/// The content of a reply is what stands between its two key lists, and a reply of one key list has none.
pub fn reply_content()
    ensures long { (d : Bool) (keys pieces last_keys : List (List ℕ))
        → last_status None keys ≡ Some Status.Success
        → content_in d reply_start (block keys ++ (block pieces ++ block last_keys))
        ≡ joined pieces }
    ensures short { (d : Bool) (keys : List (List ℕ)) → content_in d reply_start (block keys) ≡ [] }
{}

/// If two replies are at the front of the same bytes and have come to their ends, they are the same. If an open reply
/// is at the front and no packet follows it, no longer reply that has ended is at the front of the same bytes. So what
/// a driver sends holds one reply at its front, however it is cut and however much of it was taken. A reply that has
/// ended, other than at the end of the output, stays so when more is sent after it.
pub fn one_reply()
    ensures same { (d : Bool) (ps qs : List Packet) (a b x y : List ℕ)
        (u v : AnswerState ReplyPhase GoodReply) → SpellAll ps a → SpellAll qs b → a ++ x ≡ b ++ y
        → outcome (reply_step d) limit reply_start ps ≡ u
        → outcome (reply_step d) limit reply_start qs ≡ v → IsEnd u → IsEnd v
        → (ps ≡ qs) × (a ≡ b) × (u ≡ v) }
    ensures none_longer { (d : Bool) (ps qs : List Packet) (a b x y : List ℕ) (p : ReplyPhase)
        (v : AnswerState ReplyPhase GoodReply) → SpellAll ps a → SpellAll qs b → a ++ x ≡ b ++ y
        → HasNoPacket x
        → outcome (reply_step d) limit reply_start ps ≡ state.On p
        → outcome (reply_step d) limit reply_start qs ≡ v → IsEnd v → ⊥ }
    ensures heard { (d : Bool) (a x c b y z : List ℕ) (u v : AnswerState ReplyPhase GoodReply)
        → IsAnswer (reply_step d) reply_start a x c u → IsAnswer (reply_step d) reply_start b y z v
        → a ++ (x ++ c) ≡ b ++ (y ++ z)
        → (u ≡ v) × ((g : GoodReply) → u ≡ state.Done g → a ≡ b) }
    ensures ended { (d : Bool) (used rest ahead more later : List ℕ)
        (u : AnswerState ReplyPhase GoodReply)
        → IsAnswer (reply_step d) reply_start used rest ahead u
        → (u ≡ state.Broken cause.Ended → ⊥)
        → IsAnswer (reply_step d) reply_start used (rest ++ more) later u }
{
    prefix_free();
    one_reading();
    no_packet();
}

/// The automaton and the grammar agree on the answer to a list request while these paths are delayed.
pub fn list_grammar()
    ensures good { (delayed : List (List ℕ)) (ps : List Packet) (g : GoodList)
        → outcome (list_step delayed) limit list_start ps ≡ state.Done g
        → IsList delayed ps g × (total ps ≤ limit) }
    ensures again { (delayed : List (List ℕ)) (ps : List Packet) (g : GoodList)
        → IsList delayed ps g → total ps ≤ limit
        → outcome (list_step delayed) limit list_start ps ≡ state.Done g }
    ensures opened { (delayed : List (List ℕ)) (ps : List Packet) (p : ListPhase)
        → outcome (list_step delayed) limit list_start ps ≡ state.On p
        → IsOpen GoodList (IsList delayed) ps × (total ps ≤ limit) }
    ensures broken { (delayed : List (List ℕ)) (ps : List Packet) (why : BreakCause)
        → outcome (list_step delayed) limit list_start ps ≡ state.Broken why
        → IsBroken GoodList (IsList delayed) (BreaksList delayed) ps why }
{}

/// Two ended answers to a list request at the front of the same bytes are equal.
pub fn one_list()
    ensures same { (delayed : List (List ℕ)) (ps qs : List Packet) (a b x y : List ℕ)
        (u v : AnswerState ListPhase GoodList) → SpellAll ps a → SpellAll qs b → a ++ x ≡ b ++ y
        → outcome (list_step delayed) limit list_start ps ≡ u
        → outcome (list_step delayed) limit list_start qs ≡ v → IsEnd u → IsEnd v
        → (ps ≡ qs) × (a ≡ b) × (u ≡ v) }
    ensures none_longer { (delayed : List (List ℕ)) (ps qs : List Packet) (a b x y : List ℕ)
        (p : ListPhase) (v : AnswerState ListPhase GoodList) → SpellAll ps a → SpellAll qs b
        → a ++ x ≡ b ++ y → HasNoPacket x
        → outcome (list_step delayed) limit list_start ps ≡ state.On p
        → outcome (list_step delayed) limit list_start qs ≡ v → IsEnd v → ⊥ }
    ensures heard { (delayed : List (List ℕ)) (a x c b y z : List ℕ)
        (u v : AnswerState ListPhase GoodList) → IsAnswer (list_step delayed) list_start a x c u
        → IsAnswer (list_step delayed) list_start b y z v → a ++ (x ++ c) ≡ b ++ (y ++ z)
        → (u ≡ v) × ((g : GoodList) → u ≡ state.Done g → a ≡ b) }
    ensures ended { (delayed : List (List ℕ)) (used rest ahead more later : List ℕ)
        (u : AnswerState ListPhase GoodList)
        → IsAnswer (list_step delayed) list_start used rest ahead u
        → (u ≡ state.Broken cause.Ended → ⊥)
        → IsAnswer (list_step delayed) list_start used (rest ++ more) later u }
{
    prefix_free();
    one_reading();
    no_packet();
}

/// The automaton and the grammar agree on the two answers to a handshake.
pub fn handshake_grammar()
    ensures good { (ps : List Packet) (caps : Caps)
        → outcome handshake_step limit handshake_start ps ≡ state.Done caps
        → IsHandshake ps caps × (total ps ≤ limit) }
    ensures again { (ps : List Packet) (caps : Caps) → IsHandshake ps caps → total ps ≤ limit
        → outcome handshake_step limit handshake_start ps ≡ state.Done caps }
    ensures opened { (ps : List Packet) (p : HandshakePhase)
        → outcome handshake_step limit handshake_start ps ≡ state.On p
        → IsOpen Caps IsHandshake ps × (total ps ≤ limit) }
    ensures broken { (ps : List Packet) (why : BreakCause)
        → outcome handshake_step limit handshake_start ps ≡ state.Broken why
        → IsBroken Caps IsHandshake BreaksHandshake ps why }
{}

/// Two ended handshakes at the front of the same bytes are equal.
pub fn one_handshake()
    ensures same { (ps qs : List Packet) (a b x y : List ℕ) (u v : AnswerState HandshakePhase Caps)
        → SpellAll ps a → SpellAll qs b → a ++ x ≡ b ++ y
        → outcome handshake_step limit handshake_start ps ≡ u
        → outcome handshake_step limit handshake_start qs ≡ v → IsEnd u → IsEnd v
        → (ps ≡ qs) × (a ≡ b) × (u ≡ v) }
    ensures none_longer { (ps qs : List Packet) (a b x y : List ℕ) (p : HandshakePhase)
        (v : AnswerState HandshakePhase Caps) → SpellAll ps a → SpellAll qs b → a ++ x ≡ b ++ y
        → HasNoPacket x
        → outcome handshake_step limit handshake_start ps ≡ state.On p
        → outcome handshake_step limit handshake_start qs ≡ v → IsEnd v → ⊥ }
    ensures heard { (a x c b y z : List ℕ) (u v : AnswerState HandshakePhase Caps)
        → IsAnswer handshake_step handshake_start a x c u
        → IsAnswer handshake_step handshake_start b y z v → a ++ (x ++ c) ≡ b ++ (y ++ z)
        → (u ≡ v) × ((g : Caps) → u ≡ state.Done g → a ≡ b) }
    ensures ended { (used rest ahead more later : List ℕ) (u : AnswerState HandshakePhase Caps)
        → IsAnswer handshake_step handshake_start used rest ahead u
        → (u ≡ state.Broken cause.Ended → ⊥)
        → IsAnswer handshake_step handshake_start used (rest ++ more) later u }
{
    prefix_free();
    one_reading();
    no_packet();
}

/// A reply is broken only with a cause of its own, and so is a handshake. It is delayed only if that was allowed.
pub fn own_causes()
    ensures reply { (d : Bool) (ps : List Packet) (why : BreakCause)
        → outcome (reply_step d) limit reply_start ps ≡ state.Broken why → IsOwnCause why }
    ensures handshake { (ps : List Packet) (why : BreakCause)
        → outcome handshake_step limit handshake_start ps ≡ state.Broken why → IsOwnCause why }
    ensures delayed { (d : Bool) (ps : List Packet)
        → outcome (reply_step d) limit reply_start ps ≡ state.Done good.Delayed → d ≡ true }
{}

/// The request for a path is its key list and then its content, which may be sent apart.
pub fn request_in_parts()
    ensures smudge { (path name : List ℕ) (d : Bool) (content : List ℕ)
        → first_text path name d content ≡ keys_text path name d ++ content_text content }
    ensures clean { (path content : List ℕ)
        → clean_text path content ≡ clean_keys_text path ++ content_text content }
{}
