//! What a host answers is good, and what a client sends are requests.
ghost use Rattle.std.specs.Prelude.{◌≡◌, ◌≤◌, ◌++◌, [], List, ℕ, Bool, true, length};
ghost use Rattle.filter_words.specs.HandshakeGrammar.{IsHandshake};
ghost use Rattle.filter_words.specs.ReplyGrammar.{IsReply};
ghost use Rattle.filter_words.specs.SmudgeReply.{reply_start, content_in};
ghost use Rattle.filter_words.specs.ListGrammar.{IsList, AreExpected};
ghost use Rattle.filter_words.specs.Listing.{Listed, list_step, list_start};
ghost use Rattle.filter_words.specs.Requests.{hello_packets, caps_packets, smudge_packets, list_packets};
ghost use Rattle.filter_words.specs.declared.reply.Caps.{Caps};
ghost use Rattle.driver_host.specs.declared.work.Choice.{Choice};
ghost use Rattle.driver_host.specs.declared.work.Choice.TheVariants as choice;
ghost use Rattle.driver_host.specs.Requests.{IsRequest, Hello, Offer, Smudge, Listing};
ghost use Rattle.driver_host.specs.Answers.{hello_answer, caps_answer, choice_answer, list_answer, reply_to, given};
ghost use Rattle.driver_host.specs.Answers.{AreListable};
ghost use Rattle.pkt_line.specs.Packets.{Packet, total};
ghost use Rattle.filter_words.specs.Outcomes.{outcome, limit};
ghost use Rattle.filter_words.specs.Handshake.{handshake_step, handshake_start};
ghost use Rattle.filter_words.specs.declared.answer_state.AnswerState.TheVariants as state;
ghost use Rattle.driver_host.specs.HostText.{Stage, Serving, Owed, Answers};
ghost use Rattle.driver_host.specs.GoodAnswers.{IsHeardAs};

use filter_words::{handshake_grammar, list_grammar, reply_content, reply_grammar};

/// The two answers to a handshake are a driver's.
pub fn right_handshake()
    ensures { (caps : Caps) → IsHandshake (hello_answer ++ caps_answer caps) caps }
{}

/// The answer to a request for a path is a good reply, with the content that the choice gives.
pub fn right_replies()
    ensures good { (d : Bool) (c : Choice) → (c ≡ choice.Later → d ≡ true)
        → IsReply d (choice_answer c) (reply_to c) }
    ensures content { (d : Bool) (c : Choice) → content_in d reply_start (choice_answer c) ≡ given c }
{
    reply_content();
}

/// The answer to a request for a list is a good list of these names, if each is expected.
pub fn right_lists()
    ensures { (delayed names : List (List ℕ)) → AreListable names → AreExpected delayed [] names
        → IsList delayed (list_answer names) (Listed names) }
{}

/// What a client sends are the requests that it means.
pub fn client_requests()
    ensures hello { IsRequest Hello hello_packets }
    ensures offer { IsRequest (Offer (record { smudge = true; delay = true })) caps_packets }
    ensures smudge { (path name content : List ℕ) (d : Bool)
        → IsRequest (Smudge path d content) (smudge_packets path name d content) }
    ensures listing { IsRequest Listing list_packets }
{}

/// Each answer of at most 536,870,912 bytes of packets is a good one to a client, which reads it packet by packet.
pub fn good_answers()
    ensures handshake { (caps : Caps)
        → outcome handshake_step limit handshake_start (hello_answer ++ caps_answer caps)
        ≡ state.Done caps }
    ensures smudge { (own : Caps) (batch : ℕ) (agreed : Caps) (owed : Owed) (path content : List ℕ)
        (d : Bool) (cs : List Choice) (ps : List Packet) (t : Stage)
        → Answers own batch (Serving agreed owed) (Smudge path d content) cs ps t
        → total ps ≤ limit → IsHeardAs d cs ps }
    ensures list { (delayed names : List (List ℕ)) → AreListable names → AreExpected delayed [] names
        → total (list_answer names) ≤ limit
        → outcome (list_step delayed) limit list_start (list_answer names)
        ≡ state.Done (Listed names) }
{
    right_handshake();
    right_replies();
    right_lists();
    handshake_grammar();
    reply_grammar();
    list_grammar();
}
