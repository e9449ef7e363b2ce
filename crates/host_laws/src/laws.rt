//! The laws of a client's talk with a host.
ghost use Rattle.std.specs.Prelude.{◌≡◌, ◌≤◌, ◌++◌, Bool, true, List, ℕ, []};
ghost use Rattle.pkt_line.specs.Packets.{total};
ghost use Rattle.pkt_line.specs.Spelling.{spelling_all};
ghost use Rattle.filter_words.specs.Outcomes.{limit};
ghost use Rattle.filter_words.specs.SmudgeReply.{reply_step, reply_start};
ghost use Rattle.filter_words.specs.Listing.{Listed, list_step, list_start};
ghost use Rattle.filter_words.specs.ListGrammar.{AreExpected};
ghost use Rattle.filter_words.specs.Handshake.{handshake_step, handshake_start};
ghost use Rattle.filter_words.specs.declared.reply.Caps.{Caps};
ghost use Rattle.filter_proto.specs.Exchanges.{Good};
ghost use Rattle.filter_proto.specs.Openings.{BeginsHello};
ghost use Rattle.driver_line.specs.Lines.{HasContent};
ghost use Rattle.driver_line.specs.Transcripts.{IsPart};
ghost use Rattle.driver_host.specs.declared.work.Choice.{Choice};
ghost use Rattle.driver_host.specs.declared.work.Choice.TheVariants as choice;
ghost use Rattle.driver_host.specs.Answers.{hello_answer, caps_answer, choice_answer, list_answer};
ghost use Rattle.driver_host.specs.Answers.{reply_to, given, AreListable};
ghost use Rattle.pkt_line.specs.Packets.{Packet};
ghost use Rattle.driver_host.specs.Requests.{Request, IsRequest};
ghost use Rattle.driver_host.specs.HostText.{Stage, Fresh, HostEnd};
ghost use Rattle.host_laws.specs.Awaiting.{Awaits, MayCome, IsTaken};
ghost use Rattle.host_laws.specs.Exchanges.{RepliesAreGood, ListsAreGood, HandshakesAreGood};
ghost use Rattle.driver_host.specs.Chosen.{IsChosenText};
ghost use Rattle.one_shot.specs.Onces.{RunsTold, Untold, told_of};
ghost use Rattle.one_shot.specs.Replies.{smudge_alone};
ghost use Rattle.one_shot.specs.Works.{work_told};
ghost use Rattle.host_laws.specs.HostTalks.{AnswersFit, HostedTalk};
ghost use Rattle.host_laws.specs.OnceTalks.{OnceHeard};
ghost use Rattle.host_laws.specs.KeptTalks.{KeptHeard, KeptHadMemory};

use driver_host::{client_requests, right_handshake, right_lists, right_replies};
use driver_line::one_part;
use filter_words::{handshake_grammar, list_grammar, reply_grammar};
use pkt_line::{no_packet, one_reading, prefix_free, spells};

/// What a host answers to a request is a good answer to it, at the front of whatever follows.
pub fn one_exchange()
    ensures reply { (d : Bool) (c : Choice) (rest : List ℕ) → (c ≡ choice.Later → d ≡ true)
        → total (choice_answer c) ≤ limit
        → IsPart (reply_step d) reply_start (spelling_all (choice_answer c)) rest (Good (reply_to c))
        (HasContent d (given c)) }
    ensures list { (delayed names : List (List ℕ)) (rest : List ℕ) → AreListable names
        → AreExpected delayed [] names → total (list_answer names) ≤ limit
        → IsPart (list_step delayed) list_start (spelling_all (list_answer names)) rest
        (Good (Listed names)) (λ _. Unit {0}) }
    ensures handshake { (caps : Caps) (rest : List ℕ)
        → IsPart handshake_step handshake_start (spelling_all (hello_answer ++ caps_answer caps)) rest
        (Good caps) BeginsHello }
{
    right_handshake();
    right_lists();
    right_replies();
    reply_grammar();
    list_grammar();
    handshake_grammar();
    spells();
}

/// The request that a client sends next, if it may come then, is the one that a host reads next, and
/// the host answers it. So a host loses no request of its client, and refuses none.
pub fn a_request_is_taken()
    ensures { (own : Caps) (batch : ℕ) (s : Stage) (r : Request) (request sent answers : List Packet)
        (end : HostEnd) → MayCome s r → IsRequest r request → total request ≤ limit
        → Awaits own batch s (request ++ sent) answers end → IsTaken own batch s r sent answers end }
{
    prefix_free();
    one_reading();
}

/// An answer for a path that a client takes from a host breaks no exchange: it is what the host's
/// choice for the path comes to, with the content that the choice gives.
pub fn replies_are_good()
    ensures { RepliesAreGood }
{
    a_request_is_taken();
    one_exchange();
    client_requests();
    one_part();
}

/// A list that a client takes from a host breaks no exchange: it names the first paths that are
/// delayed.
pub fn lists_are_good()
    ensures { ListsAreGood }
{
    a_request_is_taken();
    one_exchange();
    client_requests();
    one_part();
}

/// The two answers to a handshake that a client takes from a host break no exchange: they announce
/// what both sides have.
pub fn handshakes_are_good()
    ensures { HandshakesAreGood }
{
    a_request_is_taken();
    one_exchange();
    client_requests();
    one_part();
}

/// A talk with hosts in which no link failed, memory never ran out, and no request and no answer is
/// over the limit: no exchange is broken. If no host stopped, no path is lost, and each path that was
/// delayed is listed once and answered once.
pub fn hosts_serve()
    ensures { HostedTalk }
{
    handshakes_are_good();
    replies_are_good();
    lists_are_good();
    client_requests();
    spells();
    prefix_free();
    one_reading();
    no_packet();
}

/// No answer of a host is over the limit that announces `smudge` alone and runs a command, where each run is told.
pub fn told_answers_fit()
    ensures { (tells : RunsTold) (command : List ℕ) (batch : ℕ) (bytes : List ℕ) (choices : List Choice)
        (text : List ℕ) (end : HostEnd) → ((c : List ℕ) (i : List ℕ) → told_of tells c i ≡ Untold → ⊥)
        → (host : IsChosenText (work_told tells command) smudge_alone batch bytes choices text end)
        → AnswersFit smudge_alone batch host.is.requests Fresh host.is.stage choices host.is.answers
        host.is.answered }
{}

/// A talk with hosts that run a command once for each content, in which no link and no start failed, memory never ran
/// out, no answer is over the limit, and the run for each path is told: each path gets the output that its command
/// gave, or is refused with an error if the run didn't end well within its limit. A path whose request is over the
/// limit breaks its session.
pub fn single_runs_serve()
    ensures { OnceHeard }
{
    handshakes_are_good();
    one_exchange();
    one_part();
    client_requests();
    spells();
    prefix_free();
    one_reading();
    no_packet();
}

/// A talk whose starts are told to run a command and whose sessions a starter keeps, if memory never ran out: each path
/// gets the output that its command gave, or is refused as in `single_runs_serve`.
pub fn kept_runs_serve()
    ensures { KeptHeard }
{
    single_runs_serve();
    told_answers_fit();
}

/// Memory never ran out in a talk whose starts are told to run a command and whose sessions a starter keeps, if its
/// paths differ and none heard that it did.
pub fn kept_runs_have_memory()
    ensures { KeptHadMemory }
{
    told_answers_fit();
    one_exchange();
    one_part();
}
