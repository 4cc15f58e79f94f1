//! What holds of all streams.
ghost use Rattle.std.specs.Prelude.{◌≡◌, ℕ, ◌+◌, ◌<◌, ◌≤◌, List, ◌++◌, length, ◌⊎◌};
ghost use Rattle.tpkt_cotp.specs.declared.fault.CotpFault.{CotpFault};
ghost use Rattle.tpkt_cotp.specs.declared.limits.TheConstants.{TSDU_LIMIT};
ghost use Rattle.tpkt_cotp.specs.declared.turn.Role.{Role};
ghost use Rattle.tpkt_cotp.specs.declared.turn.Turn.{Turn};
ghost use Rattle.tpkt_cotp.specs.declared.turn.Turn.TheVariants.{Transfer};
ghost use Rattle.tpkt_cotp.specs.declared.tpdu.ConnectRequest.{ConnectRequest};
ghost use Rattle.tpkt_cotp.specs.Streams.{Message, tsdu, stream_place, SpellsMessage, Says, Stops};
ghost use Rattle.tpkt_cotp.specs.Places.{Stream, left, stopped, messages_of, IsStream, stream_in};
ghost use Rattle.tpkt_cotp.specs.Written.{IsCut, IsOffer, connection_request_octets};
ghost use Rattle.tpkt_cotp.specs.Written.{written_request, wire};
ghost use Rattle.tpkt_cotp.specs.Written.{confirm_octets, answered_parameters};
ghost use Rattle.tpkt_cotp.specs.Sound.{AreSelectors};
ghost use Rattle.tpkt_cotp.specs.Tpdus.{request, confirm, SpellsTpkt};

/// Octets say messages and a rest, or stop at a fault: one of the two, and in one way.
pub fn one_reading()
    ensures always { (role : Role) (octets : List ℕ)
        → ((messages : List Message) × (rest : List ℕ) × Says role octets messages rest)
        ⊎ ((messages : List Message) × (f : CotpFault) × Stops role octets messages f) }
    ensures says { (role : Role) (octets : List ℕ) (messages others : List Message)
        (rest other : List ℕ)
        → Says role octets messages rest → Says role octets others other → (messages ≡ others)
        × (rest ≡ other) }
    ensures stops { (role : Role) (octets : List ℕ) (messages others : List Message)
        (f g : CotpFault)
        → Stops role octets messages f → Stops role octets others g → (messages ≡ others)
        × (f ≡ g) }
    ensures never_both { (role : Role) (octets : List ℕ) (messages others : List Message)
        (rest : List ℕ) (f : CotpFault)
        → Says role octets messages rest → Stops role octets others f → ⊥ }
{}

/// Of all octets of a stream, its messages, where they stand, and its end are a function of the
/// octets: the one of which it holds that they are spelled so.
pub fn one_stream()
    ensures found { (role : Role) (octets : List ℕ)
        → IsStream role octets (stream_in role octets) }
    ensures only { (role : Role) (octets : List ℕ) (stream : Stream)
        → IsStream role octets stream → stream ≡ stream_in role octets }
    ensures says { (role : Role) (octets : List ℕ) (messages : List Message) (rest : List ℕ)
        → Says role octets messages rest
        → (messages_of (stream_in role octets).messages ≡ messages)
        × ((count : ℕ) × ((stream_in role octets).end ≡ left count)) }
    ensures left { (role : Role) (octets : List ℕ) (count : ℕ)
        → (stream_in role octets).end ≡ left count
        → (rest : List ℕ) × Says role octets (messages_of (stream_in role octets).messages) rest }
    ensures stops { (role : Role) (octets : List ℕ) (messages : List Message) (f : CotpFault)
        → Stops role octets messages f
        → (messages_of (stream_in role octets).messages ≡ messages)
        × ((stream_in role octets).end ≡ stopped f) }
    ensures stopped { (role : Role) (octets : List ℕ) (f : CotpFault)
        → (stream_in role octets).end ≡ stopped f
        → Stops role octets (messages_of (stream_in role octets).messages) f }
{}

/// No message begins another.
pub fn no_message_begins_another()
    ensures { (turn : Turn) (at : ℕ) (m n : Message) (first second more rest : List ℕ)
        → SpellsMessage turn at m first → SpellsMessage turn at n second
        → first ++ more ≡ second ++ rest → (first ≡ second) × (m ≡ n) }
{}

/// What was said stays said, and a fault stays, whatever follows.
pub fn what_was_said_stays()
    ensures said { (role : Role) (octets more : List ℕ) (messages later : List Message)
        (rest left : List ℕ)
        → Says role octets messages rest → Says role (octets ++ more) later left
        → (others : List Message) × (later ≡ messages ++ others) }
    ensures stopped { (role : Role) (octets more : List ℕ) (messages later : List Message)
        (rest : List ℕ) (f : CotpFault)
        → Says role octets messages rest → Stops role (octets ++ more) later f
        → (others : List Message) × (later ≡ messages ++ others) }
    ensures broken { (role : Role) (octets more : List ℕ) (messages : List Message) (f : CotpFault)
        → Stops role octets messages f → Stops role (octets ++ more) messages f }
{}

/// A TSDU is cut in one way, which is the written form.
pub fn one_cut()
    ensures cut { (size : ℕ) (octets : List ℕ) → 4 ≤ size → 0 < length octets
        → IsCut size octets (wire size octets) }
    ensures only { (size : ℕ) (octets written : List ℕ) → IsCut size octets written
        → written ≡ wire size octets }
{}

/// What is written for a TSDU says exactly this TSDU, wherever it stands after the first TPDU.
pub fn written_is_said()
    ensures { (size at : ℕ) (octets : List ℕ) → 4 ≤ size → 0 < length octets
        → length octets ≤ TSDU_LIMIT
        → SpellsMessage Transfer at (tsdu (stream_place at) octets) (wire size octets) }
{}

/// What is written for a request and for the answer to an offer is spelled so.
pub fn written_is_spelled()
    ensures request { (calling : ℕ) → SpellsTpkt (request (written_request calling))
        (connection_request_octets calling) }
    ensures confirm { (offer : ConnectRequest) → IsOffer offer → AreSelectors offer.parameters
        → SpellsTpkt (confirm (record {
          target = offer.source;
          source = 1;
          parameters = answered_parameters offer.parameters;
        }))
        (confirm_octets offer) }
{}
