ghost use Rattle.std.specs.Prelude.{◌≡◌, ◌≤◌, ◌++◌, [], List, ℕ, Result};
ghost use Rattle.pkt_line.specs.Packets.{Packet, Spells, SpellAll, IsPartial, HasFault, HasNoPacket, pkt_len};
ghost use Rattle.pkt_line.specs.Spelling.{spelling};
ghost use Rattle.pkt_line.specs.Reading.{Reading, Move, MovesAll, IsRead, bytes_taken, packets_given, with_bytes};
ghost use Rattle.pkt_line.specs.Reader.{Peeks, IsFaultOf, answer_of};
ghost use Rattle.pkt_line.specs.declared.reader.PktFault.{PktFault};
ghost use Rattle.pkt_line.specs.declared.reader.Next.{Next};

/// No packet's spelling is a proper prefix of another's: at most one packet is at the front of bytes.
pub fn prefix_free()
    ensures { (p q : Packet) (a b x y : List ℕ) → Spells p a → Spells q b → a ++ x ≡ b ++ y
        → (p ≡ q) × (a ≡ b) × (x ≡ y) }
{}

/// Equal bytes give equal packets, up to bytes with no packet at their front.
pub fn one_reading()
    ensures { (ps qs : List Packet) (a b x y : List ℕ) → SpellAll ps a → SpellAll qs b
        → a ++ x ≡ b ++ y → HasNoPacket x → HasNoPacket y
        → (ps ≡ qs) × (a ≡ b) × (x ≡ y) }
{}

/// If a packet is at the front, whatever follows it, none of the reasons for having no packet there holds. A fault
/// stays a fault whatever follows, and it isn't the beginning of a packet.
pub fn no_packet()
    ensures apart { (p : Packet) (head rest : List ℕ) → Spells p head → HasNoPacket (head ++ rest)
        → ⊥ }
    ensures fault { (bytes more : List ℕ) → HasFault bytes → HasFault (bytes ++ more) }
    ensures part { (bytes : List ℕ) → IsPartial bytes → HasFault bytes → ⊥ }
{}

/// However the input is cut, the packets that a reader gave so far are those whose spelling is the bytes read so far.
pub fn given_so_far()
    ensures { (moves : List Move) (left : Reading)
        → MovesAll (record { unread = []; place = 0 }) moves left
        → IsRead (bytes_taken moves) (packets_given moves) left }
{}

/// What the reader holds decides what `next` and `peek` return.
pub fn one_answer()
    ensures { (a b : Result Next PktFault) (r : Reading) → Peeks a r → Peeks b r
        → answer_of a ≡ answer_of b }
{}

/// A fault is permanent: it stays whatever bytes follow and whatever is called.
pub fn fault_stays()
    ensures fed { (fault : PktFault) (r : Reading) (more : List ℕ) → IsFaultOf fault r
        → IsFaultOf fault (with_bytes more r) }
    ensures called { (fault : PktFault) (r s : Reading) (moves : List Move) → IsFaultOf fault r
        → MovesAll r moves s → IsFaultOf fault s }
{}

/// What the writers append is the spelling of their packet.
pub fn spells()
    ensures { (p : Packet) → pkt_len p ≤ 65520 → Spells p (spelling p) }
{}
