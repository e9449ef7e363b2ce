//! A packet as the reader gives it.
ghost use Rattle.std.specs.Prelude.{◌≡◌};
ghost use Rattle.pkt_line.specs.Packets.{size};
ghost use Rattle.filter_words.specs.Outcomes.{packet_of};

/// A packet that was read.
#[derive(Clone, Copy, Debug)]
pub enum ReadPacket<'a> {
    Payload(&'a [u8]),
    Flush,
}

impl ReadPacket<'_> {
    /// How many bytes it takes, its four digits among them.
    pub fn size(&self) -> u64
        ensures { result ≡ size (packet_of self.now) }
    {
        match self {
            ReadPacket::Payload(payload) => payload.len() as u64 + 4,
            ReadPacket::Flush => 4,
        }
    }
}
