// The types that the definitions of satellite packets name.
#![tactic(auto)]

// The fields of a packet's primary header that are handed through as they are. Its version, its secondary header flag and its
// length follow from what the packet is.
#[derive(Clone, Copy, Debug, PartialEq, Eq)]
pub struct PacketHeader {
    // The packet type: 0 telemetry, 1 telecommand.
    pub kind: u8,
    // The application process identifier.
    pub apid: u16,
    // The sequence flags.
    pub flags: u8,
    // The sequence count.
    pub sequence: u16,
}

// How many octets a CUC time has: of whole units, and of fractions.
#[derive(Clone, Copy, Debug, PartialEq, Eq)]
pub struct TimeOctets {
    pub coarse: u8,
    pub fine: u8,
}

// What reading a packet gives: the header's fields, the time's octets, where the data after the time begin (from the packet's
// first byte), the clock's count, and its encoded count.
#[derive(Clone, Copy, Debug, PartialEq, Eq)]
pub struct Packet {
    pub header: PacketHeader,
    pub octets: TimeOctets,
    pub payload_at: usize,
    pub count: u64,
    pub encoded: u64,
}

// What one step of a walk finds.
#[derive(Clone, Copy, Debug, PartialEq, Eq)]
pub enum WalkStep {
    // A whole packet in the chunk, from `start` up to `end`, where the walk goes on.
    InChunk(Span),
    // A whole packet at the front of the tail buffer, so many bytes long. The walk goes on at `at` in the chunk.
    InBuffer(Joined),
    // No further whole packet: the chunk is used up, and so many bytes at the front of the tail buffer are the tail.
    Tail(usize),
}

// A part of a chunk.
#[derive(Clone, Copy, Debug, PartialEq, Eq)]
pub struct Span {
    pub start: usize,
    pub end: usize,
}

// A packet that was joined in the tail buffer, and where the chunk goes on behind it.
#[derive(Clone, Copy, Debug, PartialEq, Eq)]
pub struct Joined {
    pub length: usize,
    pub at: usize,
}
