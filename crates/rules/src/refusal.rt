ghost use Rattle.std.specs.Prelude.{◌≡◌, Some, None};
ghost use Rattle.rules.specs.Answer.{as_numbered, number_of, place_of};

use crate::unlisted::Unlisted;
use std::error::Error;
use std::fmt;

// Why a call gives no answer: one of the table "What is refused" in docs/RULES.md. Rows and bytes are places, counted from 0. A number and a place
// say which it is.
#[derive(Clone, Copy, Debug, PartialEq, Eq, Hash)]
pub enum Refusal {
    Layout,
    Partitions { row: usize },
    Segments { row: usize },
    TextTooLong,
    ByteNotAllowed { at: usize },
    FirstFieldMissing,
    TooManyFields { at: usize },
    FieldBelowOffset { at: usize },
    // A field, or a sum of fields.
    TooLarge { at: usize },
    // A count to print, or to write as a packet's time.
    CountTooLarge,
    NoSuchPartition,
    OutsidePartition,
    BeyondTotal,
    BeforeFirstSegment,
    TimeOutOfRange,
    DoubleForm,
    // A lent buffer or list.
    BufferTooShort,
    // Of a kernel text: its first line; an assignment, or a name that is missing or given twice; a number that is not exact in our units.
    FirstLine,
    Assignment,
    NotExact,
    // Of a message: under 2 bytes; an L of 0; an L above 96 or too far back.
    NoTrailer,
    NoText,
    WrongDistance,
    // Of the second satellite: microseconds over 999,999.
    TooManyMicroseconds,
    // Of a packet or a dump: another length, a time past the data, too many data octets, a tail too long; another version, time code or
    // form, or a field out of range.
    PacketLength,
    PacketForm,
    // Of the second satellite: a reading of its counter before any accepted reset.
    NeverReset,
    // None of the table: of another version of it. No call here answers it.
    Unlisted(Unlisted),
}

impl Refusal {
    // The refusal that a number and a place tell, as one that was kept or sent as these two.
    pub fn from_numbered(number: u64, place: Option<usize>) -> Refusal
        ensures { as_numbered result ≡ record { number = number; place = place } }
    {
        match place {
            Some(i) => Refusal::with_place(number, i),
            None => Refusal::without_place(number),
        }
    }

    #[tactic(auto, unfolding(crate::specs::Listed::listed, base::specs::Scans::among))]
    fn with_place(number: u64, i: usize) -> Refusal
        ensures { as_numbered result ≡ record { number = number; place = Some i } }
    {
        match number {
            2 => Refusal::Partitions { row: i },
            3 => Refusal::Segments { row: i },
            5 => Refusal::ByteNotAllowed { at: i },
            7 => Refusal::TooManyFields { at: i },
            8 => Refusal::FieldBelowOffset { at: i },
            9 => Refusal::TooLarge { at: i },
            _ => Refusal::Unlisted(Unlisted {
                number,
                place: Some(i),
            }),
        }
    }

    #[tactic(auto, unfolding(crate::specs::Listed::listed, base::specs::Scans::among))]
    fn without_place(number: u64) -> Refusal
        ensures { as_numbered result ≡ record { number = number; place = None } }
    {
        match number {
            1 => Refusal::Layout,
            4 => Refusal::TextTooLong,
            6 => Refusal::FirstFieldMissing,
            9 => Refusal::CountTooLarge,
            10 => Refusal::NoSuchPartition,
            11 => Refusal::OutsidePartition,
            12 => Refusal::BeyondTotal,
            13 => Refusal::BeforeFirstSegment,
            14 => Refusal::TimeOutOfRange,
            15 => Refusal::DoubleForm,
            16 => Refusal::BufferTooShort,
            18 => Refusal::FirstLine,
            19 => Refusal::Assignment,
            20 => Refusal::NotExact,
            21 => Refusal::NoTrailer,
            22 => Refusal::NoText,
            23 => Refusal::WrongDistance,
            24 => Refusal::TooManyMicroseconds,
            25 => Refusal::PacketLength,
            26 => Refusal::PacketForm,
            27 => Refusal::NeverReset,
            _ => Refusal::Unlisted(Unlisted {
                number,
                place: None,
            }),
        }
    }

    // Its number, in the table where it has a name here.
    pub fn number(self) -> u64
        ensures { result ≡ number_of self }
    {
        match self {
            Refusal::Layout => 1,
            Refusal::Partitions { .. } => 2,
            Refusal::Segments { .. } => 3,
            Refusal::TextTooLong => 4,
            Refusal::ByteNotAllowed { .. } => 5,
            Refusal::FirstFieldMissing => 6,
            Refusal::TooManyFields { .. } => 7,
            Refusal::FieldBelowOffset { .. } => 8,
            Refusal::TooLarge { .. } => 9,
            Refusal::CountTooLarge => 9,
            Refusal::NoSuchPartition => 10,
            Refusal::OutsidePartition => 11,
            Refusal::BeyondTotal => 12,
            Refusal::BeforeFirstSegment => 13,
            Refusal::TimeOutOfRange => 14,
            Refusal::DoubleForm => 15,
            Refusal::BufferTooShort => 16,
            Refusal::FirstLine => 18,
            Refusal::Assignment => 19,
            Refusal::NotExact => 20,
            Refusal::NoTrailer => 21,
            Refusal::NoText => 22,
            Refusal::WrongDistance => 23,
            Refusal::TooManyMicroseconds => 24,
            Refusal::PacketLength => 25,
            Refusal::PacketForm => 26,
            Refusal::NeverReset => 27,
            Refusal::Unlisted(k) => k.number,
        }
    }

    // The byte of a text or the row of a table where it was found. Most refusals have none.
    pub fn place(self) -> Option<usize>
        ensures { result ≡ place_of self }
    {
        match self {
            Refusal::Partitions { row } | Refusal::Segments { row } => Some(row),
            Refusal::ByteNotAllowed { at }
            | Refusal::TooManyFields { at }
            | Refusal::FieldBelowOffset { at }
            | Refusal::TooLarge { at } => Some(at),
            Refusal::Unlisted(k) => k.place,
            _ => None,
        }
    }
}

impl fmt::Display for Refusal {
    ghost use Rattle.std.specs.Prelude.{Some};
    ghost use Rattle.rules.specs.Answer.{as_numbered};
    ghost use Rattle.rules.specs.Shown.{shown};

    ghost output = { λ k. Some (shown (as_numbered k)) };

    #[tactic(auto, unfolding(crate::specs::Shown::shown_place))]
    fn fmt<W: fmt::Write>(&self, f: &mut fmt::Formatter<W>) -> fmt::Result {
        let number = self.number();
        match self.place() {
            Some(place) => write!(f, "refused {number} at {place}"),
            None => write!(f, "refused {number}"),
        }
    }
}

impl Error for Refusal {}
