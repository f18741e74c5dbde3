// The refusals and faults of the whole library, each with the number that a host sees.
ghost use Rattle.std.specs.Prelude.{◌≡◌, Some};
ghost use Rattle.std.specs.Fmt.{decimal};
ghost use Rattle.answers.specs.Refusal.{number};

use std::fmt;

// Why a call is refused. A receiver keeps the reason of a sender's fault, from 11 to 19, in its transfer; the reader and the writer of
// headers refuse by some of these too.
#[derive(Clone, Copy, Debug, PartialEq, Eq)]
pub enum Refusal {
    // ---- a transfer
    // Transfer, file and ledgers don't belong together, or a ledger that is to be written breaks its rule.
    Unfit,
    NoSuchChannel,
    // The verdict is another than GUESS already.
    Decided,
    ChannelEnded,
    // The lengths of the ledgers that start is lent.
    StartLengths,
    // ---- a header, and the faults of a sender
    // A bit of the descriptor that has no meaning, 1 or 2.
    MeaninglessBit,
    // A bit of the descriptor that is not accepted, 128 or 16.
    UnacceptedBit,
    // Bits of the descriptor that contradict each other.
    ContradictingBits,
    SecondCount,
    CountOutOfRange,
    PastFileEnd,
    Overlap,
    LedgerFull,
    TooManyChannels,
    HeaderLength,
    // ---- a line of the control channel
    LineTooLong,
    NoLineEnd,
    UnprintableByte,
    NoSuchVerb,
    // The argument is missing, or one stands where the verb takes none.
    Argument,
    ReplyCode,
    // ---- a list of host-ports
    MalformedHostPort,
    TooManyHostPorts,
    HostListTooShort,
    // ---- a ledger as text
    MalformedRanges,
    TooFewPairs,
    LedgerLength,
    EmptyLedger,
    // Fewer bytes are lent than the whole output has.
    TooFewBytes,
    // ---- a saved ledger
    RecordLength,
    RecordKind,
    RecordPairs,
    TooManyPairs,
    PastFileLength,
    // ---- a sender
    SenderArguments,
    NoSuchSendingChannel,
    NothingToSend,
}

impl From<Refusal> for u8 {
    ghost from_gives = { λ r n. n ≡ number r };

    fn from(refusal: Refusal) -> u8 {
        match refusal {
            Refusal::Unfit => 1,
            Refusal::NoSuchChannel => 2,
            Refusal::Decided => 3,
            Refusal::ChannelEnded => 4,
            Refusal::StartLengths => 5,
            Refusal::MeaninglessBit => 11,
            Refusal::UnacceptedBit => 12,
            Refusal::ContradictingBits => 13,
            Refusal::SecondCount => 14,
            Refusal::CountOutOfRange => 15,
            Refusal::PastFileEnd => 16,
            Refusal::Overlap => 17,
            Refusal::LedgerFull => 18,
            Refusal::TooManyChannels => 19,
            Refusal::HeaderLength => 21,
            Refusal::LineTooLong => 31,
            Refusal::NoLineEnd => 32,
            Refusal::UnprintableByte => 33,
            Refusal::NoSuchVerb => 34,
            Refusal::Argument => 35,
            Refusal::ReplyCode => 36,
            Refusal::MalformedHostPort => 41,
            Refusal::TooManyHostPorts => 42,
            Refusal::HostListTooShort => 43,
            Refusal::MalformedRanges => 51,
            Refusal::TooFewPairs => 52,
            Refusal::LedgerLength => 53,
            Refusal::EmptyLedger => 54,
            Refusal::TooFewBytes => 55,
            Refusal::RecordLength => 61,
            Refusal::RecordKind => 62,
            Refusal::RecordPairs => 63,
            Refusal::TooManyPairs => 64,
            Refusal::PastFileLength => 65,
            Refusal::SenderArguments => 71,
            Refusal::NoSuchSendingChannel => 73,
            Refusal::NothingToSend => 74,
        }
    }
}

// The number, in decimal digits.
impl fmt::Display for Refusal {
    ghost output = { λ r. Some (decimal (number r)) };

    fn fmt<W: fmt::Write>(&self, f: &mut fmt::Formatter<W>) -> fmt::Result {
        let number = u8::from(*self);
        write!(f, "{number}")
    }
}
