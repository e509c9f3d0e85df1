// The numbered refusals of document 01 and of the requests: why a file, a text or a table is refused.
ghost use Rattle.std.specs.Prelude.{◌≡◌};
ghost use Rattle.event.specs.Refusal.{number_of};

// 4 is not given again: it refused chunks of other kinds once.
#[derive(Clone, Copy, PartialEq, Eq)]
pub enum Refusal {
    FileTooLong = 1,
    FileCutShort = 2,
    BadHeader = 3,
    VariableTooLong = 5,
    EventCutShort = 6,
    TimeTooGreat = 7,
    BadStatus = 8,
    BadChannelData = 9,
    BadMetaLength = 10,
    BadMetaValue = 11,
    BytesAfterEndTrack = 12,
    BytesAfterLastTrack = 13,
    RoomTooSmall = 14,
    TextTooLong = 21,
    BadField = 22,
    UnknownRecord = 23,
    WrongFieldCount = 24,
    FieldOutOfRange = 25,
    RecordOutOfOrder = 26,
    StepTooGreat = 27,
    TextCutShort = 28,
    WrittenTooLong = 29,
    BadManner = 30,
    TooManyTracks = 31,
    Format2 = 32,
    PrefixOrPort = 33,
    TooFewRows = 37,
    TableTooLong = 38,
}

impl Refusal {
    // The number by which it is answered.
    pub fn number(self) -> u8
        ensures { result ≡ number_of self }
    {
        self as u8
    }
}
