// The table of records: the columns and the tail of each.
ghost use Rattle.std.specs.Prelude.{◌≡◌, map};
ghost use Rattle.midicsv_record.specs.Table.{columns_at, tail_at, column_as, tail_as};

use super::{ColumnKind, Name, TailKind};

// The ranges of columns.
const FORMAT: ColumnKind = ColumnKind::Range { lo: 0, hi: 2 };

const TRACKS: ColumnKind = ColumnKind::Range { lo: 1, hi: 65535 };

const CHANNEL: ColumnKind = ColumnKind::Range { lo: 0, hi: 15 };

const DATA: ColumnKind = ColumnKind::Range { lo: 0, hi: 127 };

const BEND: ColumnKind = ColumnKind::Range { lo: 0, hi: 16383 };

const NUMBER: ColumnKind = ColumnKind::Range { lo: 0, hi: 65535 };

const BYTE: ColumnKind = ColumnKind::Range { lo: 0, hi: 255 };

const TEMPO: ColumnKind = ColumnKind::Range {
    lo: 1,
    hi: 16777215,
};

const PART: ColumnKind = ColumnKind::Range { lo: 0, hi: 99 };

// The columns of a record.
#[tactic(auto, unfolding(midicsv::specs::Table::shape, midicsv::specs::Table::event_shape, crate::specs::Table::column_as))]
pub fn columns(name: Name) -> &'static [ColumnKind]
    ensures { map column_as result.now ≡ columns_at name }
{
    match name {
        Name::Header => &[FORMAT, TRACKS, ColumnKind::Division],
        Name::NoteOff | Name::NoteOn | Name::PolyAftertouch => &[CHANNEL, DATA, DATA],
        Name::Control => &[CHANNEL, DATA, DATA],
        Name::Program | Name::ChannelAftertouch => &[CHANNEL, DATA],
        Name::PitchBend => &[CHANNEL, BEND],
        Name::SequenceNumber => &[NUMBER],
        Name::ChannelPrefix | Name::MidiPort => &[BYTE],
        Name::Tempo => &[TEMPO],
        Name::SmpteOffset => &[BYTE, BYTE, BYTE, BYTE, PART],
        Name::TimeSignature => &[BYTE, BYTE, BYTE, BYTE],
        Name::KeySignature => &[ColumnKind::Key, ColumnKind::Mode],
        Name::UnknownMetaEvent => &[ColumnKind::FreeType],
        _ => &[],
    }
}

// What follows the columns of a record.
#[tactic(auto, unfolding(midicsv::specs::Table::shape, midicsv::specs::Table::event_shape, crate::specs::Table::tail_as))]
pub fn tail_kind(name: Name) -> TailKind
    ensures { tail_as result ≡ tail_at name }
{
    match name {
        Name::SystemExclusive | Name::SystemExclusivePacket => TailKind::Sized,
        Name::SequencerSpecific | Name::UnknownMetaEvent => TailKind::Sized,
        Name::Text | Name::Copyright | Name::Title | Name::InstrumentName => TailKind::OneText,
        Name::Lyric | Name::Marker | Name::CuePoint => TailKind::OneText,
        _ => TailKind::NoTail,
    }
}
