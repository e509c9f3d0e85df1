// The names of records, case ignored.
ghost use Rattle.std.specs.Prelude.{◌≡◌, Some};
ghost use Rattle.midicsv.specs.Names.{all_names, find, name_from};
ghost use Rattle.midicsv.specs.Table.{spelled};
ghost use Rattle.midicsv_scan.specs.FieldAt.{Within};
ghost use Rattle.midicsv_record.specs.Column.{field_in};
ghost use Rattle.midicsv_record.specs.Name.{name_at, name_as};

use super::Name;
use midicsv::word::same_name;
use midicsv_scan::FieldAt;

// The list of names.
const ALL_NAMES: [Name; 29] = [
    Name::Header,
    Name::StartTrack,
    Name::EndOfFile,
    Name::NoteOff,
    Name::NoteOn,
    Name::PolyAftertouch,
    Name::Control,
    Name::Program,
    Name::ChannelAftertouch,
    Name::PitchBend,
    Name::SystemExclusive,
    Name::SystemExclusivePacket,
    Name::SequenceNumber,
    Name::Text,
    Name::Copyright,
    Name::Title,
    Name::InstrumentName,
    Name::Lyric,
    Name::Marker,
    Name::CuePoint,
    Name::ChannelPrefix,
    Name::MidiPort,
    Name::EndTrack,
    Name::Tempo,
    Name::SmpteOffset,
    Name::TimeSignature,
    Name::KeySignature,
    Name::SequencerSpecific,
    Name::UnknownMetaEvent,
];

// A name as it is written.
#[tactic(auto, unfolding(midicsv::specs::Table::spelled, midicsv::specs::Table::event_spelled))]
fn spelled(name: Name) -> &'static [u8]
    ensures { result.now ≡ spelled (name_at name) }
{
    match name {
        Name::Header => b"Header",
        Name::StartTrack => b"Start_track",
        Name::EndOfFile => b"End_of_file",
        Name::NoteOff => b"Note_off_c",
        Name::NoteOn => b"Note_on_c",
        Name::PolyAftertouch => b"Poly_aftertouch_c",
        Name::Control => b"Control_c",
        Name::Program => b"Program_c",
        Name::ChannelAftertouch => b"Channel_aftertouch_c",
        Name::PitchBend => b"Pitch_bend_c",
        Name::SystemExclusive => b"System_exclusive",
        Name::SystemExclusivePacket => b"System_exclusive_packet",
        Name::SequenceNumber => b"Sequence_number",
        Name::Text => b"Text_t",
        Name::Copyright => b"Copyright_t",
        Name::Title => b"Title_t",
        Name::InstrumentName => b"Instrument_name_t",
        Name::Lyric => b"Lyric_t",
        Name::Marker => b"Marker_t",
        Name::CuePoint => b"Cue_point_t",
        Name::ChannelPrefix => b"Channel_prefix",
        Name::MidiPort => b"MIDI_port",
        Name::EndTrack => b"End_track",
        Name::Tempo => b"Tempo",
        Name::SmpteOffset => b"SMPTE_offset",
        Name::TimeSignature => b"Time_signature",
        Name::KeySignature => b"Key_signature",
        Name::SequencerSpecific => b"Sequencer_specific",
        Name::UnknownMetaEvent => b"Unknown_meta_event",
    }
}

// The name that is spelled so, where it is listed.
fn find_name(part: &[u8]) -> Option<Name>
    ensures { name_as result ≡ find part.now all_names }
{
    for name in ALL_NAMES {
        if same_name(part, spelled(name)) {
            return Some(name);
        }
    }
    None
}

// The name that a field of a line gives; its places stand in the line.
pub fn name_of(line: &[u8], f: FieldAt) -> Option<Name>
    requires { Within line.now 0 (Some f) }
    ensures { name_as result ≡ name_from (field_in line.now f) }
{
    match f {
        FieldAt::Name { start, end, .. } => find_name(&line[start..end]),
        _ => None,
    }
}
