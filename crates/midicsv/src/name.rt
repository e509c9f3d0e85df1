// The names of records written.
ghost use Rattle.std.specs.Prelude.{[], ◌<◌, ◌^◌, get_or};
ghost use Rattle.event.specs.Step.{kind_from};
ghost use Rattle.event_write.specs.Written.{Written};
ghost use Rattle.midicsv.specs.Table.{text_names, event_spelled};
ghost use Rattle.midicsv.specs.Record.{name_of};

use event::EventKind;
use event_write::bytes::put_bytes;

// The name of a text by its type, 1 to 7.
#[tactic(auto, using(crate::proofs::NameLaws::no_text_lem, event_write::proofs::WriteLaws::nothing))]
fn put_text_name(out: &mut [u8], at: usize, t: u8) -> usize
    requires { at < 2 ^ 45 }
    ensures { Written out.old at (get_or text_names t []) out.new result }
{
    match t {
        1 => put_bytes(out, at, b"Text_t"),
        2 => put_bytes(out, at, b"Copyright_t"),
        3 => put_bytes(out, at, b"Title_t"),
        4 => put_bytes(out, at, b"Instrument_name_t"),
        5 => put_bytes(out, at, b"Lyric_t"),
        6 => put_bytes(out, at, b"Marker_t"),
        7 => put_bytes(out, at, b"Cue_point_t"),
        _ => at,
    }
}

// The name of an event's record; data play no part in it.
pub fn put_event_name(out: &mut [u8], at: usize, kind: EventKind) -> usize
    requires { at < 2 ^ 45 }
    ensures { Written out.old at (event_spelled (name_of (kind_from [] kind))) out.new result }
{
    match kind {
        EventKind::NoteOff { .. } => put_bytes(out, at, b"Note_off_c"),
        EventKind::NoteOn { .. } => put_bytes(out, at, b"Note_on_c"),
        EventKind::PolyAftertouch { .. } => put_bytes(out, at, b"Poly_aftertouch_c"),
        EventKind::Control { .. } => put_bytes(out, at, b"Control_c"),
        EventKind::Program { .. } => put_bytes(out, at, b"Program_c"),
        EventKind::ChannelAftertouch { .. } => put_bytes(out, at, b"Channel_aftertouch_c"),
        EventKind::PitchBend { .. } => put_bytes(out, at, b"Pitch_bend_c"),
        EventKind::SystemExclusive { .. } => put_bytes(out, at, b"System_exclusive"),
        EventKind::SystemExclusivePacket { .. } => put_bytes(out, at, b"System_exclusive_packet"),
        EventKind::SequenceNumber { .. } => put_bytes(out, at, b"Sequence_number"),
        EventKind::Text { kind: t, .. } => put_text_name(out, at, t),
        EventKind::ChannelPrefix { .. } => put_bytes(out, at, b"Channel_prefix"),
        EventKind::MidiPort { .. } => put_bytes(out, at, b"MIDI_port"),
        EventKind::EndTrack => put_bytes(out, at, b"End_track"),
        EventKind::Tempo { .. } => put_bytes(out, at, b"Tempo"),
        EventKind::SmpteOffset { .. } => put_bytes(out, at, b"SMPTE_offset"),
        EventKind::TimeSignature { .. } => put_bytes(out, at, b"Time_signature"),
        EventKind::KeySignature { .. } => put_bytes(out, at, b"Key_signature"),
        EventKind::SequencerSpecific { .. } => put_bytes(out, at, b"Sequencer_specific"),
        EventKind::UnknownMeta { .. } => put_bytes(out, at, b"Unknown_meta_event"),
    }
}
