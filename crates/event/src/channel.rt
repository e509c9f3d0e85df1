// Channel events: one or two data bytes after a status.
ghost use Rattle.std.specs.Prelude.{◌≡◌, length, drop};
ghost use Rattle.event.specs.Frame.{channel1, channel2};
ghost use Rattle.event.specs.Reader.{data_byte, one_data, two_data, channel_data, is_channel};
ghost use Rattle.event.specs.Outcome.{check};
ghost use Rattle.event.specs.Sort.{sort_of};
ghost use Rattle.event.specs.Step.{byte_step, frame_at, frame_step};
ghost use Rattle.event.specs.Refusal.{numbered};

use super::refusal::Refusal;
use super::sort::{ONE_FOLLOWS, TWO_FOLLOW};
use super::{EventKind, FrameRead};

// A data byte; the place after it is one on.
fn data_byte(body: &[u8], at: usize) -> Result<u8, Refusal>
    ensures { numbered result ≡ byte_step (data_byte (drop at body.now)) }
{
    if body.len() <= at {
        return Err(Refusal::EventCutShort);
    }
    let value = body[at];
    if value < 128 {
        return Ok(value);
    }
    Err(Refusal::BadChannelData)
}

// The event of a status and one data byte.
fn one(status: u8, a: u8, next: usize) -> FrameRead
    ensures { result ≡ frame_at next (channel1 status a) }
{
    let channel = status % 16;
    let kind = match status {
        0..=0xCF => EventKind::Program { channel, number: a },
        0xD0..=0xFF => EventKind::ChannelAftertouch { channel, value: a },
    };
    FrameRead {
        kind,
        next,
        status,
        padding: 0,
    }
}

// The event of a status and two data bytes.
fn two(status: u8, a: u8, b: u8, next: usize) -> FrameRead
    ensures { result ≡ frame_at next (channel2 status a b) }
{
    let channel = status % 16;
    let kind = match status {
        0..=0x8F => EventKind::NoteOff {
            channel,
            key: a,
            velocity: b,
        },
        0x90..=0x9F => EventKind::NoteOn {
            channel,
            key: a,
            velocity: b,
        },
        0xA0..=0xAF => EventKind::PolyAftertouch {
            channel,
            key: a,
            value: b,
        },
        0xB0..=0xBF => EventKind::Control {
            channel,
            controller: a,
            value: b,
        },
        0xC0..=0xFF => EventKind::PitchBend {
            channel,
            value: 128 * (b as u16) + (a as u16),
        },
    };
    FrameRead {
        kind,
        next,
        status,
        padding: 0,
    }
}

fn one_byte(body: &[u8], at: usize, status: u8) -> Result<FrameRead, Refusal>
    ensures { numbered result ≡ frame_step (length body.now) (one_data status (drop at body.now)) }
{
    let a = data_byte(body, at)?;
    Ok(one(status, a, at + 1))
}

fn two_bytes(body: &[u8], at: usize, status: u8) -> Result<FrameRead, Refusal>
    ensures { numbered result ≡ frame_step (length body.now) (two_data status (drop at body.now)) }
{
    let a = data_byte(body, at)?;
    let b = data_byte(body, at + 1)?;
    Ok(two(status, a, b, at + 2))
}

// A channel event of a status, written or in force, from its data bytes on; sort is what the table says of the
// status.
pub fn channel_event(body: &[u8], at: usize, status: u8, sort: u8) -> Result<FrameRead, Refusal>
    requires { sort ≡ sort_of status }
    ensures { numbered result ≡ frame_step (length body.now) (check (is_channel status) 8 0 (channel_data status (drop at body.now))) }
{
    match sort {
        ONE_FOLLOWS => one_byte(body, at, status),
        TWO_FOLLOW => two_bytes(body, at, status),
        _ => Err(Refusal::BadStatus),
    }
}
