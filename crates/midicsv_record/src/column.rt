// A field beside its column, and the columns of a record.
ghost use Rattle.std.specs.Prelude.{◌≡◌, ◌&&◌, ◌≤◌, leb, drop};
ghost use Rattle.event.specs.Meta.{kind_of};
ghost use Rattle.midicsv.specs.Field.{quoted};
ghost use Rattle.midicsv.specs.ReadField.{plain};
ghost use Rattle.midicsv.specs.Table.{range, mode, free_type, division};
ghost use Rattle.midicsv.specs.ReadRecord.{size_of, is_free, read_signed, read_column};
ghost use Rattle.midicsv_scan.specs.Unquoted.{unquoted};
ghost use Rattle.midicsv_record.specs.Table.{column_as};
ghost use Rattle.midicsv_record.specs.Column.{field_in, value_as, Reads};

use super::ColumnKind;
use super::text::is_word;
use midicsv_scan::FieldAt;
use smf::header::division_ok;

// A number without a minus.
pub fn number_of(f: FieldAt) -> Option<u32>
    ensures { Reads size_of f result }
{
    match f {
        FieldAt::Number { value, .. } => Some(value),
        _ => None,
    }
}

// A number from lo to hi.
pub fn number_in(f: FieldAt, lo: u32, hi: u32) -> Option<u32>
    ensures { Reads (read_column (range lo hi)) f result }
{
    let value = number_of(f)?;
    (lo <= value && value <= hi).then_some(value)
}

// A number from -least to most; one below 0 is kept as `all` more.
fn signed_of(f: FieldAt, most: u32, least: u32, all: u32) -> Option<u32>
    requires { least ≤ all }
    ensures { Reads (read_signed most least all) f result }
{
    match f {
        FieldAt::Number { value, .. } if value <= most => Some(value),
        FieldAt::Minus { value, .. } if value <= least => Some(all - value),
        _ => None,
    }
}

// "major" (0) or "minor" (1).
fn mode_at(line: &[u8], start: usize) -> Option<u32>
    ensures { value_as result ≡ read_column mode (quoted (unquoted (drop start line.now) plain)) }
{
    if is_word(line, start, b"major") {
        return Some(0);
    }
    is_word(line, start, b"minor").then_some(1)
}

// A mode, which is a quoted text.
fn mode_of(line: &[u8], f: FieldAt) -> Option<u32>
    ensures { value_as result ≡ read_column mode (field_in line.now f) }
{
    match f {
        FieldAt::Quoted { start, .. } => mode_at(line, start),
        _ => None,
    }
}

// Whether a meta type up to 127 has no name of its own.
fn is_free(t: u32) -> bool
    ensures { result ≡ (leb t 127 && is_free (kind_of t)) }
{
    match t {
        0..=7 => false,
        8..=0x1F => true,
        0x20..=0x21 => false,
        0x22..=0x2E => true,
        0x2F => false,
        0x30..=0x50 => true,
        0x51 => false,
        0x52..=0x53 => true,
        0x54 => false,
        0x55..=0x57 => true,
        0x58..=0x59 => false,
        0x5A..=0x7E => true,
        0x7F..=0xFFFF_FFFF => false,
    }
}

// A meta type without a name of its own.
fn free_type(f: FieldAt) -> Option<u32>
    ensures { Reads (read_column free_type) f result }
{
    let value = number_of(f)?;
    is_free(value).then_some(value)
}

// A division, as its 16 bits in the file.
fn division_of(f: FieldAt) -> Option<u32>
    ensures { Reads (read_column division) f result }
{
    let bits = signed_of(f, 32767, 32768, 65536)?;
    division_ok(bits).then_some(bits)
}

// The number of a field, by its column.
pub fn value_in(line: &[u8], f: FieldAt, column: ColumnKind) -> Option<u32>
    ensures { value_as result ≡ read_column (column_as column) (field_in line.now f) }
{
    match column {
        ColumnKind::Range { lo, hi } => number_in(f, lo, hi),
        ColumnKind::Key => signed_of(f, 7, 7, 256),
        ColumnKind::Mode => mode_of(line, f),
        ColumnKind::FreeType => free_type(f),
        ColumnKind::Division => division_of(f),
    }
}
