// Which cell of a row is its text, by the name in the third cell.
ghost use Rattle.std.specs.Prelude.{◌≡◌};
ghost use Rattle.std.specs.List.{list_any};
ghost use Rattle.midicsv.specs.Names.{all_names, find, same_name};
ghost use Rattle.midicsv.specs.ReadField.{read_field};
ghost use Rattle.sheet_table.specs.Table.{name_in, text_of_name};
ghost use Rattle.sheet.specs.Code.Seen.{seen};
ghost use Rattle.sheet.specs.Code.Cell.{content_of};
ghost use Rattle.sheet.specs.Code.Row.{place_as};

use super::Content;
use midicsv::word::same_name;
use midicsv_scan::FieldAt;
use midicsv_scan::field::field_at;

// The records whose text is the fourth cell.
const TEXT_NAMES: [&[u8]; 7] = [
    b"Text_t",
    b"Copyright_t",
    b"Title_t",
    b"Instrument_name_t",
    b"Lyric_t",
    b"Marker_t",
    b"Cue_point_t",
];

// Whether a name is one of these.
fn is_one_of(name: &[u8], names: &[&[u8]]) -> bool
    ensures { result ≡ list_any (λ known. same_name name.now known.now) names.now }
{
    names.iter().any(|known| same_name(name, known))
}

// How many cells stand before the text of a record of this name, where it has one.
fn place_of_name(name: &[u8]) -> Option<usize>
    ensures { place_as result ≡ text_of_name (find name.now all_names) }
{
    if is_one_of(name, &TEXT_NAMES) {
        return Some(3);
    }
    if same_name(name, b"Key_signature") {
        return Some(4);
    }
    None
}

impl Content<'_> {
    // The same of the third cell, whose bytes are a name as the reader reads names. A quote is in no name, so
    // it does not matter how the bytes are read.
    pub fn text_place(self) -> Option<usize>
        ensures { place_as result ≡ text_of_name (name_in (read_field (content_of self.entry.quoted (seen self.entry.twice self.entry.bytes.now)))) }
    {
        let FieldAt::Name { start, end, next } = field_at(self.bytes, 0)? else {
            return None;
        };
        if next < self.bytes.len() {
            return None;
        }
        place_of_name(&self.bytes[start..end])
    }
}
