// A cell written as a field of a text. Each writes only where there is room and answers the place after.
ghost use Rattle.std.specs.Prelude.{◌≡◌, true, ◌||◌, [], ◌∷◌, ◌<◌, ◌≤◌, ◌^◌, eqb, length};
ghost use Rattle.std.specs.List.{list_any};
ghost use Rattle.event.specs.Choice.{pick};
ghost use Rattle.event_write.specs.Written.{Written};
ghost use Rattle.sheet_table.specs.Cut.{has};
ghost use Rattle.sheet_table.specs.Table.{doubled, requote, plain_cell};
ghost use Rattle.sheet.specs.Code.Seen.{singled, seen};
ghost use Rattle.sheet.specs.Code.Cell.{content_of};

use super::part::after_byte;
use super::{COMMA, Content};
use event_write::bytes::{put_byte, put_bytes};

// The comma, which ends a field that has no quotes.
const FIELD_END: u8 = COMMA;

// Whether a comma or a quote is among the bytes.
fn needs_quotes(raw: &[u8]) -> bool
    ensures { result ≡ list_any (λ c. eqb c 44 || eqb c 34) raw.now }
{
    raw.iter().any(|c| *c == FIELD_END || *c == b'"')
}

// A byte, a quote twice where that is asked.
fn put_one(out: &mut [u8], at: usize, b: u8, double: bool) -> usize
    requires { at < 2 ^ 47 }
    ensures { Written out.old at (pick double (doubled (b ∷ [])) (b ∷ [])) out.new result }
{
    if !double || b != b'"' {
        return put_byte(out, at, b);
    }
    let a = put_byte(out, at, b'"');
    put_byte(out, a, b'"')
}

// Bytes as they are read, each quote twice where that is asked.
pub fn put_seen(out: &mut [u8], at: usize, raw: &[u8], twice: bool, double: bool) -> usize
    requires fact_1 { at < 2 ^ 40 }
    requires fact_2 { length raw.now ≤ 268435456 }
    ensures { Written out.old at (pick double (doubled (seen twice raw.now)) (seen twice raw.now)) out.new result }
{
    let mut next = at;
    let mut p = 0;
    // a place goes on by one byte or by two, so no iterator over bytes is plainer
    while p < raw.len() {
        next = put_one(out, next, raw[p], double);
        p = after_byte(raw, p, twice);
    }
    next
}

impl Content<'_> {
    // In quotes; that of a quoted cell has its quotes in pairs.
    fn put_quoted(self, out: &mut [u8], at: usize) -> usize
        requires fact_1 { at < 2 ^ 39 }
        requires fact_2 { (self.quoted ≡ true → doubled (singled (seen self.twice self.bytes.now)) ≡ seen self.twice self.bytes.now) }
        ensures { Written out.old at (requote (content_of self.entry.quoted (seen self.entry.twice self.entry.bytes.now))) out.new result }
    {
        let a = put_byte(out, at, b'"');
        let b = put_seen(out, a, self.bytes, self.twice, !self.quoted);
        put_byte(out, b, b'"')
    }

    // As a field: in quotes where it is the text, or would fall apart.
    pub fn put(self, out: &mut [u8], at: usize, text: bool) -> usize
        requires fact_1 { at < 2 ^ 39 }
        requires fact_2 { (self.quoted ≡ true → doubled (singled (seen self.twice self.bytes.now)) ≡ seen self.twice self.bytes.now) }
        ensures { Written out.old at (pick text (requote (content_of self.entry.quoted (seen self.entry.twice self.entry.bytes.now))) (plain_cell (content_of self.entry.quoted (seen self.entry.twice self.entry.bytes.now)))) out.new result }
    {
        if text || needs_quotes(self.bytes) {
            return self.put_quoted(out, at);
        }
        put_bytes(out, at, self.bytes)
    }
}
