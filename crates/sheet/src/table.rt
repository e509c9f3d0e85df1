// A saved table turned into its text.
ghost use Rattle.std.specs.Prelude.{◌≡◌, ◌≤◌, ◌<◌, ◌^◌, length};
ghost use Rattle.event_write.specs.Written.{Written};
ghost use Rattle.midicsv.specs.Lines.{lines_of};
ghost use Rattle.sheet_table.specs.Table.{sep_in, sep_of, unmarked, table_lines, table_text};
ghost use Rattle.sheet_table.specs.TableAnswer.{table_answer, table_leaves};

use super::lines::put_line;
use super::{COMMA, SEMICOLON, TAB, TABLE_LIMIT};
use event::refusal::Refusal;
use event_write::bytes::put_byte;
use midicsv_scan::frame::{line_at, passed_over, trim};
use smf::Answer;

const TEXT_LIMIT: usize = 33554432;

// A table without the byte order mark before it.
fn without_mark(saved: &[u8]) -> &[u8]
    ensures { result.now ≡ unmarked saved.now }
{
    match saved {
        [0xEF, 0xBB, 0xBF, table @ ..] => table,
        _ => saved,
    }
}

// What separates the cells of a line: a comma if it has one, else a semicolon, else a tab, else a comma.
fn separator_in(line: &[u8]) -> u8
    ensures { result ≡ sep_in line.now }
{
    if line.contains(&COMMA) {
        return COMMA;
    }
    if line.contains(&SEMICOLON) {
        return SEMICOLON;
    }
    if line.contains(&TAB) { TAB } else { COMMA }
}

// What separates cells, by the first line that is not passed over.
fn separator(table: &[u8]) -> u8
    ensures { result ≡ sep_of (lines_of table.now) }
{
    let mut at = 0;
    // each line tells where the next begins, so no iterator over bytes is plainer
    while at < table.len() {
        let cut = line_at(table, at);
        let line = trim(&table[at..cut.end]);
        if !passed_over(line) {
            return separator_in(line);
        }
        at = cut.next;
    }
    COMMA
}

// The lines of the text.
fn put_lines(out: &mut [u8], table: &[u8], sep: u8) -> usize
    requires fact_1 { length table.now ≤ 268435456 }
    requires fact_2 { length (table_lines sep (lines_of table.now)) < 2 ^ 38 }
    ensures { Written out.old 0 (table_lines sep (lines_of table.now)) out.new result }
{
    let mut next = 0;
    let mut at = 0;
    // each line tells where the next begins
    while at < table.len() {
        let cut = line_at(table, at);
        next = put_line(out, next, trim(&table[at..cut.end]), sep);
        next = put_byte(out, next, b'\n');
        at = cut.next;
    }
    next
}

// The text of a table.
fn put_table(out: &mut [u8], saved: &[u8]) -> usize
    requires { length saved.now ≤ 268435456 }
    ensures { Written out.old 0 (table_text saved.now) out.new result }
{
    let table = without_mark(saved);
    put_lines(out, table, separator(table))
}

// The text of a saved table, into lent room; on any refusal the room keeps what it held. No text is longer
// than twice its table and two bytes more, so in such a room nothing is measured first.
pub fn sheet_to_text(saved: &[u8], out: &mut [u8]) -> Answer
    ensures fact_1 { result ≡ table_answer (length out.old) saved.now }
    ensures fact_2 { out.new ≡ table_leaves saved.now out.old }
{
    if TABLE_LIMIT < saved.len() {
        return Answer::refuse(Refusal::TableTooLong, 0);
    }
    let most = 2 * saved.len() + 2;
    if most <= TEXT_LIMIT && most <= out.len() {
        let written = put_table(out, saved);
        return Answer::success(written);
    }
    let need = put_table(&mut out[..0], saved);
    if TEXT_LIMIT < need {
        return Answer::refuse(Refusal::TextTooLong, 0);
    }
    if out.len() < need {
        return Answer::room_needed(need);
    }
    put_table(out, saved);
    Answer::success(need)
}
