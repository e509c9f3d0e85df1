// The C interface, as a library: noferkash_c exports each of these functions to C under its name.
#![tactic(auto)]

ghost use Rattle.std.specs.Prelude.{◌≡◌, ◌<◌};
ghost use Rattle.smf.specs.Demand3.{Demand3};
ghost use Rattle.smf.specs.Listing.{PaddingTold};
ghost use Rattle.noferkash.specs.Packed.{packed, number_of, length_of};
ghost use Rattle.noferkash.specs.Calls.{CheckCall, TextCall, FileCall, TidyCall, ListCall, FoldCall, SheetCall, TableCall};

// The answer as one number of 64 bits.
fn pack(a: smf::Answer) -> u64
    requires { (a.place < 268435456) × (a.length < 268435456) }
    ensures { result ≡ packed a }
{
    let number = a.number as u64;
    let place = a.place as u64;
    let length = a.length as u64;
    number * 72057594037927936 + place * 268435456 + length
}

pub fn noferkash_check(file: &[u8]) -> u64
    ensures fact_1 { CheckCall file.now result }
    ensures fact_2 { Demand3 file.now (number_of result) }
{
    pack(smf::check::check(file))
}

pub fn noferkash_file_to_text(file: &[u8], out: &mut [u8]) -> u64
    ensures { TextCall file.now out.old result out.new }
{
    pack(midicsv_write::to_text::file_to_text(file, out))
}

pub fn noferkash_text_to_file(text: &[u8], manner: u32, out: &mut [u8]) -> u64
    ensures { FileCall text.now manner out.old result out.new }
{
    pack(midicsv_read::to_file::text_to_file(text, manner, out))
}

pub fn noferkash_tidy(file: &[u8], out: &mut [u8]) -> u64
    ensures { TidyCall file.now out.old result out.new }
{
    pack(smf_write::tidy::tidy(file, out))
}

pub fn noferkash_list_tracks(
    file: &[u8],
    ends: &mut [u32],
    counts: &mut [u32],
    padding: &mut [u32],
) -> u64
    ensures fact_1 { ListCall file.now ends.old counts.old padding.old result ends.new counts.new padding.new }
    ensures fact_2 { PaddingTold file.now (number_of result) (length_of result) padding.new }
{
    pack(smf::list::list_tracks(file, ends, counts, padding))
}

pub fn noferkash_fold(file: &[u8], out: &mut [u8]) -> u64
    ensures { FoldCall file.now out.old result out.new }
{
    let mut places = [0usize; 64];
    let mut times = [0u32; 64];
    let mut statuses = [0u8; 64];
    pack(fold::fold(file, out, &mut places, &mut times, &mut statuses))
}

pub fn noferkash_file_to_sheet(file: &[u8], out: &mut [u8]) -> u64
    ensures { SheetCall file.now out.old result out.new }
{
    pack(midicsv_write::to_text::file_to_sheet(file, out))
}

pub fn noferkash_sheet_to_text(saved: &[u8], out: &mut [u8]) -> u64
    ensures { TableCall saved.now out.old result out.new }
{
    pack(sheet::table::sheet_to_text(saved, out))
}
