// The library as C calls it: each export calls the function of its name in noferkash, and promises what that promises.
#![tactic(auto)]

ghost use Rattle.smf.specs.Demand3.{Demand3};
ghost use Rattle.smf.specs.Listing.{PaddingTold};
ghost use Rattle.noferkash.specs.Packed.{number_of, length_of};
ghost use Rattle.noferkash.specs.Calls.{CheckCall, TextCall, FileCall, TidyCall, ListCall, FoldCall, SheetCall, TableCall};

#[unsafe(no_mangle)]
pub extern "C" fn noferkash_check(file: &[u8]) -> u64
    ensures fact_1 { CheckCall file.now result }
    ensures fact_2 { Demand3 file.now (number_of result) }
{
    noferkash::noferkash_check(file)
}

#[unsafe(no_mangle)]
pub extern "C" fn noferkash_file_to_text(file: &[u8], out: &mut [u8]) -> u64
    ensures { TextCall file.now out.old result out.new }
{
    noferkash::noferkash_file_to_text(file, out)
}

#[unsafe(no_mangle)]
pub extern "C" fn noferkash_text_to_file(text: &[u8], manner: u32, out: &mut [u8]) -> u64
    ensures { FileCall text.now manner out.old result out.new }
{
    noferkash::noferkash_text_to_file(text, manner, out)
}

#[unsafe(no_mangle)]
pub extern "C" fn noferkash_tidy(file: &[u8], out: &mut [u8]) -> u64
    ensures { TidyCall file.now out.old result out.new }
{
    noferkash::noferkash_tidy(file, out)
}

#[unsafe(no_mangle)]
pub extern "C" fn noferkash_list_tracks(
    file: &[u8],
    ends: &mut [u32],
    counts: &mut [u32],
    padding: &mut [u32],
) -> u64
    ensures fact_1 { ListCall file.now ends.old counts.old padding.old result ends.new counts.new padding.new }
    ensures fact_2 { PaddingTold file.now (number_of result) (length_of result) padding.new }
{
    noferkash::noferkash_list_tracks(file, ends, counts, padding)
}

#[unsafe(no_mangle)]
pub extern "C" fn noferkash_fold(file: &[u8], out: &mut [u8]) -> u64
    ensures { FoldCall file.now out.old result out.new }
{
    noferkash::noferkash_fold(file, out)
}

#[unsafe(no_mangle)]
pub extern "C" fn noferkash_file_to_sheet(file: &[u8], out: &mut [u8]) -> u64
    ensures { SheetCall file.now out.old result out.new }
{
    noferkash::noferkash_file_to_sheet(file, out)
}

#[unsafe(no_mangle)]
pub extern "C" fn noferkash_sheet_to_text(saved: &[u8], out: &mut [u8]) -> u64
    ensures { TableCall saved.now out.old result out.new }
{
    noferkash::noferkash_sheet_to_text(saved, out)
}
