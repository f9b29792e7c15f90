// Tree files, and rearranged ones, into tables.
ghost use Rattle.std.specs.Prelude.{◌≡◌, length};
ghost use Rattle.file_loader.specs.Files.{loaded, loaded_table, loaded_in_numbers};
ghost use Rattle.file_columns.specs.Rearranged.{columns_loaded, columns_table};
ghost use Rattle.answers.specs.Replies.{one_number};

use file_loader::Loaded;
use tree::refusal::Refusal;

// The refusal times 65,536, or the context times 8,192 and the count.
fn number(answer: Result<Loaded, Refusal>) -> u32
    ensures { result ≡ one_number (loaded_in_numbers answer) }
{
    match answer {
        Err(refusal) => 65536 * u32::from(refusal.number()),
        Ok(loaded) => 8192 * u32::from(loaded.context) + u32::from(loaded.count),
    }
}

// file_loader::load.
#[unsafe(no_mangle)]
pub extern "C" fn tezhukor_load(file: &[u8], table: &mut [u16]) -> u32
    ensures reply { result ≡ one_number (loaded_in_numbers (loaded file.now (length table.old))) }
    ensures table { table.new ≡ loaded_table file.now table.old }
{
    number(file_loader::load(file, table))
}

// file_columns::load_columns.
#[unsafe(no_mangle)]
pub extern "C" fn tezhukor_load_columns(columns: &[u8], table: &mut [u16]) -> u32
    ensures reply { result ≡ one_number (loaded_in_numbers (columns_loaded columns.now (length table.old))) }
    ensures table { table.new ≡ columns_table columns.now table.old }
{
    number(file_columns::load_columns(columns, table))
}
