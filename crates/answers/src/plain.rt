// The tokens of plain trees, and the readings of token lists. The reader's answer is the refusal times 65,536, or the count of
// nodes stored; the writer's the refusal times 2^32, or the pairs times 65,536 and the count of tokens stored.
ghost use Rattle.std.specs.Prelude.{◌≡◌, length};
ghost use Rattle.token_writer.specs.Writes.{answered, tokens_after, written_in_numbers};
ghost use Rattle.token_reader.specs.Reading.{reply_in_numbers};
ghost use Rattle.answers.specs.Replies.{one_number, wide_number, ReadNumber};

use token_writer::Written;
use tree::refusal::Refusal;

fn written_number(answer: Result<Written, Refusal>) -> u64
    ensures { result ≡ wide_number (written_in_numbers answer) }
{
    match answer {
        Err(refusal) => 65536 * 65536 * u64::from(refusal.number()),
        Ok(written) => 65536 * u64::from(written.pairs) + u64::from(written.tokens),
    }
}

// token_writer::write.
#[unsafe(no_mangle)]
pub extern "C" fn tezhukor_write(context: u16, count: u16, table: &[u16], tokens: &mut [u16]) -> u64
    ensures reply { result ≡ wide_number (written_in_numbers (answered context count table.now (length tokens.old))) }
    ensures tokens { tokens.new ≡ tokens_after context count table.now tokens.old }
{
    written_number(token_writer::write(context, count, table, tokens))
}

fn reply_number(answer: Result<u16, Refusal>) -> u32
    ensures { result ≡ one_number (reply_in_numbers answer) }
{
    match answer {
        Err(refusal) => 65536 * u32::from(refusal.number()),
        Ok(stored) => u32::from(stored),
    }
}

// token_reader::read.
#[unsafe(no_mangle)]
pub extern "C" fn tezhukor_read(context: u16, tokens: &[u16], table: &mut [u16]) -> u32
    ensures { ReadNumber context tokens.now table.old result table.new }
{
    reply_number(token_reader::read(context, tokens, table))
}
