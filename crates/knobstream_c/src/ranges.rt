// Page ranges, read from pieces and written.
ghost use Rattle.std.specs.Prelude.{◌≡◌, false, length};
ghost use Rattle.pages.specs.Pieces.{pages_answer, pages_afterwards};
ghost use Rattle.pages.specs.Text.{written_range};
ghost use Rattle.puts.specs.Answers.{answer, afterwards};
ghost use Rattle.knobstream.specs.Plain as plain;
ghost use Rattle.knobstream.specs.Ranges.{page_words};

use knobstream::PlainWritten;

// Pieces as page ranges, two numbers each at the front of the lent numbers; a refusal stores nothing there.
#[unsafe(no_mangle)]
pub extern "C" fn knobstream_parse_pages(
    bytes: &[u8],
    table: &[u64],
    counts: &[usize],
    out: &mut [u32],
    answer: &mut [u64; 4],
)
    ensures answer_after { answer.new ≡ page_words (pages_answer bytes.now table.now counts.now (length out.old)) }
    ensures out_after { out.new ≡ pages_afterwards bytes.now table.now counts.now out.old }
{
    knobstream::ranges::knobstream_parse_pages(bytes, table, counts, out, answer);
}

// The text of a page range, at the front of the lent buffer; without room for it nothing is stored.
#[unsafe(no_mangle)]
pub extern "C" fn knobstream_write_range(start: u32, end: u32, out: &mut [u8]) -> PlainWritten
    ensures value { result ≡ plain.written (answer false (written_range start end) (length out.old)) }
    ensures out_after { out.new ≡ afterwards false (written_range start end) out.old }
{
    knobstream::ranges::knobstream_write_range(start, end, out)
}
