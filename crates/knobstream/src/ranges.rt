// Page ranges, read from pieces and written.
ghost use Rattle.std.specs.Prelude.{◌≡◌, false, length};
ghost use Rattle.pages.specs.Pieces.{pages_answer, pages_afterwards};
ghost use Rattle.pages.specs.Text.{written_range};
ghost use Rattle.puts.specs.Answers.{answer, afterwards};
ghost use Rattle.knobstream.specs.Plain as plain;
ghost use Rattle.knobstream.specs.Ranges.{page_words};

use crate::PlainWritten;
use chunks::ChunksRef;
use refusals::Refusal;

// Stores what reading answers into the words that a caller lends: how many ranges, the place, the number of the refusal.
fn put_answer(a: Result<usize, Refusal>, words: &mut [u64; 4])
    ensures { words.new ≡ page_words a }
{
    match a {
        Ok(n) => {
            *words = [n as u64, 0, 0, 0];
        }
        Err(e) => {
            let kind = e.kind;
            let start = e.place.0;
            let end = e.place.1;
            let refusal = refusals::number(kind) as u64;
            *words = [0, start, end, refusal];
        }
    }
}

// Pieces as page ranges, two numbers each at the front of the lent numbers; a refusal stores nothing there.
pub fn knobstream_parse_pages(
    bytes: &[u8],
    table: &[u64],
    counts: &[usize],
    out: &mut [u32],
    answer: &mut [u64; 4],
)
    ensures answer_after { answer.new ≡ page_words (pages_answer bytes.now table.now counts.now (length out.old)) }
    ensures out_after { out.new ≡ pages_afterwards bytes.now table.now counts.now out.old }
{
    let list = ChunksRef { bytes, table };
    put_answer(pages::parse_pages(list, counts, out), answer);
}

// The text of a page range, at the front of the lent buffer; without room for it nothing is stored.
pub fn knobstream_write_range(start: u32, end: u32, out: &mut [u8]) -> PlainWritten
    ensures value { result ≡ plain.written (answer false (written_range start end) (length out.old)) }
    ensures out_after { out.new ≡ afterwards false (written_range start end) out.old }
{
    crate::plain_written(pages::write_range(start, end, out))
}
