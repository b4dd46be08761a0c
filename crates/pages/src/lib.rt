// Page ranges: up to 64 pieces that are already split, each a chunk list and a range of two numbers; and the text of a range.
// All pieces are judged before the first number is stored, so that a refusal stores nothing.
#![tactic(auto)]

ghost use Rattle.std.specs.Prelude.{◌≡◌, true, false, [], ◌∷◌, ◌+◌, ◌*◌, ◌^◌, ◌%◌, ◌≤◌, ◌<◌, eqb, length, drop};
ghost use Rattle.std.proofs.lemmas.List.Edits.{sets};
ghost use Rattle.chunks.specs.Chunks.{chunks_of, lengths, is_short};
ghost use Rattle.chunks.specs.Answer.{room_of};
ghost use Rattle.puts.specs.Answers as writing;
ghost use Rattle.puts.specs.Answers.{Put};
ghost use Rattle.puts.specs.Numbers as numbers;
ghost use Rattle.pages.specs.Piece as spec;
ghost use Rattle.pages.specs.Pieces as pieces;
ghost use Rattle.pages.specs.Text as text;

use chunks::ChunksRef;
use puts::{put_digits, width};
use refusals::{FileSpan, Kind, Refusal, nowhere, refuse, refuse_text};
use scanner::{Class, Cursor};

const HYPHEN: u32 = b'-' as u32;

const EN_DASH: u32 = 0x2013;

const EM_DASH: u32 = 0x2014;

// What the piece at a place says, and how many bytes it has.
#[derive(Clone, Copy)]
struct Taken {
    read: Result<(u32, u32), Refusal>,
    len: usize,
}

// ---- one piece

// White space, then a number, in a text whose span has a start.
#[tactic(auto, unfolding(crate::specs::Piece::number_at, crate::specs::Piece::number_of, crate::specs::Piece::numbered))]
fn number_at(s: &[u8], at: Cursor, start: u64) -> Result<(u32, Cursor), Refusal>
    ensures { result ≡ spec.number_at s.now start at.0 }
{
    let run = scanner::next_run(s, at, Class::AsciiDigit);
    let Some(value) = numbers::parse(scanner::from(s, run.start, run.end), 4294967295) else {
        let e = refuse_text(Kind::InvalidNumber, run.start, run.end);
        return Err(refusals::offset_number(e, start));
    };
    Ok((value, run.end))
}

// Past a hyphen, an en dash or an em dash.
#[tactic(auto, unfolding(crate::specs::Piece::dash_at, crate::specs::Piece::or_else))]
fn dash_at(s: &[u8], at: Cursor) -> Option<Cursor>
    ensures { result ≡ spec.dash_at s.now at.0 }
{
    scanner::eat_if(s, at, Class::Is(HYPHEN))
        .or_else(|| scanner::eat_if(s, at, Class::Is(EN_DASH)))
        .or_else(|| scanner::eat_if(s, at, Class::Is(EM_DASH)))
}

// The second number, behind a dash, more hyphens and white space.
#[tactic(auto, unfolding(crate::specs::Piece::behind_dash, crate::specs::Piece::second_at, crate::specs::Piece::on_number, chars::specs::Pick::pick))]
fn behind_dash(s: &[u8], at: Cursor, first: u32, span: FileSpan) -> Result<(u32, u32), Refusal>
    ensures { result ≡ spec.behind_dash s.now at.0 first span }
{
    let a = scanner::eat_whitespace(s, scanner::eat_while(s, at, Class::Is(HYPHEN)));
    let (value, next) = number_at(s, a, span.0)?;
    if !scanner::done(s, next) {
        return Err(refusals::until_span_end(Kind::InvalidNumber, a, span));
    }
    Ok((first, value))
}

// What stands behind the first number and white space: a dash, or the end.
#[tactic(auto, unfolding(crate::specs::Piece::behind_first, crate::specs::Piece::on_dash, chars::specs::Pick::pick))]
fn behind_first(s: &[u8], at: Cursor, first: u32, span: FileSpan) -> Result<(u32, u32), Refusal>
    ensures { result ≡ spec.behind_first s.now at.0 first span }
{
    if let Some(c) = dash_at(s, at) {
        return behind_dash(s, c, first, span);
    }
    if !scanner::done(s, at) {
        return Err(refuse(Kind::InvalidNumber, span));
    }
    Ok((first, first))
}

// The range that a text is.
#[tactic(auto, unfolding(crate::specs::Piece::range_text, crate::specs::Piece::on_number))]
fn range_text(s: &[u8], span: FileSpan) -> Result<(u32, u32), Refusal>
    ensures { result ≡ spec.range_text s.now span }
{
    let (first, next) = number_at(s, Cursor(0), span.0)?;
    behind_first(s, scanner::eat_whitespace(s, next), first, span)
}

// One piece, formatted into a buffer with room for it.
fn piece_in(list: ChunksRef<'_>, buf: &mut [u8]) -> Result<(u32, u32), Refusal>
    requires { is_short list.bytes.now list.table.now ≡ true → room_of list.bytes.now list.table.now ≤ length buf.old }
    ensures { result ≡ spec.piece list.entry.bytes.now list.entry.table.now }
{
    let n = list.format_verbatim(buf)?;
    range_text(&buf[..n], list.span())
}

// One piece.
fn piece(list: ChunksRef<'_>) -> Result<(u32, u32), Refusal>
    ensures { result ≡ spec.piece list.entry.bytes.now list.entry.table.now }
{
    let mut buf = [0u8; 4224];
    piece_in(list, &mut buf)
}

// ---- the shape of all pieces

// Whether the counts make up the table, at four numbers a chunk. What is left is counted down, so that no sum can wrap.
fn counts_fit(counts: &[usize], numbers: usize) -> bool
    ensures { result ≡ eqb (4 * pieces.total counts.now) numbers }
{
    let mut left = numbers;
    for &n in counts {
        if left / 4 < n {
            return false;
        }
        left = left - 4 * n;
    }
    left == 0
}

// Whether the lengths of the chunks make up the bytes, whatever their kinds.
fn lengths_fit(table: &[u64], bytes: usize) -> bool
    requires { length table.now % 4 ≡ 0 }
    ensures { result ≡ eqb (lengths (chunks_of table.now)) bytes }
{
    let mut left = bytes as u64;
    for k in 0..table.len() / 4 {
        let len = table[4 * k + 1];
        if left < len {
            return false;
        }
        left = left - len;
    }
    left == 0
}

// Whether counts and lengths add up.
fn adds_up(list: ChunksRef<'_>, counts: &[usize]) -> bool
    ensures { result ≡ pieces.adds_up list.entry.bytes.now list.entry.table.now counts.now }
{
    if counts_fit(counts, list.table.len()) {
        return lengths_fit(list.table, list.bytes.len());
    }
    false
}

// ---- all pieces

// How many bytes the chunks of a table have.
fn size(table: &[u64]) -> usize
    requires { (length table.now % 4 ≡ 0) × (lengths (chunks_of table.now) < 2 ^ 64) }
    ensures { result ≡ lengths (chunks_of table.now) }
{
    let mut sum = 0;
    for k in 0..table.len() / 4 {
        sum = sum + table[4 * k + 1] as usize;
    }
    sum
}

// The piece of n chunks whose bytes start at a place, and its numbers of the table at another.
fn step(list: ChunksRef<'_>, at: usize, row: usize, n: usize) -> Taken
    requires { (row + 4 * n ≤ length list.table.now) × (at + pieces.size_of n (drop row list.table.now) ≤ length list.bytes.now) }
    ensures { result ≡ pieces.step_of n (drop at list.entry.bytes.now) (drop row list.entry.table.now) }
{
    let rows = &list.table[row..row + 4 * n];
    let len = size(rows);
    let one = ChunksRef {
        bytes: &list.bytes[at..at + len],
        table: rows,
    };
    Taken {
        read: piece(one),
        len,
    }
}

// The first pass: the first refused piece decides, and nothing is stored.
fn judge(list: ChunksRef<'_>, counts: &[usize]) -> Result<usize, Refusal>
    requires { pieces.adds_up list.bytes.now list.table.now counts.now ≡ true }
    ensures { result ≡ pieces.judged (length counts.now) (pieces.pieces_of list.entry.bytes.now list.entry.table.now counts.now) }
{
    let mut at = 0;
    let mut row = 0;
    for &n in counts {
        let s = step(list, at, row, n);
        s.read?;
        at = at + s.len;
        row = row + 4 * n;
    }
    Ok(counts.len())
}

// Two numbers of a range.
fn put_range(r: Result<(u32, u32), Refusal>, out: &mut [u32], at: usize)
    requires { at + 2 ≤ length out.old }
    ensures { out.new ≡ sets out.old at (pieces.numbers_of r) }
{
    // always: the first pass found no refused piece
    if let Ok((start, end)) = r {
        out[at] = start;
        out[at + 1] = end;
    }
}

// The second pass: the numbers of all pieces, at the front of the lent table.
fn store(list: ChunksRef<'_>, counts: &[usize], out: &mut [u32])
    requires { (pieces.adds_up list.bytes.now list.table.now counts.now ≡ true) × (2 * length counts.now ≤ length out.old) }
    ensures { out.new ≡ pieces.put 0 (pieces.pieces_of list.entry.bytes.now list.entry.table.now counts.now) out.old }
{
    let mut at = 0;
    let mut row = 0;
    for (i, &n) in counts.iter().enumerate() {
        let s = step(list, at, row, n);
        let read = s.read;
        put_range(read, out, 2 * i);
        at = at + s.len;
        row = row + 4 * n;
    }
}

// A refusal that names no place.
fn refused(kind: Kind) -> Result<usize, Refusal>
    ensures { result ≡ pieces.refused_pages kind }
{
    Err(nowhere(kind))
}

// What is answered to pieces, with room for so many numbers.
fn decide(list: ChunksRef<'_>, counts: &[usize], room: usize) -> Result<usize, Refusal>
    ensures { result ≡ pieces.pages_answer list.entry.bytes.now list.entry.table.now counts.now room }
{
    if 64 < counts.len() {
        return refused(Kind::TooLong);
    }
    if !adds_up(list, counts) {
        return refused(Kind::BadChunks);
    }
    if room < 2 * counts.len() {
        return refused(Kind::NoRoom);
    }
    judge(list, counts)
}

// Page ranges: two numbers a piece, at the front of the lent table, and how many ranges there are. A refusal stores nothing.
pub fn parse_pages(list: ChunksRef<'_>, counts: &[usize], out: &mut [u32]) -> Result<usize, Refusal>
    ensures value { result ≡ pieces.pages_answer list.entry.bytes.now list.entry.table.now counts.now (length out.old) }
    ensures out_after { out.new ≡ pieces.pages_afterwards list.entry.bytes.now list.entry.table.now counts.now out.old }
{
    let n = decide(list, counts, out.len())?;
    store(list, counts, out);
    Ok(n)
}

// ---- the text of a range

// A hyphen, and the place behind it.
fn put_hyphen(out: &mut [u8], at: usize) -> usize
    requires { at + 1 ≤ length out.old }
    ensures { Put (0x2D ∷ []) out.old at out.new result }
{
    out[at] = b'-';
    at + 1
}

// The text of a range whose numbers have so many digits, at the front of a buffer with room for it.
fn put_text(start: u32, end: u32, first: usize, second: usize, out: &mut [u8]) -> usize
    requires { (first ≡ numbers.width 1 start) × (second ≡ numbers.width 1 end) × (length (text.written_range start end) ≤ length out.old) }
    ensures { Put (text.written_range start end) out.old 0 out.new result }
{
    let k = put_digits(first, start, out, 0);
    let m = put_hyphen(out, k);
    put_digits(second, end, out, m)
}

// A range as text: two numbers with a hyphen, at the front of the lent buffer. A refusal stores nothing.
pub fn write_range(start: u32, end: u32, out: &mut [u8]) -> Result<usize, Refusal>
    ensures value { result ≡ writing.answer false (text.written_range start end) (length out.old) }
    ensures out_after { out.new ≡ writing.afterwards false (text.written_range start end) out.old }
    ensures end_len_bound { length (text.written_range start end) ≤ 21 }
{
    let first = width(1, start);
    let second = width(1, end);
    if out.len() < first + 1 + second {
        return Err(nowhere(Kind::NoRoom));
    }
    Ok(put_text(start, end, first, second, out))
}
