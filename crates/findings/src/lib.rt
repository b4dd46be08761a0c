// The lines that are said of an import file, every byte, in a buffer that the caller lends. Each text is gone through twice: the first time
// over a buffer of one byte, which measures it, and then, if there is room for all of it, over the lent one. The functions that go through
// a text give the place behind it, and store what there is room for.
#![tactic(auto)]

ghost use Rattle.std.specs.Prelude.{◌≡◌, true, false, [], ◌++◌, ◌+◌, ◌<◌, length};
ghost use Rattle.chars.specs.Ascii.{ascii};
ghost use Rattle.puts.specs.Answers as writing;
ghost use Rattle.puts.specs.Numbers as numbers;
ghost use Rattle.verdicts.specs.Plain as plain;
ghost use Rattle.findings.specs.Escapes as escapes;
ghost use Rattle.findings.specs.Words as words;
ghost use Rattle.findings.specs.Lines as lines;
ghost use Rattle.chars.specs.Pick.{pick};
ghost use Rattle.findings.specs.Runs.{Moved, Ran, head, tail};

use csv_rows::Fault;
use dates::Date;
use headers::{RowFault, Unusable};
use puts::{decide, put_bytes, put_digits, width};
use refusals::Refusal;
use verdicts::Verdict;

// The columns that hold a date each.
#[derive(Clone, Copy)]
pub enum Column {
    Date,
    Origdate,
    Eventdate,
    Urldate,
}

// ---- bytes and numbers

// The place behind so many bytes, or the largest number.
fn forward(at: usize, n: usize) -> usize
    ensures { Moved n at result }
{
    if n <= usize::MAX - at {
        at + n
    } else {
        usize::MAX
    }
}

// Bytes as they are.
fn put_piece(t: &[u8], out: &mut [u8], at: usize) -> usize
    ensures { Ran t.now out.old at out.new result }
{
    put_bytes(t, out, at);
    forward(at, t.len())
}

// A number of 32 bits with at least so many digits.
fn put_decimal(least: usize, n: u32, out: &mut [u8], at: usize) -> usize
    ensures { Ran (numbers.decimal least n) out.old at out.new result }
{
    let w = width(least, n);
    put_digits(w, n, out, at);
    forward(at, w)
}

// A number of some more bits: what is before its last digit has 32.
fn put_number(n: u64, out: &mut [u8], at: usize) -> usize
    requires { n < 42949672960 }
    ensures { Ran (numbers.decimal 1 n) out.old at out.new result }
{
    if n < 10 {
        return put_decimal(1, n as u32, out, at);
    }
    let k = put_decimal(1, (n / 10) as u32, out, at);
    put_piece(&[48 + (n % 10) as u8], out, k)
}

// Words, and a number behind them.
fn put_counted(t: &[u8], n: u64, out: &mut [u8], at: usize) -> usize
    requires { n < 42949672960 }
    ensures { Ran (words.counted t.now n) out.old at out.new result }
{
    let k = put_piece(t, out, at);
    put_number(n, out, k)
}

// A place or a count as it is said.
fn capped(n: u64) -> u64
    ensures { (result ≡ words.capped n) × (result < 4294967296) }
{
    if n <= 4294967295 {
        return n;
    }
    4294967295
}

// Words, and a place or a count behind them.
fn put_placed(t: &[u8], n: u64, out: &mut [u8], at: usize) -> usize
    ensures { Ran (words.placed t.now n) out.old at out.new result }
{
    put_counted(t, capped(n), out, at)
}

// ---- bytes of the file

// Whether a byte is shown by its digits.
fn is_hidden(b: u8) -> bool
    ensures { result ≡ escapes.is_hidden b }
{
    if b < 32 {
        return true;
    }
    b == 127
}

// Whether it is shown behind a backslash.
fn is_marked(b: u8) -> bool
    ensures { result ≡ escapes.is_marked b }
{
    if b == b'"' {
        return true;
    }
    b == b'\\'
}

// A byte as it is shown.
fn put_shown(b: u8, out: &mut [u8], at: usize) -> usize
    ensures { Ran (escapes.shown_byte b) out.old at out.new result }
{
    if is_hidden(b) {
        let high = answers::high(b);
        let low = answers::low(b);
        return put_piece(&[b'\\', b'x', high, low], out, at);
    }
    if is_marked(b) {
        return put_piece(&[b'\\', b], out, at);
    }
    put_piece(&[b], out, at)
}

// Bytes as they are shown.
fn put_escaped(t: &[u8], out: &mut [u8], at: usize) -> usize
    ensures { Ran (escapes.escaped t.now) out.old at out.new result }
{
    let mut k = at;
    for b in t {
        k = put_shown(*b, out, k);
    }
    k
}

// The same between double quotes.
fn put_quoted(t: &[u8], out: &mut [u8], at: usize) -> usize
    ensures { Ran (escapes.quoted t.now) out.old at out.new result }
{
    let j = put_piece(b"\"", out, at);
    let k = put_escaped(t, out, j);
    put_piece(b"\"", out, k)
}

// ---- what is said of a date

// The words of a refusal's kind, by its number.
fn put_kind(n: u8, out: &mut [u8], at: usize) -> usize
    ensures { Ran (words.kind_words n) out.old at out.new result }
{
    match n {
        1 => put_piece(b"a range that is open on both sides", out, at),
        2 => put_piece(b"no such day", out, at),
        3 => put_piece(b"no such month", out, at),
        4 => put_piece(b"not a number, or out of its range", out, at),
        5 => put_piece(b"a number is missing", out, at),
        6 => put_piece(b"too few or too many digits", out, at),
        7 => put_piece(b"not in the form of a date", out, at),
        8 => put_piece(b"an era has no year zero", out, at),
        9 => put_piece(b"the typesetting run would stop here", out, at),
        10 => put_piece(b"bytes that are not UTF-8", out, at),
        11 => put_piece(b"a character that no date has", out, at),
        16 => put_piece(b"longer than 4,096 bytes", out, at),
        _ => put_piece(b"not read", out, at),
    }
}

// The place of a refusal, if its kind has one.
fn put_place(e: Refusal, out: &mut [u8], at: usize) -> usize
    ensures { Ran (words.place_words e) out.old at out.new result }
{
    let kind = e.kind;
    if refusals::has_place(kind) {
        let k = put_placed(b", at ", e.place.0, out, at);
        return put_placed(b"..", e.place.1, out, k);
    }
    at
}

// A refusal.
fn put_refusal(e: Refusal, out: &mut [u8], at: usize) -> usize
    ensures { Ran (words.refusal_words e) out.old at out.new result }
{
    let kind = e.kind;
    let k = put_kind(refusals::number(kind), out, at);
    put_place(e, out, k)
}

// The written text of a Date.
fn put_written(d: Date, out: &mut [u8], at: usize) -> usize
    ensures { Ran (plain.written_text d) out.old at out.new result }
{
    let mut text = [0u8; 40];
    match writer::write_text(d, &mut text) {
        Ok(n) => put_piece(&text[..n], out, at),
        Err(_) => at,
    }
}

// What is said of a year of two digits.
fn put_window(windowed: bool, out: &mut [u8], at: usize) -> usize
    ensures { Ran (words.window_words windowed) out.old at out.new result }
{
    if windowed {
        return put_piece(b"; a year of two digits is put into a century", out, at);
    }
    at
}

// What is said of a date that is not strict.
fn put_not_strict(d: Date, windowed: bool, out: &mut [u8], at: usize) -> usize
    ensures { Ran (ascii "not a full date; the typesetting run would print " ++ (plain.written_text d ++ words.window_words windowed)) out.old at out.new result }
{
    let j = put_piece(
        b"not a full date; the typesetting run would print ",
        out,
        at,
    );
    let k = put_written(d, out, j);
    put_window(windowed, out, k)
}

// Of one with a short year.
fn put_short(d: Date, out: &mut [u8], at: usize) -> usize
    ensures { Ran (ascii "a year of fewer than four digits is read as it stands; the typesetting run would print " ++ plain.written_text d) out.old at out.new result }
{
    let k = put_piece(
        b"a year of fewer than four digits is read as it stands; the typesetting run would print ",
        out,
        at,
    );
    put_written(d, out, k)
}

// Whether a verdict says anything: of no date, and of a full one, nothing is said.
#[tactic(auto, unfolding(crate::specs::Words::is_said))]
pub fn is_said(v: Verdict) -> bool
    ensures { result ≡ words.is_said v }
{
    match v {
        Verdict::NoDate => false,
        Verdict::Full => false,
        Verdict::NotStrict(_) => true,
        Verdict::ShortYear(_) => true,
        Verdict::Unread => true,
        Verdict::Refused(_) => true,
    }
}

// Its sort.
#[tactic(auto, unfolding(crate::specs::Words::sort))]
fn put_sort(v: Verdict, out: &mut [u8], at: usize) -> usize
    ensures { Ran (words.sort v) out.old at out.new result }
{
    match v {
        Verdict::NoDate => at,
        Verdict::Full => at,
        Verdict::NotStrict(_) => put_piece(b"not strict", out, at),
        Verdict::ShortYear(_) => put_piece(b"short year", out, at),
        Verdict::Unread => put_piece(b"refused", out, at),
        Verdict::Refused(_) => put_piece(b"refused", out, at),
    }
}

// Its message.
#[tactic(auto, unfolding(crate::specs::Words::message))]
fn put_message(v: Verdict, windowed: bool, out: &mut [u8], at: usize) -> usize
    ensures { Ran (words.message v windowed) out.old at out.new result }
{
    match v {
        Verdict::NoDate => at,
        Verdict::Full => at,
        Verdict::NotStrict(d) => put_not_strict(d, windowed, out, at),
        Verdict::ShortYear(d) => put_short(d, out, at),
        Verdict::Unread => put_piece(
            b"a part is not read: a day needs its month, an end its year",
            out,
            at,
        ),
        Verdict::Refused(e) => put_refusal(e, out, at),
    }
}

// ---- what is said of a row

// Why a line is no row.
fn put_fault(f: Fault, out: &mut [u8], at: usize) -> usize
    ensures { Ran (words.fault_words f) out.old at out.new result }
{
    match f {
        Fault::QuoteInside(p) => put_placed(
            b"a quote in a cell that has none around it, at ",
            p as u64,
            out,
            at,
        ),
        Fault::TextBehind(p) => put_placed(b"text behind a closing quote, at ", p as u64, out, at),
        Fault::LoneReturn(p) => put_placed(
            b"a carriage return without a line feed, at ",
            p as u64,
            out,
            at,
        ),
        Fault::NeverClosed(p) => put_placed(
            b"a quote that is never closed, at ",
            p as u64,
            out,
            at,
        ),
        Fault::TooLong(p) => {
            let k = put_placed(
                b"longer than 65,536 bytes, its last cell from ",
                p as u64,
                out,
                at,
            );
            put_piece(b" on", out, k)
        }
        Fault::TooMany => put_piece(b"more than 256 cells", out, at),
    }
}

// Why a row can not be used.
fn put_row_fault(f: RowFault, out: &mut [u8], at: usize) -> usize
    ensures { Ran (words.row_words f) out.old at out.new result }
{
    match f {
        RowFault::Broken(f) => put_fault(f, out, at),
        RowFault::Cells(n, m) => {
            let k = put_placed(b"", n as u64, out, at);
            put_placed(b" cells where the header has ", m as u64, out, k)
        }
        RowFault::BadUtf8(p) => put_placed(b"bytes that are not UTF-8, at ", p as u64, out, at),
        RowFault::LongCell => put_piece(b"a cell of more than 4,096 bytes", out, at),
    }
}

// ---- lines

// The name of a column.
fn put_column(c: Column, out: &mut [u8], at: usize) -> usize
    ensures { Ran (lines.column_name c) out.old at out.new result }
{
    match c {
        Column::Date => put_piece(b"date", out, at),
        Column::Origdate => put_piece(b"origdate", out, at),
        Column::Eventdate => put_piece(b"eventdate", out, at),
        Column::Urldate => put_piece(b"urldate", out, at),
    }
}

// The line number and the key, and a tab behind each.
fn put_head(line: u32, key: &[u8], out: &mut [u8], at: usize) -> usize
    ensures { Ran (head line key.now) out.old at out.new result }
{
    let i = put_number(line as u64, out, at);
    let j = put_piece(b"\t", out, i);
    let k = put_escaped(key, out, j);
    put_piece(b"\t", out, k)
}

// The sort and the message, a tab before each and a line feed behind them.
fn put_tail(v: Verdict, windowed: bool, out: &mut [u8], at: usize) -> usize
    ensures { Ran (tail (words.sort v) (words.message v windowed)) out.old at out.new result }
{
    let h = put_piece(b"\t", out, at);
    let i = put_sort(v, out, h);
    let j = put_piece(b"\t", out, i);
    let k = put_message(v, windowed, out, j);
    put_piece(b"\n", out, k)
}

// The line of a date in one cell.
fn put_date_line(
    line: u32,
    key: &[u8],
    column: Column,
    cell: &[u8],
    v: Verdict,
    windowed: bool,
    out: &mut [u8],
) -> usize
    ensures { Ran (lines.date_line line key.now column cell.now v windowed) out.old 0 out.new result }
{
    if is_said(v) {
        let h = put_head(line, key, out, 0);
        let i = put_column(column, out, h);
        let j = put_piece(b"\t", out, i);
        let k = put_quoted(cell, out, j);
        return put_tail(v, windowed, out, k);
    }
    0
}

// A comma, but before the first.
fn put_comma(first: bool, out: &mut [u8], at: usize) -> usize
    ensures { Ran (pick first [] (ascii ", ")) out.old at out.new result }
{
    if first {
        return at;
    }
    put_piece(b", ", out, at)
}

// A cell of six behind its name.
fn put_named(first: bool, name: &[u8], cell: &[u8], out: &mut [u8], at: usize) -> usize
    ensures { Ran (lines.named_cell first name.now cell.now) out.old at out.new result }
{
    if cell.len() == 0 {
        return at;
    }
    let i = put_comma(first, out, at);
    let j = put_piece(name, out, i);
    let k = put_piece(b" ", out, j);
    put_quoted(cell, out, k)
}

// Whether the next one is the first still.
fn still_first(first: bool, cell: &[u8]) -> bool
    ensures { result ≡ lines.still_first first cell.now }
{
    if first {
        return cell.len() == 0;
    }
    false
}

// The text of six cells.
fn put_six_text(
    year: &[u8],
    month: &[u8],
    day: &[u8],
    end_year: &[u8],
    end_month: &[u8],
    end_day: &[u8],
    out: &mut [u8],
    at: usize,
) -> usize
    ensures { Ran (lines.six_text year.now month.now day.now end_year.now end_month.now end_day.now) out.old at out.new result }
{
    let a = still_first(true, year);
    let b = still_first(a, month);
    let c = still_first(b, day);
    let d = still_first(c, end_year);
    let e = still_first(d, end_month);
    let f = put_named(true, b"year", year, out, at);
    let g = put_named(a, b"month", month, out, f);
    let h = put_named(b, b"day", day, out, g);
    let i = put_named(c, b"endyear", end_year, out, h);
    let j = put_named(d, b"endmonth", end_month, out, i);
    put_named(e, b"endday", end_day, out, j)
}

// The line of a date in six cells.
fn put_six_line(
    line: u32,
    key: &[u8],
    year: &[u8],
    month: &[u8],
    day: &[u8],
    end_year: &[u8],
    end_month: &[u8],
    end_day: &[u8],
    v: Verdict,
    out: &mut [u8],
) -> usize
    ensures { Ran (lines.six_line line key.now year.now month.now day.now end_year.now end_month.now end_day.now v) out.old 0 out.new result }
{
    if is_said(v) {
        let i = put_head(line, key, out, 0);
        let j = put_piece(b"year\t", out, i);
        let k = put_six_text(year, month, day, end_year, end_month, end_day, out, j);
        return put_tail(v, false, out, k);
    }
    0
}

// The line of a row that can not be used.
fn put_bad_row(line: u32, fault: RowFault, out: &mut [u8]) -> usize
    ensures { Ran (lines.bad_row_line line fault) out.old 0 out.new result }
{
    let i = put_number(line as u64, out, 0);
    let j = put_piece(b"\t\t\t\tbad row\t", out, i);
    let k = put_row_fault(fault, out, j);
    put_piece(b"\n", out, k)
}

// What follows from so many findings.
fn put_signing(n: u64, out: &mut [u8], at: usize) -> usize
    requires { n < 42949672960 }
    ensures { Ran (lines.signing n) out.old at out.new result }
{
    if n == 0 {
        return put_piece(b"safe to sign\n", out, at);
    }
    let k = put_counted(b"do not sign: ", n, out, at);
    if n == 1 {
        return put_piece(b" finding\n", out, k);
    }
    put_piece(b" findings\n", out, k)
}

// The sum of three counts.
fn sum(a: u32, b: u32, c: u32) -> u64
    ensures { (result ≡ a + b + c) × (result < 42949672960) }
{
    a as u64 + b as u64 + c as u64
}

// The two lines at the end.
fn put_summary(
    rows: u32,
    strict: u32,
    otherwise: u32,
    refused: u32,
    bad: u32,
    out: &mut [u8],
) -> usize
    ensures { Ran (lines.summary rows strict otherwise refused bad) out.old 0 out.new result }
{
    let dates = sum(strict, otherwise, refused);
    let findings = sum(otherwise, refused, bad);
    let f = put_counted(b"rows ", rows as u64, out, 0);
    let g = put_counted(b", dates ", dates, out, f);
    let h = put_counted(b", strict ", strict as u64, out, g);
    let i = put_counted(b", read otherwise ", otherwise as u64, out, h);
    let j = put_counted(b", refused ", refused as u64, out, i);
    let k = put_counted(b", bad rows ", bad as u64, out, j);
    let l = put_piece(b"\n", out, k);
    put_signing(findings, out, l)
}

// Why a header can not be used.
fn put_unusable(reason: Unusable, out: &mut [u8], at: usize) -> usize
    ensures { Ran (lines.unusable_words reason) out.old at out.new result }
{
    match reason {
        Unusable::Empty => put_piece(b"the file is empty", out, at),
        Unusable::NoColumn => put_piece(b"the header has no column to check", out, at),
        Unusable::Twice => put_piece(b"the header has a column twice", out, at),
        Unusable::Returns => put_piece(b"its lines end in carriage returns alone", out, at),
        Unusable::NoRow(fault) => {
            let k = put_piece(b"the header is no row: ", out, at);
            put_row_fault(fault, out, k)
        }
    }
}

// The one line of a file whose header can not be used.
fn put_unread(reason: Unusable, out: &mut [u8]) -> usize
    ensures { Ran (lines.unread_line reason) out.old 0 out.new result }
{
    let j = put_piece(b"could not be read: ", out, 0);
    let k = put_unusable(reason, out, j);
    put_piece(b"\n", out, k)
}

// ---- the calls

// What is said of a date in one cell, at the front of the lent buffer; without room for it nothing is stored. The cell and the key are
// texts, whose quotes are undone.
pub fn write_date_finding(
    line: u32,
    key: &[u8],
    column: Column,
    cell: &[u8],
    verdict: Verdict,
    windowed: bool,
    out: &mut [u8],
) -> Result<usize, Refusal>
    ensures value { result ≡ writing.answer false (lines.date_line line key.now column cell.now verdict windowed) (length out.old) }
    ensures out_after { out.new ≡ writing.afterwards false (lines.date_line line key.now column cell.now verdict windowed) out.old }
{
    let mut one = [0u8; 1];
    let n = put_date_line(line, key, column, cell, verdict, windowed, &mut one);
    decide(Ok(n), out.len())?;
    Ok(put_date_line(line, key, column, cell, verdict, windowed, out))
}

// What is said of a date in six cells.
pub fn write_six_finding(
    line: u32,
    key: &[u8],
    year: &[u8],
    month: &[u8],
    day: &[u8],
    end_year: &[u8],
    end_month: &[u8],
    end_day: &[u8],
    verdict: Verdict,
    out: &mut [u8],
) -> Result<usize, Refusal>
    ensures value { result ≡ writing.answer false (lines.six_line line key.now year.now month.now day.now end_year.now end_month.now end_day.now verdict) (length out.old) }
    ensures out_after { out.new ≡ writing.afterwards false (lines.six_line line key.now year.now month.now day.now end_year.now end_month.now end_day.now verdict) out.old }
{
    let mut one = [0u8; 1];
    let n = put_six_line(
        line, key, year, month, day, end_year, end_month, end_day, verdict, &mut one,
    );
    decide(Ok(n), out.len())?;
    Ok(put_six_line(
        line, key, year, month, day, end_year, end_month, end_day, verdict, out,
    ))
}

// What is said of a row that can not be used.
pub fn write_bad_row(line: u32, fault: RowFault, out: &mut [u8]) -> Result<usize, Refusal>
    ensures value { result ≡ writing.answer false (lines.bad_row_line line fault) (length out.old) }
    ensures out_after { out.new ≡ writing.afterwards false (lines.bad_row_line line fault) out.old }
{
    let mut one = [0u8; 1];
    let n = put_bad_row(line, fault, &mut one);
    decide(Ok(n), out.len())?;
    Ok(put_bad_row(line, fault, out))
}

// The two lines at the end: the counts, and whether there is a finding.
pub fn write_summary(
    rows: u32,
    strict: u32,
    otherwise: u32,
    refused: u32,
    bad: u32,
    out: &mut [u8],
) -> Result<usize, Refusal>
    ensures value { result ≡ writing.answer false (lines.summary rows strict otherwise refused bad) (length out.old) }
    ensures out_after { out.new ≡ writing.afterwards false (lines.summary rows strict otherwise refused bad) out.old }
{
    let mut one = [0u8; 1];
    let n = put_summary(rows, strict, otherwise, refused, bad, &mut one);
    decide(Ok(n), out.len())?;
    Ok(put_summary(rows, strict, otherwise, refused, bad, out))
}

// The one line of a file whose header can not be used.
pub fn write_unread(reason: Unusable, out: &mut [u8]) -> Result<usize, Refusal>
    ensures value { result ≡ writing.answer false (lines.unread_line reason) (length out.old) }
    ensures out_after { out.new ≡ writing.afterwards false (lines.unread_line reason) out.old }
{
    let mut one = [0u8; 1];
    let n = put_unread(reason, &mut one);
    decide(Ok(n), out.len())?;
    Ok(put_unread(reason, out))
}
