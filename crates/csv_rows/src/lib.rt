// Rows of CSV as spreadsheets write them (RFC 4180): the next row of a block, or what is wrong with it.
#![tactic(auto)]

ghost use Rattle.std.specs.Prelude.{◌≡◌, true, false, ◌+◌, ◌*◌, ◌≤◌, ◌<◌, length, drop};
ghost use Rattle.std.proofs.lemmas.List.Edits.{sets};
ghost use Rattle.csv_rows.specs.Reader as spec;
ghost use Rattle.csv_rows.specs.Answers as says;
ghost use Rattle.csv_rows.specs.Texts as texts;
ghost use Rattle.csv_rows.specs.Bytes as bytes;
ghost use Rattle.csv_rows.specs.Scans as scans;
ghost use Rattle.chars.specs.Utf8.{len_d, decode_at};

use chars::Decoded;

// What stands between cells.
#[derive(Clone, Copy)]
pub enum Separator {
    Comma,
    Semicolon,
    Tab,
}

// Why there is no row, and at which byte of it: a quote inside a plain cell, text behind a closing quote, a carriage return without a
// line feed, a quote that is never closed, a row that is too long and where its last cell begins, a row of too many cells.
#[derive(Clone, Copy)]
pub enum Fault {
    QuoteInside(usize),
    TextBehind(usize),
    LoneReturn(usize),
    NeverClosed(usize),
    TooLong(usize),
    TooMany,
}

// The next row: so many cells; or none, for this fault. `end` is the place where the one after it starts. An endless one has no line end
// within the window, which is taken: the rest of its line is to be skipped.
#[derive(Clone, Copy)]
pub enum RowRead {
    Row { end: usize, count: usize },
    Faulty { end: usize, fault: Fault },
    Endless { fault: Fault },
    More,
    Nothing,
}

// What stands behind a cell: something that ends it, a carriage return without a line feed, another byte, or what is not there yet.
#[derive(Clone, Copy)]
enum Stop {
    Ends,
    Lone,
    Other,
    Unsure,
}

// A cell: its own bytes, without the quotes, are from `start` up to `stop`, and `next` is the place behind it; or a fault; or it goes on
// behind the window.
#[derive(Clone, Copy)]
enum CellRead {
    Good {
        start: usize,
        stop: usize,
        next: usize,
    },
    Wrong(Fault),
    Unclear,
}

// How the reading of cells ends: behind the last one; with a fault; or within the cell that begins here.
#[derive(Clone, Copy)]
enum Ending {
    Through(usize),
    Fails(Fault),
    Open(usize),
}

// How many cells were read, and how that ended.
#[derive(Clone, Copy)]
struct Scan {
    count: usize,
    ending: Ending,
}

// The rest of a line: it ends before this place; it goes on behind the window; more bytes are needed; there is nothing.
#[derive(Clone, Copy)]
pub enum Skipped {
    Ended(usize),
    On,
    Wait,
    Over,
}

fn byte_of(k: Separator) -> u8
    ensures { result ≡ spec.byte_of k }
{
    match k {
        Separator::Comma => b',',
        Separator::Semicolon => b';',
        Separator::Tab => 9,
    }
}

fn is_stop(b: u8, sep: u8) -> bool
    ensures { result ≡ spec.is_stop sep b }
{
    (b == sep) | (b == 10)
}

fn is_special(b: u8, sep: u8) -> bool
    ensures { result ≡ spec.is_special sep b }
{
    ((b == sep) | (b == 10)) | ((b == 34) | (b == 13))
}

// Whether this byte stands at a place.
fn is_at(s: &[u8], at: usize, c: u8) -> bool
    ensures { result ≡ spec.is c (drop at s.now) }
{
    if at < s.len() {
        return s[at] == c;
    }
    false
}

// ---- the next byte of some kind

// The place of the next special byte, or the end, byte by byte.
fn plain_from(s: &[u8], at: usize, sep: u8) -> usize
    ensures { result ≡ at + spec.up_to (spec.is_special sep) (drop at s.now) }
{
    for i in at..s.len() {
        if is_special(s[i], sep) {
            return i;
        }
    }
    at.max(s.len())
}

// Whether a special byte stands among sixteen. No test here decides where to go on: the compiler then takes them all at once.
fn has_special(s: &[u8], at: usize, sep: u8) -> bool
    requires { at + 16 ≤ length s.now }
    ensures { result ≡ false → scans.SameEnd (spec.up_to (spec.is_special sep)) s.now at (at + 16) }
{
    let mut any = false;
    for i in 0..16 {
        any = any | is_special(s[at + i], sep);
    }
    any
}

// A place with no special byte before it, by sixteen bytes at a time.
fn skip_plain(s: &[u8], at: usize, sep: u8) -> usize
    requires { at ≤ length s.now }
    ensures { scans.SameEnd (spec.up_to (spec.is_special sep)) s.now at result }
{
    let mut i = at;
    // Kept as a while: `step_by` over whole blocks proves too, but has their end to compute first, which costs where there are few of them.
    while 16 <= s.len() - i {
        if has_special(s, i, sep) {
            return i;
        }
        i += 16;
    }
    i
}

// The place of the next special byte, or the end. Cells are mostly short: eight bytes are looked at one by one first.
fn plain_end(s: &[u8], at: usize, sep: u8) -> usize
    ensures { result ≡ at + spec.up_to (spec.is_special sep) (drop at s.now) }
{
    for i in at..s.len() {
        if is_special(s[i], sep) {
            return i;
        }
        if 7 <= i - at {
            return plain_from(s, skip_plain(s, i + 1, sep), sep);
        }
    }
    at.max(s.len())
}

// Whether this byte stands among thirty-two.
fn has_byte(s: &[u8], at: usize, c: u8) -> bool
    requires { at + 32 ≤ length s.now }
    ensures { result ≡ false → scans.SameEnd (spec.up_to (spec.equal c)) s.now at (at + 32) }
{
    let mut any = false;
    for i in 0..32 {
        any = any | (s[at + i] == c);
    }
    any
}

// A place with no such byte before it, by thirty-two bytes at a time.
fn skip_others(s: &[u8], at: usize, c: u8) -> usize
    requires { at ≤ length s.now }
    ensures { scans.SameEnd (spec.up_to (spec.equal c)) s.now at result }
{
    let mut i = at;
    // Kept as a while, as `skip_plain` is.
    while 32 <= s.len() - i {
        if has_byte(s, i, c) {
            return i;
        }
        i += 32;
    }
    i
}

// The place of the next such byte, or the end.
fn byte_end(s: &[u8], at: usize, c: u8) -> usize
    requires { at ≤ length s.now }
    ensures { result ≡ at + spec.up_to (spec.equal c) (drop at s.now) }
{
    for i in skip_others(s, at, c)..s.len() {
        if s[i] == c {
            return i;
        }
    }
    s.len()
}

// ---- a cell

// The place of the next quote that is not doubled, or the end.
fn quote_end(s: &[u8], at: usize) -> usize
    requires { at ≤ length s.now }
    ensures { result ≡ at + spec.inner_len (drop at s.now) }
{
    let mut i = at;
    // Kept as a loop: it goes on behind each doubled quote, wherever that is found, and a `for` goes on by the same step each time.
    loop {
        let e = byte_end(s, i, 34);
        if e < s.len() {
            if is_at(s, e + 1, 34) {
                i = e + 2;
            } else {
                return e;
            }
        } else {
            return e;
        }
    }
}

// Whether a cell may end at a place.
fn stop_at(s: &[u8], at: usize, sep: u8, over: bool) -> Stop
    ensures { result ≡ spec.stop_of over sep (drop at s.now) }
{
    if at < s.len() {
        let b = s[at];
        if is_stop(b, sep) {
            return Stop::Ends;
        }
        if b == 13 {
            return return_at(s, at + 1, over);
        }
        return Stop::Other;
    }
    if over {
        return Stop::Ends;
    }
    Stop::Unsure
}

// What a carriage return is, by what stands behind it.
fn return_at(s: &[u8], at: usize, over: bool) -> Stop
    ensures { result ≡ spec.return_of over (drop at s.now) }
{
    if at < s.len() {
        if s[at] == 10 {
            return Stop::Ends;
        }
        return Stop::Lone;
    }
    if over {
        return Stop::Lone;
    }
    Stop::Unsure
}

// A cell that ends before a place, if it may; else it is faulty.
fn closed_cell(found: Stop, start: usize, stop: usize, next: usize, other: Fault) -> CellRead
    ensures { result ≡ spec.closed found start stop next other }
{
    match found {
        Stop::Ends => CellRead::Good { start, stop, next },
        Stop::Lone => CellRead::Wrong(Fault::LoneReturn(next)),
        Stop::Other => CellRead::Wrong(other),
        Stop::Unsure => CellRead::Unclear,
    }
}

fn plain_cell(s: &[u8], at: usize, sep: u8, over: bool) -> CellRead
    ensures { result ≡ spec.plain_by over sep at (drop at s.now) (spec.up_to (spec.is_special sep) (drop at s.now)) }
{
    let e = plain_end(s, at, sep);
    closed_cell(stop_at(s, e, sep, over), at, e, e, Fault::QuoteInside(e))
}

fn quoted_cell(s: &[u8], at: usize, sep: u8, over: bool) -> CellRead
    requires { at < length s.now }
    ensures { result ≡ spec.quoted_by over sep at (drop (at + 1) s.now) (spec.inner_len (drop (at + 1) s.now)) }
{
    let from = at + 1;
    let e = quote_end(s, from);
    if e < s.len() {
        let n = e + 1;
        return closed_cell(stop_at(s, n, sep, over), from, e, n, Fault::TextBehind(n));
    }
    if over {
        return CellRead::Wrong(Fault::NeverClosed(at));
    }
    CellRead::Unclear
}

// The cell at a place.
fn cell_at(s: &[u8], at: usize, sep: u8, over: bool) -> CellRead
    ensures { result ≡ spec.cell_of over sep at (drop at s.now) }
{
    if at < s.len() {
        if s[at] == 34 {
            return quoted_cell(s, at, sep, over);
        }
        return plain_cell(s, at, sep, over);
    }
    plain_cell(s, at, sep, over)
}

// ---- the cells of a row

// Stores the two numbers of a cell, if there is room for one of this number.
fn put_cell(table: &mut [usize], count: usize, start: usize, stop: usize)
    requires { length table.old ≡ 512 }
    ensures { scans.Put count start stop table.old table.new }
{
    if count < 256 {
        let at = 2 * count;
        table[at] = start;
        table[at + 1] = stop;
    }
}

// The cells of the row at the front, in the table as far as there is room.
fn read_cells(s: &[u8], sep: u8, over: bool, table: &mut [usize]) -> Scan
    requires { (length table.old ≡ 512) × (length s.now ≤ 65536) }
    ensures { scans.Scanned (spec.line over sep s.now) result (length s.now) table.old table.new }
{
    let mut at = 0;
    let mut count = 0;
    // Kept as a loop: a cell begins where the one before it ends. A `for` that counts the cells would need an answer behind its end.
    loop {
        match cell_at(s, at, sep, over) {
            CellRead::Good { start, stop, next } => {
                put_cell(table, count, start, stop);
                count = count + 1;
                if is_at(s, next, sep) {
                    at = next + 1;
                } else {
                    return Scan {
                        count,
                        ending: Ending::Through(next),
                    };
                }
            }
            CellRead::Wrong(fault) => {
                return Scan {
                    count,
                    ending: Ending::Fails(fault),
                };
            }
            CellRead::Unclear => {
                return Scan {
                    count,
                    ending: Ending::Open(at),
                };
            }
        }
    }
}

// ---- the answer

// Where a fault stands in its row.
fn place_of(fault: Fault) -> usize
    ensures { result ≡ says.place_of fault }
{
    match fault {
        Fault::QuoteInside(p) => p,
        Fault::TextBehind(p) => p,
        Fault::LoneReturn(p) => p,
        Fault::NeverClosed(p) => p,
        Fault::TooLong(p) => p,
        Fault::TooMany => 0,
    }
}

// How long the line end at a place is: none at the end of the file.
fn end_len(s: &[u8], at: usize) -> usize
    ensures { result ≡ says.end_len (drop at s.now) }
{
    if at < s.len() {
        if s[at] == 10 {
            return 1;
        }
        return 2;
    }
    0
}

// The answer for a row that is read through.
fn row_by(s: &[u8], count: usize, next: usize) -> RowRead
    requires { next ≤ 65536 }
    ensures { result ≡ says.row_by s.now count next }
{
    if s.len() == 0 {
        return RowRead::Nothing;
    }
    let end = next + end_len(s, next);
    if count <= 256 {
        return RowRead::Row { end, count };
    }
    RowRead::Faulty {
        end,
        fault: Fault::TooMany,
    }
}

// The answer for a row with a fault: it ends behind the first line feed from the fault on.
fn refuse(s: &[u8], last: bool, cut: bool, fault: Fault) -> RowRead
    requires { says.place_of fault ≤ length s.now }
    ensures { result ≡ says.refused last cut s.now fault }
{
    let e = byte_end(s, place_of(fault), 10);
    if e < s.len() {
        return RowRead::Faulty { end: e + 1, fault };
    }
    if cut {
        return RowRead::Endless { fault };
    }
    if last {
        return RowRead::Faulty {
            end: s.len(),
            fault,
        };
    }
    RowRead::More
}

// The answer by how the reading ended.
fn answer_by(s: &[u8], last: bool, cut: bool, count: usize, ending: Ending) -> RowRead
    requires { (scans.end_place ending ≤ length s.now) × (length s.now ≤ 65536) }
    ensures { result ≡ says.answer_by last cut s.now count ending }
{
    match ending {
        Ending::Through(next) => row_by(s, count, next),
        Ending::Fails(fault) => refuse(s, last, cut, fault),
        Ending::Open(at) => {
            if cut {
                return refuse(s, last, cut, Fault::TooLong(at));
            }
            RowRead::More
        }
    }
}

// The row at the front of a window.
fn answer_in(s: &[u8], sep: u8, last: bool, cut: bool, table: &mut [usize]) -> RowRead
    requires { (length table.old ≡ 512) × (length s.now ≤ 65536) }
    ensures value { result ≡ says.answer_of last cut s.now (spec.line (says.is_over last cut) sep s.now) }
    ensures table_after { table.new ≡ says.listed (spec.line (says.is_over last cut) sep s.now) table.old }
{
    let f = read_cells(s, sep, last & !cut, table);
    let count = f.count;
    let ending = f.ending;
    answer_by(s, last, cut, count, ending)
}

fn row_in(s: &[u8], sep: u8, last: bool, table: &mut [usize]) -> RowRead
    requires { length table.old ≡ 512 }
    ensures value { result ≡ says.answer sep last s.now }
    ensures table_after { table.new ≡ says.table_after sep last s.now table.old }
{
    if 65536 < s.len() {
        return answer_in(&s[..65536], sep, last, true, table);
    }
    answer_in(s, sep, last, false, table)
}

// The next row, which starts at the front of a block: its end and its cells, two numbers each in the table, or its fault. `last` says that
// the file ends behind the block.
pub fn next_row(s: &[u8], separator: Separator, last: bool, table: &mut [usize; 512]) -> RowRead
    ensures value { result ≡ says.answer (spec.byte_of separator) last s.now }
    ensures table_after { table.new ≡ says.table_after (spec.byte_of separator) last s.now table.old }
{
    row_in(s, byte_of(separator), last, table)
}

// ---- the text of a cell

// How many bytes at a place are one byte of a cell's text: two at a doubled quote.
fn text_step(raw: &[u8], at: usize) -> usize
    requires { at < length raw.now }
    ensures { result ≡ scans.text_step (drop at raw.now) }
{
    if raw[at] == 34 {
        if is_at(raw, at + 1, 34) {
            return 2;
        }
    }
    1
}

// Copies the text into a buffer that has room.
fn copy_in(raw: &[u8], out: &mut [u8]) -> usize
    requires { length raw.now ≤ length out.old }
    ensures value { result ≡ length (texts.undoubled raw.now) }
    ensures out_after { out.new ≡ sets out.old 0 (texts.undoubled raw.now) }
{
    let mut i = 0;
    let mut n = 0;
    // Kept as a while: the two places move apart at a doubled quote. A `for` over the bytes would have to remember a first quote.
    while i < raw.len() {
        out[n] = raw[i];
        let k = text_step(raw, i);
        n = n + 1;
        i = i + k;
    }
    n
}

// Copies the text of a cell, of which these are the own bytes: doubled quotes become one. There is no room exactly if the own bytes are
// more than the buffer has; then nothing is stored.
pub fn copy_text(raw: &[u8], out: &mut [u8]) -> Option<usize>
    ensures value { result ≡ texts.copied raw.now (length out.old) }
    ensures out_after { out.new ≡ texts.copied_into raw.now out.old }
{
    if raw.len() <= out.len() {
        return Some(copy_in(raw, out));
    }
    None
}

// ---- lines and characters

// Skips the rest of a line, at most so many bytes as a row may have.
pub fn skip_line(s: &[u8], last: bool) -> Skipped
    ensures { result ≡ says.skipped last s.now }
{
    if 65536 <= s.len() {
        let e = byte_end(&s[..65536], 0, 10);
        if e < 65536 {
            return Skipped::Ended(e + 1);
        }
        return Skipped::On;
    }
    let e = byte_end(s, 0, 10);
    if e < s.len() {
        return Skipped::Ended(e + 1);
    }
    if last {
        if s.len() == 0 {
            return Skipped::Over;
        }
        return Skipped::Ended(s.len());
    }
    Skipped::Wait
}

fn one_if(b: bool) -> u8
    ensures { result ≡ bytes.one_if b }
{
    if b {
        return 1;
    }
    0
}

// How many line feeds stand among sixty-four bytes. No test here decides where to go on: the compiler then takes many bytes at once.
fn feeds_in(s: &[u8], at: usize) -> usize
    requires { at + 64 ≤ length s.now }
    ensures { (result + bytes.feeds (drop (at + 64) s.now) ≡ bytes.feeds (drop at s.now)) × (result ≤ 64) }
{
    let mut n: u8 = 0;
    for i in 0..64 {
        n = n + one_if(s[at + i] == 10);
    }
    n as usize
}

// How many there are from a place on, byte by byte.
fn feeds_from(s: &[u8], at: usize) -> usize
    requires { at ≤ length s.now }
    ensures { result ≡ bytes.feeds (drop at s.now) }
{
    s[at..].iter().filter(|b| **b == 10).count()
}

// How many line feeds there are, by sixty-four bytes at a time.
pub fn count_feeds(s: &[u8]) -> usize
    ensures { result ≡ bytes.feeds s.now }
{
    let end = s.len() - s.len() % 64;
    let mut n = 0;
    for i in (0..end).step_by(64) {
        n = n + feeds_in(s, i);
    }
    n + feeds_from(s, end)
}

// How many bytes the character at a place has; 0 where there is none.
fn char_step(s: &[u8], at: usize) -> usize
    ensures { result ≡ len_d (decode_at s.now at) }
{
    match chars::decode_at(s, at) {
        Decoded::Char { code: _, len } => len,
        Decoded::Bad => 0,
        Decoded::End => 0,
    }
}

// Whether thirty-two bytes are ASCII.
fn are_ascii(s: &[u8], at: usize) -> bool
    requires { at + 32 ≤ length s.now }
    ensures { result ≡ true → scans.SameEnd bytes.utf8_end s.now at (at + 32) }
{
    let mut all = true;
    for i in 0..32 {
        all = all & (s[at + i] < 0x80);
    }
    all
}

// A place with ASCII alone before it, by thirty-two bytes at a time.
fn skip_ascii(s: &[u8], at: usize) -> usize
    requires { at ≤ length s.now }
    ensures { scans.SameEnd bytes.utf8_end s.now at result }
{
    let mut i = at;
    // Kept as a while, as `skip_plain` is.
    while 32 <= s.len() - i {
        if are_ascii(s, i) {
            i += 32;
        } else {
            return i;
        }
    }
    i
}

// The place of the first ill-formed sequence of bytes, or the length.
pub fn utf8_end(s: &[u8]) -> usize
    ensures { result ≡ bytes.utf8_end s.now }
{
    let mut i = 0;
    // Kept as a loop: it goes on by blocks and by characters of one to four bytes, and a `for` by the same step each time.
    loop {
        i = skip_ascii(s, i);
        let k = char_step(s, i);
        if k == 0 {
            return i;
        }
        i = i + k;
    }
}
