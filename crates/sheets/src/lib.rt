// An import file: its header, its rows, and what is said of them, step by step, however the file comes in blocks. No input or output here:
// a step takes a block and fills a lent buffer.
#![tactic(auto)]

ghost use Rattle.std.specs.Prelude.{◌≡◌, true, false, ◌+◌, ◌≤◌, ◌<◌, length, take};
ghost use Rattle.csv_rows.specs.Texts.{undoubled};
ghost use Rattle.csv_rows.specs.Reader as reader_specs;
ghost use Rattle.csv_rows.specs.Answers as csv_specs;
ghost use Rattle.verdicts.specs.Dates.{date_verdict};
ghost use Rattle.findings.specs.Words.{capped};
ghost use Rattle.findings.specs.Lines as lines_specs;
ghost use Rattle.headers.specs.Tables as tables;
ghost use Rattle.sheets.specs.Tallies as tallies;
ghost use Rattle.sheets.specs.Rows as rows_specs;
ghost use Rattle.sheets.specs.Steps as steps_specs;
ghost use Rattle.sheets.specs.Reports as spec;
ghost use Rattle.sheets.specs.declared.Phase.TheVariants as Phase;
ghost use Rattle.sheets.specs.Inside as inside;
ghost use Rattle.sheets.specs.Inside.{Going, Told, Short};

use csv_rows::{Fault, RowRead, Separator, Skipped};
use findings::Column;
use headers::{Columns, Header, RowFault, Unusable};
use refusals::Refusal;
use verdicts::Verdict;

// What is read next: the header, a row, or the rest of a line that is skipped.
#[derive(Clone, Copy)]
pub enum Phase {
    Start,
    Rows,
    Skipping,
}

// What was counted: rows, bad ones too; dates that are strict, read otherwise, refused; bad rows.
#[derive(Clone, Copy)]
pub struct Tally {
    pub rows: u32,
    pub strict: u32,
    pub otherwise: u32,
    pub refused: u32,
    pub bad: u32,
}

// What is kept between steps. The line is that on which the next row starts, from 1.
#[derive(Clone, Copy)]
pub struct State {
    pub phase: Phase,
    pub separator: Separator,
    pub columns: Columns,
    pub cells: usize,
    pub line: u32,
    pub tally: Tally,
}

// What a step did: it waits for more of the file; there is no room; it took so many bytes of the block and put so many into the output; the
// report is over with what it put.
#[derive(Clone, Copy)]
pub enum Taken {
    More,
    NoRoom,
    Took {
        bytes: usize,
        put: usize,
        state: State,
    },
    Over {
        put: usize,
    },
}

// How much of the output was put, and what was counted.
#[derive(Clone, Copy)]
struct Said {
    put: usize,
    tally: Tally,
}

// ---- counts

// A number of 32 bits and so many more, or the largest.
fn plus(a: u32, n: usize) -> u32
    ensures { result ≡ capped (a + n) }
{
    if n <= (4294967295 - a) as usize {
        return a + n as u32;
    }
    4294967295
}

fn one_strict(t: Tally) -> Tally
    ensures { result ≡ tallies.one_strict t }
{
    Tally {
        rows: t.rows,
        strict: plus(t.strict, 1),
        otherwise: t.otherwise,
        refused: t.refused,
        bad: t.bad,
    }
}

fn one_otherwise(t: Tally) -> Tally
    ensures { result ≡ tallies.one_otherwise t }
{
    Tally {
        rows: t.rows,
        strict: t.strict,
        otherwise: plus(t.otherwise, 1),
        refused: t.refused,
        bad: t.bad,
    }
}

fn one_refused(t: Tally) -> Tally
    ensures { result ≡ tallies.one_refused t }
{
    Tally {
        rows: t.rows,
        strict: t.strict,
        otherwise: t.otherwise,
        refused: plus(t.refused, 1),
        bad: t.bad,
    }
}

fn one_row(t: Tally) -> Tally
    ensures { result ≡ tallies.one_row t }
{
    Tally {
        rows: plus(t.rows, 1),
        strict: t.strict,
        otherwise: t.otherwise,
        refused: t.refused,
        bad: t.bad,
    }
}

fn one_bad(t: Tally) -> Tally
    ensures { result ≡ tallies.one_bad t }
{
    Tally {
        rows: plus(t.rows, 1),
        strict: t.strict,
        otherwise: t.otherwise,
        refused: t.refused,
        bad: plus(t.bad, 1),
    }
}

// Counts a date.
#[tactic(auto, unfolding(crate::specs::Tallies::one_date))]
fn one_date(t: Tally, v: Verdict) -> Tally
    ensures { result ≡ tallies.one_date t v }
{
    match v {
        Verdict::NoDate => t,
        Verdict::Full => one_strict(t),
        Verdict::NotStrict(_) => one_otherwise(t),
        Verdict::ShortYear(_) => one_otherwise(t),
        Verdict::Unread => one_refused(t),
        Verdict::Refused(_) => one_refused(t),
    }
}

// ---- cells

// The cell of a column of a row of so many cells; none where there is no such column.
fn cell_of<'a, 'b>(s: &'a [u8], table: &'b [usize; 512], count: usize, k: usize) -> &'a [u8]
    ensures { result.now ≡ rows_specs.own_at (tables.cells_from s.now table.now 0 count) k }
{
    if k < count {
        return headers::cell(s, table, k);
    }
    &s[0..0]
}

// Whether a quote is in a cell; without one its own bytes are its text.
fn has_quote(s: &[u8]) -> bool
    ensures { result ≡ false → undoubled s.now ≡ s.now }
{
    for b in s {
        if *b == 34 {
            return true;
        }
    }
    false
}

// The text of a cell at the front of a buffer that has room for it, and its length.
fn copy(own: &[u8], text: &mut [u8; 4096]) -> usize
    requires { length own.now ≤ 4096 }
    ensures { (take result text.new ≡ undoubled own.now) × (result ≤ length text.new) }
{
    csv_rows::copy_text(own, text).unwrap_or(0)
}

// The column of the key.
fn key_column(c: Columns) -> usize
    ensures { result ≡ rows_specs.key_column c }
{
    if c.key < 256 {
        return c.key;
    }
    c.id
}

// Whether the cell of a column is too long.
fn is_long(s: &[u8], table: &[usize; 512], count: usize, k: usize) -> bool
    ensures { result ≡ rows_specs.is_long (tables.cells_from s.now table.now 0 count) k }
{
    let own = cell_of(s, table, count, k);
    4096 < own.len()
}

fn long_six(s: &[u8], table: &[usize; 512], count: usize, c: Columns) -> bool
    ensures { result ≡ rows_specs.long_six c (tables.cells_from s.now table.now 0 count) }
{
    if is_long(s, table, count, c.year) {
        return true;
    }
    if is_long(s, table, count, c.month) {
        return true;
    }
    if is_long(s, table, count, c.day) {
        return true;
    }
    if is_long(s, table, count, c.endyear) {
        return true;
    }
    if is_long(s, table, count, c.endmonth) {
        return true;
    }
    is_long(s, table, count, c.endday)
}

fn any_long(s: &[u8], table: &[usize; 512], count: usize, c: Columns) -> bool
    ensures { result ≡ rows_specs.any_long c (tables.cells_from s.now table.now 0 count) }
{
    if is_long(s, table, count, key_column(c)) {
        return true;
    }
    if is_long(s, table, count, c.date) {
        return true;
    }
    if is_long(s, table, count, c.origdate) {
        return true;
    }
    if is_long(s, table, count, c.eventdate) {
        return true;
    }
    if is_long(s, table, count, c.urldate) {
        return true;
    }
    long_six(s, table, count, c)
}

// Whether a row can be used.
fn check_row(
    s: &[u8],
    table: &[usize; 512],
    end: usize,
    count: usize,
    c: Columns,
    width: usize,
) -> Result<(), RowFault>
    requires { end ≤ length s.now }
    ensures { result ≡ rows_specs.checked_row c width s.now end count (tables.cells_from s.now table.now 0 count) }
{
    if count == width {
        let good = csv_rows::utf8_end(&s[..end]);
        if good < end {
            return Err(RowFault::BadUtf8(good));
        }
        if any_long(s, table, count, c) {
            return Err(RowFault::LongCell);
        }
        return Ok(());
    }
    Err(RowFault::Cells(count, width))
}

// ---- lines

// The place behind what a writer wrote.
#[tactic(auto, unfolding(crate::specs::Inside::advanced_by))]
fn advanced(p: usize, w: Result<usize, Refusal>) -> usize
    requires { inside.InRange p w }
    ensures { result ≡ inside.advanced_by p w }
{
    match w {
        Ok(n) => p + n,
        Err(_) => p,
    }
}

// The line of a verdict on a date.
fn put_date(
    line: u32,
    key: &[u8],
    column: Column,
    cell: &[u8],
    v: Verdict,
    windowed: bool,
    out: &mut [u8],
    p: usize,
) -> usize
    requires { p ≤ length out.old }
    ensures { Going (lines_specs.date_line line key.now column cell.now v windowed) out.old p out.new result }
{
    let w = findings::write_date_finding(line, key, column, cell, v, windowed, &mut out[p..]);
    advanced(p, w)
}

// That of a bad row.
fn put_bad(line: u32, fault: RowFault, out: &mut [u8], p: usize) -> usize
    requires { p ≤ length out.old }
    ensures { Going (lines_specs.bad_row_line line fault) out.old p out.new result }
{
    let w = findings::write_bad_row(line, fault, &mut out[p..]);
    advanced(p, w)
}

// The summary.
fn put_summary(t: Tally, out: &mut [u8], p: usize) -> usize
    requires { p ≤ length out.old }
    ensures { Going (steps_specs.last_lines t) out.old p out.new result }
{
    let w = findings::write_summary(
        t.rows,
        t.strict,
        t.otherwise,
        t.refused,
        t.bad,
        &mut out[p..],
    );
    advanced(p, w)
}

// Why the header can not be used.
fn put_unread(why: Unusable, out: &mut [u8], p: usize) -> usize
    requires { p ≤ length out.old }
    ensures { Going (lines_specs.unread_line why) out.old p out.new result }
{
    let w = findings::write_unread(why, &mut out[p..]);
    advanced(p, w)
}

// ---- a date in one cell

// Of a date that is not strict it is asked whether its year was windowed.
#[tactic(auto, unfolding(crate::specs::Rows::windowed_if))]
fn windowed_if(v: Verdict, cell: &[u8]) -> bool
    ensures { result ≡ rows_specs.windowed_if v cell.now }
{
    match v {
        Verdict::NoDate => false,
        Verdict::Full => false,
        Verdict::NotStrict(_) => verdicts::is_windowed(cell),
        Verdict::ShortYear(_) => false,
        Verdict::Unread => false,
        Verdict::Refused(_) => false,
    }
}

// The line of a verdict, if it says anything.
fn say_date(
    line: u32,
    key: &[u8],
    column: Column,
    cell: &[u8],
    v: Verdict,
    out: &mut [u8],
    p: usize,
) -> usize
    requires { p ≤ length out.old }
    ensures { Going (lines_specs.date_line line key.now column cell.now v (rows_specs.windowed_if v cell.now)) out.old p out.new result }
{
    if findings::is_said(v) {
        let windowed = windowed_if(v, cell);
        return put_date(line, key, column, cell, v, windowed, out, p);
    }
    p
}

// A date by its text: its line, and its count.
fn date_text(line: u32, key: &[u8], column: Column, cell: &[u8], out: &mut [u8], s: Said) -> Said
    requires { s.put ≤ length out.old }
    ensures { Told (rows_specs.date_said line key.now column cell.now) (inside.counting (date_verdict cell.now)) out.old s out.new result }
{
    let v = verdicts::date_verdict(cell);
    let put = say_date(line, key, column, cell, v, out, s.put);
    let t = s.tally;
    Said {
        put,
        tally: one_date(t, v),
    }
}

// The same by its own bytes, with doubled quotes in them.
fn date_copied(line: u32, key: &[u8], column: Column, own: &[u8], out: &mut [u8], s: Said) -> Said
    requires { (s.put ≤ length out.old) × (length own.now ≤ 4096) }
    ensures { Told (rows_specs.date_said line key.now column (undoubled own.now)) (inside.counting (date_verdict (undoubled own.now))) out.old s out.new result }
{
    let mut text = [0u8; 4096];
    let n = copy(own, &mut text);
    date_text(line, key, column, &text[..n], out, s)
}

// The same by its own bytes: without a quote they are lent as they stand.
fn date_own(line: u32, key: &[u8], column: Column, own: &[u8], out: &mut [u8], s: Said) -> Said
    requires { (s.put ≤ length out.old) × (length own.now ≤ 4096) }
    ensures { Told (rows_specs.date_said line key.now column (undoubled own.now)) (inside.counting (date_verdict (undoubled own.now))) out.old s out.new result }
{
    if has_quote(own) {
        return date_copied(line, key, column, own, out, s);
    }
    date_text(line, key, column, own, out, s)
}

// The four dates of a row of so many cells.
fn dates(
    line: u32,
    key: &[u8],
    block: &[u8],
    table: &[usize; 512],
    count: usize,
    c: Columns,
    out: &mut [u8],
    s: Said,
) -> Said
    requires { (s.put ≤ length out.old) × Short c (tables.cells_from block.now table.now 0 count) }
    ensures { Told (rows_specs.dates_said line key.now c (tables.cells_from block.now table.now 0 count)) (rows_specs.dates_counted c (tables.cells_from block.now table.now 0 count)) out.old s out.new result }
{
    let d1 = date_own(
        line,
        key,
        Column::Date,
        cell_of(block, table, count, c.date),
        out,
        s,
    );
    let d2 = date_own(
        line,
        key,
        Column::Origdate,
        cell_of(block, table, count, c.origdate),
        out,
        d1,
    );
    let d3 = date_own(
        line,
        key,
        Column::Eventdate,
        cell_of(block, table, count, c.eventdate),
        out,
        d2,
    );
    date_own(
        line,
        key,
        Column::Urldate,
        cell_of(block, table, count, c.urldate),
        out,
        d3,
    )
}

// ---- a date in six cells

// The line of a verdict on six cells.
fn put_six(
    line: u32,
    key: &[u8],
    year: &[u8],
    month: &[u8],
    day: &[u8],
    endyear: &[u8],
    endmonth: &[u8],
    endday: &[u8],
    v: Verdict,
    out: &mut [u8],
    p: usize,
) -> usize
    requires { p ≤ length out.old }
    ensures { Going (lines_specs.six_line line key.now year.now month.now day.now endyear.now endmonth.now endday.now v) out.old p out.new result }
{
    let w = findings::write_six_finding(
        line,
        key,
        year,
        month,
        day,
        endyear,
        endmonth,
        endday,
        v,
        &mut out[p..],
    );
    advanced(p, w)
}

// The same, if the verdict says anything.
fn say_six(
    line: u32,
    key: &[u8],
    year: &[u8],
    month: &[u8],
    day: &[u8],
    endyear: &[u8],
    endmonth: &[u8],
    endday: &[u8],
    v: Verdict,
    out: &mut [u8],
    p: usize,
) -> usize
    requires { p ≤ length out.old }
    ensures { Going (lines_specs.six_line line key.now year.now month.now day.now endyear.now endmonth.now endday.now v) out.old p out.new result }
{
    if findings::is_said(v) {
        return put_six(
            line, key, year, month, day, endyear, endmonth, endday, v, out, p,
        );
    }
    p
}

// A date by the texts of six cells: its line, and its count.
fn six_texts(
    line: u32,
    key: &[u8],
    year: &[u8],
    month: &[u8],
    day: &[u8],
    endyear: &[u8],
    endmonth: &[u8],
    endday: &[u8],
    out: &mut [u8],
    s: Said,
) -> Said
    requires { s.put ≤ length out.old }
    ensures { inside.SixTold line key.now year.now month.now day.now endyear.now endmonth.now endday.now out.old s out.new result }
{
    let v = verdicts::six_verdict(year, month, day, endyear, endmonth, endday);
    let put = say_six(
        line, key, year, month, day, endyear, endmonth, endday, v, out, s.put,
    );
    let t = s.tally;
    Said {
        put,
        tally: one_date(t, v),
    }
}

// The same by their own bytes, with doubled quotes in them.
fn six_copied(
    line: u32,
    key: &[u8],
    year: &[u8],
    month: &[u8],
    day: &[u8],
    endyear: &[u8],
    endmonth: &[u8],
    endday: &[u8],
    out: &mut [u8],
    s: Said,
) -> Said
    requires { (s.put ≤ length out.old) × (length year.now ≤ 4096) × (length month.now ≤ 4096) × (length day.now ≤ 4096) × (length endyear.now ≤ 4096) × (length endmonth.now ≤ 4096) × (length endday.now ≤ 4096) }
    ensures { inside.SixTold line key.now (undoubled year.now) (undoubled month.now) (undoubled day.now) (undoubled endyear.now) (undoubled endmonth.now) (undoubled endday.now) out.old s out.new result }
{
    let mut t1 = [0u8; 4096];
    let mut t2 = [0u8; 4096];
    let mut t3 = [0u8; 4096];
    let mut t4 = [0u8; 4096];
    let mut t5 = [0u8; 4096];
    let mut t6 = [0u8; 4096];
    let n1 = copy(year, &mut t1);
    let n2 = copy(month, &mut t2);
    let n3 = copy(day, &mut t3);
    let n4 = copy(endyear, &mut t4);
    let n5 = copy(endmonth, &mut t5);
    let n6 = copy(endday, &mut t6);
    six_texts(
        line,
        key,
        &t1[..n1],
        &t2[..n2],
        &t3[..n3],
        &t4[..n4],
        &t5[..n5],
        &t6[..n6],
        out,
        s,
    )
}

// Whether a quote is in one of six cells.
fn any_quote(
    year: &[u8],
    month: &[u8],
    day: &[u8],
    endyear: &[u8],
    endmonth: &[u8],
    endday: &[u8],
) -> bool
    ensures { result ≡ false → inside.NoQuotes year.now month.now day.now endyear.now endmonth.now endday.now }
{
    if has_quote(year) {
        return true;
    }
    if has_quote(month) {
        return true;
    }
    if has_quote(day) {
        return true;
    }
    if has_quote(endyear) {
        return true;
    }
    if has_quote(endmonth) {
        return true;
    }
    has_quote(endday)
}

// The same by their own bytes: without a quote they are lent as they stand.
fn six_own(
    line: u32,
    key: &[u8],
    year: &[u8],
    month: &[u8],
    day: &[u8],
    endyear: &[u8],
    endmonth: &[u8],
    endday: &[u8],
    out: &mut [u8],
    s: Said,
) -> Said
    requires { (s.put ≤ length out.old) × (length year.now ≤ 4096) × (length month.now ≤ 4096) × (length day.now ≤ 4096) × (length endyear.now ≤ 4096) × (length endmonth.now ≤ 4096) × (length endday.now ≤ 4096) }
    ensures { inside.SixTold line key.now (undoubled year.now) (undoubled month.now) (undoubled day.now) (undoubled endyear.now) (undoubled endmonth.now) (undoubled endday.now) out.old s out.new result }
{
    if any_quote(year, month, day, endyear, endmonth, endday) {
        return six_copied(
            line, key, year, month, day, endyear, endmonth, endday, out, s,
        );
    }
    six_texts(
        line, key, year, month, day, endyear, endmonth, endday, out, s,
    )
}

// The six cells of a row of so many.
fn six_cells(
    line: u32,
    key: &[u8],
    block: &[u8],
    table: &[usize; 512],
    count: usize,
    c: Columns,
    out: &mut [u8],
    s: Said,
) -> Said
    requires { (s.put ≤ length out.old) × Short c (tables.cells_from block.now table.now 0 count) }
    ensures { Told (rows_specs.six_said line key.now c (tables.cells_from block.now table.now 0 count)) (inside.counting (rows_specs.six_of c (tables.cells_from block.now table.now 0 count))) out.old s out.new result }
{
    let year = cell_of(block, table, count, c.year);
    let month = cell_of(block, table, count, c.month);
    let day = cell_of(block, table, count, c.day);
    let endyear = cell_of(block, table, count, c.endyear);
    let endmonth = cell_of(block, table, count, c.endmonth);
    let endday = cell_of(block, table, count, c.endday);
    six_own(
        line, key, year, month, day, endyear, endmonth, endday, out, s,
    )
}

// ---- a row

// The lines of a row of so many cells, by its key.
fn lines_by(
    line: u32,
    key: &[u8],
    block: &[u8],
    table: &[usize; 512],
    count: usize,
    c: Columns,
    out: &mut [u8],
    s: Said,
) -> Said
    requires { (s.put ≤ length out.old) × Short c (tables.cells_from block.now table.now 0 count) }
    ensures { Told (rows_specs.lines_by line key.now c (tables.cells_from block.now table.now 0 count)) (rows_specs.row_counted c (tables.cells_from block.now table.now 0 count)) out.old s out.new result }
{
    let d = dates(line, key, block, table, count, c, out, s);
    six_cells(line, key, block, table, count, c, out, d)
}

// The same by the own bytes of its key, with doubled quotes in them.
fn key_copied(
    line: u32,
    own: &[u8],
    block: &[u8],
    table: &[usize; 512],
    count: usize,
    c: Columns,
    out: &mut [u8],
    s: Said,
) -> Said
    requires { (s.put ≤ length out.old) × (length own.now ≤ 4096) × Short c (tables.cells_from block.now table.now 0 count) }
    ensures { Told (rows_specs.lines_by line (undoubled own.now) c (tables.cells_from block.now table.now 0 count)) (rows_specs.row_counted c (tables.cells_from block.now table.now 0 count)) out.old s out.new result }
{
    let mut text = [0u8; 4096];
    let n = copy(own, &mut text);
    lines_by(line, &text[..n], block, table, count, c, out, s)
}

// The lines of a row of so many cells.
fn row_lines(
    line: u32,
    block: &[u8],
    table: &[usize; 512],
    count: usize,
    c: Columns,
    out: &mut [u8],
    s: Said,
) -> Said
    requires { (s.put ≤ length out.old) × Short c (tables.cells_from block.now table.now 0 count) }
    ensures { Told (rows_specs.row_said line c (tables.cells_from block.now table.now 0 count)) (rows_specs.row_counted c (tables.cells_from block.now table.now 0 count)) out.old s out.new result }
{
    let own = cell_of(block, table, count, key_column(c));
    if has_quote(own) {
        return key_copied(line, own, block, table, count, c, out, s);
    }
    lines_by(line, own, block, table, count, c, out, s)
}

// The line of a bad row, and its count.
fn bad_row(line: u32, fault: RowFault, out: &mut [u8], t: Tally) -> Said
    ensures { Told (lines_specs.bad_row_line line fault) tallies.one_bad out.old (inside.at_start t) out.new result }
{
    let put = put_bad(line, fault, out, 0);
    Said {
        put,
        tally: one_bad(t),
    }
}

// What is said of a row, and what it counts.
fn checked_lines(
    line: u32,
    block: &[u8],
    table: &[usize; 512],
    end: usize,
    count: usize,
    c: Columns,
    width: usize,
    out: &mut [u8],
    t: Tally,
) -> Said
    requires { end ≤ length block.now }
    ensures { inside.RowTold line c width block.now end count (tables.cells_from block.now table.now 0 count) out.old t out.new result }
{
    match check_row(block, table, end, count, c, width) {
        Ok(()) => {
            let s = Said {
                put: 0,
                tally: one_row(t),
            };
            row_lines(line, block, table, count, c, out, s)
        }
        Err(f) => bad_row(line, f, out, t),
    }
}

// ---- steps

// The state behind so many bytes of a block, with what was counted.
fn behind(st: State, block: &[u8], n: usize, phase: Phase, t: Tally) -> State
    requires { n ≤ length block.now }
    ensures { result ≡ steps_specs.behind st block.now n phase t }
{
    let feeds = csv_rows::count_feeds(&block[..n]);
    let separator = st.separator;
    let columns = st.columns;
    State {
        phase,
        separator,
        columns,
        cells: st.cells,
        line: plus(st.line, feeds),
        tally: t,
    }
}

// The end of the report.
fn last_step(t: Tally, out: &mut [u8]) -> Taken
    requires { 262144 ≤ length out.old }
    ensures { inside.Stepped (inside.over_with (steps_specs.last_lines t)) out.old result out.new }
{
    Taken::Over {
        put: put_summary(t, out, 0),
    }
}

// A row that can not be read, of which so many bytes are taken.
fn bad_step(block: &[u8], n: usize, fault: Fault, phase: Phase, st: State, out: &mut [u8]) -> Taken
    requires { (n ≤ length block.now) × (262144 ≤ length out.old) }
    ensures { inside.Stepped (inside.bad_took st block.now n fault phase) out.old result out.new }
{
    let t = st.tally;
    let s = bad_row(st.line, RowFault::Broken(fault), out, t);
    let put = s.put;
    let tally = s.tally;
    Taken::Took {
        bytes: n,
        put,
        state: behind(st, block, n, phase, tally),
    }
}

// A row that is read.
fn good_step(
    block: &[u8],
    table: &[usize; 512],
    end: usize,
    count: usize,
    st: State,
    out: &mut [u8],
) -> Taken
    requires { (end ≤ length block.now) × (262144 ≤ length out.old) }
    ensures { inside.Stepped (inside.row_took st block.now end count (tables.cells_from block.now table.now 0 count)) out.old result out.new }
{
    let c = st.columns;
    let t = st.tally;
    let s = checked_lines(st.line, block, table, end, count, c, st.cells, out, t);
    let put = s.put;
    let tally = s.tally;
    Taken::Took {
        bytes: end,
        put,
        state: behind(st, block, end, Phase::Rows, tally),
    }
}

// A table has 512 numbers.
fn sized(table: &mut [usize])
    requires { length table.old ≡ 512 }
    ensures { (length table.old ≡ 512) × (table.new ≡ table.old) }
{}

// A step over rows.
fn row_step(block: &[u8], last: bool, st: State, table: &mut [usize; 512], out: &mut [u8]) -> Taken
    requires { 262144 ≤ length out.old }
    ensures stepped { inside.Stepped (steps_specs.step_in Phase.Rows last block.now st) out.old result out.new }
    ensures table_after { table.new ≡ csv_specs.table_after (reader_specs.byte_of st.separator) last block.now table.old }
{
    sized(table);
    let separator = st.separator;
    match csv_rows::next_row(block, separator, last, table) {
        RowRead::Row { end, count } => good_step(block, table, end, count, st, out),
        RowRead::Faulty { end, fault } => bad_step(block, end, fault, Phase::Rows, st, out),
        RowRead::Endless { fault } => bad_step(block, 65536, fault, Phase::Skipping, st, out),
        RowRead::More => Taken::More,
        RowRead::Nothing => {
            let t = st.tally;
            last_step(t, out)
        }
    }
}

// The header.
fn start_step(block: &[u8], last: bool, st: State, out: &mut [u8]) -> Taken
    requires { 262144 ≤ length out.old }
    ensures { inside.Stepped (steps_specs.step_in Phase.Start last block.now st) out.old result out.new }
{
    match headers::read_header(block, last) {
        Header::Wait => Taken::More,
        Header::Without(why) => Taken::Over {
            put: put_unread(why, out, 0),
        },
        Header::With {
            bytes,
            separator,
            columns,
            cells,
        } => {
            let tally = st.tally;
            let begun = State {
                phase: Phase::Rows,
                separator,
                columns,
                cells,
                line: st.line,
                tally,
            };
            Taken::Took {
                bytes,
                put: 0,
                state: behind(begun, block, bytes, Phase::Rows, tally),
            }
        }
    }
}

// A piece of a line that is skipped.
fn skip_step(block: &[u8], last: bool, st: State, out: &mut [u8]) -> Taken
    requires { 262144 ≤ length out.old }
    ensures { inside.Stepped (steps_specs.step_in Phase.Skipping last block.now st) out.old result out.new }
{
    let t = st.tally;
    match csv_rows::skip_line(block, last) {
        Skipped::Ended(n) => Taken::Took {
            bytes: n,
            put: 0,
            state: behind(st, block, n, Phase::Rows, t),
        },
        Skipped::On => Taken::Took {
            bytes: 65536,
            put: 0,
            state: behind(st, block, 65536, Phase::Skipping, t),
        },
        Skipped::Wait => Taken::More,
        Skipped::Over => last_step(t, out),
    }
}

// The state at the start of a file.
pub fn fresh() -> State
    ensures { result ≡ steps_specs.fresh }
{
    let tally = Tally {
        rows: 0,
        strict: 0,
        otherwise: 0,
        refused: 0,
        bad: 0,
    };
    let columns = Columns {
        date: 256,
        origdate: 256,
        eventdate: 256,
        urldate: 256,
        year: 256,
        month: 256,
        day: 256,
        endyear: 256,
        endmonth: 256,
        endday: 256,
        key: 256,
        id: 256,
    };
    State {
        phase: Phase::Start,
        separator: Separator::Comma,
        columns,
        cells: 0,
        line: 1,
        tally,
    }
}

// One step over what was read of a file and not taken yet; `last` says that the file ends behind it. The table is for the places of cells, and
// need not be cleared.
pub fn step(
    block: &[u8],
    last: bool,
    state: State,
    table: &mut [usize; 512],
    out: &mut [u8],
) -> Taken
    ensures value { result ≡ spec.answer_with (length out.old) (steps_specs.next last block.now state) }
    ensures out_after { out.new ≡ spec.out_after out.old (steps_specs.next last block.now state) }
    ensures table_after { table.new ≡ spec.table_with (length out.old) state last block.now table.old }
{
    if out.len() < 262144 {
        return Taken::NoRoom;
    }
    let phase = state.phase;
    match phase {
        Phase::Start => start_step(block, last, state, out),
        Phase::Rows => row_step(block, last, state, table, out),
        Phase::Skipping => skip_step(block, last, state, out),
    }
}
