// The header of a sheet: the columns by their names, and the separator.
#![tactic(auto)]

ghost use Rattle.std.specs.Prelude.{◌≡◌, ◌+◌, ◌-◌, ◌*◌, ◌≤◌, ◌<◌, length, drop};
ghost use Rattle.headers.specs.Names as names;
ghost use Rattle.headers.specs.Columns as columns;
ghost use Rattle.headers.specs.Tables as tables;
ghost use Rattle.headers.specs.Header as spec;

use csv_rows::{Fault, RowRead, Separator};

// The columns that are looked at: the number of each, or 256 if there is none.
#[derive(Clone, Copy)]
pub struct Columns {
    pub date: usize,
    pub origdate: usize,
    pub eventdate: usize,
    pub urldate: usize,
    pub year: usize,
    pub month: usize,
    pub day: usize,
    pub endyear: usize,
    pub endmonth: usize,
    pub endday: usize,
    pub key: usize,
    pub id: usize,
}

// Why a row can not be used.
#[derive(Clone, Copy)]
pub enum RowFault {
    // It is none.
    Broken(Fault),
    // It has so many cells, and the header so many.
    Cells(usize, usize),
    // It is not UTF-8 from this byte on.
    BadUtf8(usize),
    // A cell of it is too long.
    LongCell,
}

// Why a header can not be used.
#[derive(Clone, Copy)]
pub enum Unusable {
    // There is none.
    Empty,
    // It names no column that is looked at.
    NoColumn,
    // It names one twice.
    Twice,
    // The file's lines end in carriage returns.
    Returns,
    // It is no row.
    NoRow(RowFault),
}

// The header: not told yet; none that can be used; or so many bytes, with the separator, the columns and the number of cells.
#[derive(Clone, Copy)]
pub enum Header {
    Wait,
    Without(Unusable),
    With {
        bytes: usize,
        separator: Separator,
        columns: Columns,
        cells: usize,
    },
}

// ---- names

fn is_space(b: u8) -> bool
    ensures { result ≡ names.is_space b }
{
    (b == 32) | (b == 9)
}

// The place behind the spaces and tabs that stand at a place.
fn behind_spaces(s: &[u8], at: usize) -> usize
    requires { at ≤ length s.now }
    ensures { (result ≡ at + names.spaces (drop at s.now)) × (result ≤ length s.now) }
{
    for i in at..s.len() {
        if !is_space(s[i]) {
            return i;
        }
    }
    s.len()
}

// Whether a cell has a name, which is given in lower case.
fn is_name(s: &[u8], name: &[u8]) -> bool
    ensures { result ≡ names.is_name name.now s.now }
{
    let mut i = behind_spaces(s, 0);
    for c in name {
        if i == s.len() {
            return false;
        }
        let b = fields::lower(s[i]);
        if *c != b {
            return false;
        }
        i += 1;
    }
    behind_spaces(s, i) == s.len()
}

// ---- cells

// The bytes from one place to another; none where there are no such places.
fn part<'a>(s: &'a [u8], start: usize, stop: usize) -> &'a [u8]
    ensures { result.now ≡ tables.between s.now start stop }
{
    if stop <= s.len() {
        if start <= stop {
            return &s[start..stop];
        }
        return &s[0..0];
    }
    &s[0..0]
}

// The cell of this number, by a table of the places of cells; none where the table has none.
pub fn cell<'a, 'b>(s: &'a [u8], table: &'b [usize; 512], i: usize) -> &'a [u8]
    ensures { result.now ≡ tables.cell_at s.now table.now i }
{
    if i < 256 {
        let at = 2 * i;
        return part(s, table[at], table[at + 1]);
    }
    &s[0..0]
}

// ---- columns

// The first cell from a number on that has the name, or 256.
fn column_from(s: &[u8], table: &[usize; 512], from: usize, count: usize, name: &[u8]) -> usize
    ensures { result ≡ columns.column_from name.now from (tables.cells_from s.now table.now from (count - from)) }
{
    for i in from..count {
        if is_name(cell(s, table, i), name) {
            return i;
        }
    }
    256
}

// The first cell that has the name, or 256.
fn column(s: &[u8], table: &[usize; 512], count: usize, name: &[u8]) -> usize
    ensures { result ≡ columns.column_of name.now (tables.cells_from s.now table.now 0 count) }
{
    column_from(s, table, 0, count, name)
}

// The columns of a header of so many cells.
fn columns_in(s: &[u8], table: &[usize; 512], count: usize) -> Columns
    ensures { result ≡ columns.columns_of (tables.cells_from s.now table.now 0 count) }
{
    Columns {
        date: column(s, table, count, b"date"),
        origdate: column(s, table, count, b"origdate"),
        eventdate: column(s, table, count, b"eventdate"),
        urldate: column(s, table, count, b"urldate"),
        year: column(s, table, count, b"year"),
        month: column(s, table, count, b"month"),
        day: column(s, table, count, b"day"),
        endyear: column(s, table, count, b"endyear"),
        endmonth: column(s, table, count, b"endmonth"),
        endday: column(s, table, count, b"endday"),
        key: column(s, table, count, b"key"),
        id: column(s, table, count, b"id"),
    }
}

// Whether a cell behind a column has the name too.
fn again(s: &[u8], table: &[usize; 512], count: usize, name: &[u8], column: usize) -> bool
    ensures { result ≡ columns.again name.now column (tables.cells_from s.now table.now 0 count) }
{
    if column < count {
        return column_from(s, table, column + 1, count, name) < 256;
    }
    false
}

// Whether a name of a date or of a key stands in two cells.
fn twice_date(s: &[u8], table: &[usize; 512], count: usize, c: Columns) -> bool
    ensures { result ≡ columns.twice_date c (tables.cells_from s.now table.now 0 count) }
{
    if again(s, table, count, b"date", c.date) {
        return true;
    }
    if again(s, table, count, b"origdate", c.origdate) {
        return true;
    }
    if again(s, table, count, b"eventdate", c.eventdate) {
        return true;
    }
    if again(s, table, count, b"urldate", c.urldate) {
        return true;
    }
    if again(s, table, count, b"key", c.key) {
        return true;
    }
    again(s, table, count, b"id", c.id)
}

// Whether a name of the six fields does.
fn twice_six(s: &[u8], table: &[usize; 512], count: usize, c: Columns) -> bool
    ensures { result ≡ columns.twice_six c (tables.cells_from s.now table.now 0 count) }
{
    if again(s, table, count, b"year", c.year) {
        return true;
    }
    if again(s, table, count, b"month", c.month) {
        return true;
    }
    if again(s, table, count, b"day", c.day) {
        return true;
    }
    if again(s, table, count, b"endyear", c.endyear) {
        return true;
    }
    if again(s, table, count, b"endmonth", c.endmonth) {
        return true;
    }
    again(s, table, count, b"endday", c.endday)
}

// 1 for a column that there is.
fn one(column: usize) -> usize
    ensures { (result ≡ columns.one column) × (result ≤ 1) }
{
    if column < 256 {
        return 1;
    }
    0
}

// How many of the six columns of a start and an end there are.
fn six_columns(c: Columns) -> usize
    ensures { (result ≡ columns.six_columns c) × (result ≤ 6) }
{
    one(c.year) + one(c.month) + one(c.day) + one(c.endyear) + one(c.endmonth) + one(c.endday)
}

// How many columns there are whose cells are checked.
fn checked(c: Columns) -> usize
    ensures { (result ≡ columns.checked c) × (result ≤ 10) }
{
    one(c.date) + one(c.origdate) + one(c.eventdate) + one(c.urldate) + six_columns(c)
}

// How many columns there are.
fn known(c: Columns) -> usize
    ensures { result ≡ columns.known c }
{
    checked(c) + one(c.key) + one(c.id)
}

// The separator by which there are most known names; of equals the first.
fn choose(comma: usize, semicolon: usize, tab: usize) -> Separator
    ensures { result ≡ columns.chosen comma semicolon tab }
{
    if comma < semicolon {
        if semicolon < tab {
            return Separator::Tab;
        }
        return Separator::Semicolon;
    }
    if comma < tab {
        return Separator::Tab;
    }
    Separator::Comma
}

// ---- the header

// How many known names the first row has by a separator.
fn names_by(s: &[u8], separator: Separator, last: bool) -> Option<usize>
    ensures { result ≡ spec.names_by separator last s.now }
{
    let mut table = [0usize; 512];
    match csv_rows::next_row(s, separator, last, &mut table) {
        RowRead::Row { end: _, count } => Some(known(columns_in(s, &table, count))),
        RowRead::Faulty { end: _, fault: _ } => Some(0),
        RowRead::Endless { fault: _ } => Some(0),
        RowRead::More => None,
        RowRead::Nothing => Some(0),
    }
}

// What is no row is no header.
fn no_row(fault: Fault) -> Unusable
    ensures { result ≡ spec.no_row fault }
{
    match fault {
        Fault::QuoteInside(p) => Unusable::NoRow(RowFault::Broken(Fault::QuoteInside(p))),
        Fault::TextBehind(p) => Unusable::NoRow(RowFault::Broken(Fault::TextBehind(p))),
        Fault::LoneReturn(_) => Unusable::Returns,
        Fault::NeverClosed(p) => Unusable::NoRow(RowFault::Broken(Fault::NeverClosed(p))),
        Fault::TooLong(p) => Unusable::NoRow(RowFault::Broken(Fault::TooLong(p))),
        Fault::TooMany => Unusable::NoRow(RowFault::Broken(Fault::TooMany)),
    }
}

// A row that is read is the header if no name stands twice and one is that of a column to check.
fn with_cells(
    s: &[u8],
    table: &[usize; 512],
    n: usize,
    separator: Separator,
    end: usize,
    count: usize,
) -> Header
    requires { (n ≤ 3) × (end ≤ 65536) }
    ensures { result ≡ spec.with_cells n separator end count (tables.cells_from s.now table.now 0 count) }
{
    let columns = columns_in(s, table, count);
    if twice_date(s, table, count, columns) {
        return Header::Without(Unusable::Twice);
    }
    if twice_six(s, table, count, columns) {
        return Header::Without(Unusable::Twice);
    }
    if checked(columns) == 0 {
        return Header::Without(Unusable::NoColumn);
    }
    Header::With {
        bytes: n + end,
        separator,
        columns,
        cells: count,
    }
}

// The same if the row is UTF-8.
fn with_row(
    s: &[u8],
    table: &[usize; 512],
    n: usize,
    separator: Separator,
    end: usize,
    count: usize,
) -> Header
    requires { (n ≤ 3) × (end ≤ 65536) × (end ≤ length s.now) }
    ensures { result ≡ spec.with_row n separator s.now end count (tables.cells_from s.now table.now 0 count) }
{
    let good = csv_rows::utf8_end(&s[..end]);
    if good < end {
        return Header::Without(Unusable::NoRow(RowFault::BadUtf8(good)));
    }
    with_cells(s, table, n, separator, end, count)
}

// The header by a separator.
fn header_by(s: &[u8], n: usize, separator: Separator, last: bool) -> Header
    requires { n ≤ 3 }
    ensures { result ≡ spec.header_by n separator last s.now }
{
    let mut table = [0usize; 512];
    match csv_rows::next_row(s, separator, last, &mut table) {
        RowRead::Row { end, count } => with_row(s, &table, n, separator, end, count),
        RowRead::Faulty { end: _, fault } => Header::Without(no_row(fault)),
        RowRead::Endless { fault } => Header::Without(no_row(fault)),
        RowRead::More => Header::Wait,
        RowRead::Nothing => Header::Without(Unusable::Empty),
    }
}

// The header by the separator that gives most names.
#[tactic(auto, unfolding(crate::specs::Header::header_row, crate::specs::Header::on_names))]
fn header_row(s: &[u8], n: usize, last: bool) -> Header
    requires { n ≤ 3 }
    ensures { result ≡ spec.header_row n last s.now }
{
    match names_by(s, Separator::Comma, last) {
        Some(comma) => match names_by(s, Separator::Semicolon, last) {
            Some(semicolon) => match names_by(s, Separator::Tab, last) {
                Some(tab) => header_by(s, n, choose(comma, semicolon, tab), last),
                None => Header::Wait,
            },
            None => Header::Wait,
        },
        None => Header::Wait,
    }
}

// How long the byte order mark is that stands at the front.
fn mark_len(s: &[u8]) -> usize
    ensures { (result ≡ spec.mark_len s.now) × (result ≤ length s.now) × (result ≤ 3) }
{
    if 3 <= s.len() {
        if s[0] == 0xEF {
            if s[1] == 0xBB {
                if s[2] == 0xBF {
                    return 3;
                }
                return 0;
            }
            return 0;
        }
        return 0;
    }
    0
}

// The header behind a byte order mark.
fn header_behind(block: &[u8], last: bool) -> Header
    ensures { result ≡ spec.header_behind last block.now }
{
    let n = mark_len(block);
    header_row(&block[n..], n, last)
}

// The header of a file, by a block at its front; `last` says that the file ends behind the block.
pub fn read_header(block: &[u8], last: bool) -> Header
    ensures { result ≡ spec.header last block.now }
{
    if last {
        return header_behind(block, true);
    }
    if block.len() < 3 {
        return Header::Wait;
    }
    header_behind(block, false)
}
