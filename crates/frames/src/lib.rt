// Frames: one line of hexadecimal digits is one question to a reader.
#![tactic(auto)]

ghost use Rattle.std.specs.Prelude.{◌≡◌, true, false, ◌+◌, ◌*◌, ◌≤◌, ◌<◌, length, Result};
ghost use Rattle.hexes.specs.Hex.{is_hex};
ghost use Rattle.puts.specs.Answers as writing;
ghost use Rattle.puts.specs.Answers.{Put, Tried};
ghost use Rattle.dates.specs.declared.Date.{Date};
ghost use Rattle.refusals.specs.declared.Refusal.{Refusal};
ghost use Rattle.codes.specs.Words.{words_of};
ghost use Rattle.codes.specs.Typed.{Typed};
ghost use Rattle.codes.specs.Back.{is_plain, words_text};
ghost use Rattle.answers.specs.Answer.{answer_line};
ghost use Rattle.answers.specs.Coded.{words_line};
ghost use Rattle.frames.specs.Lists as list;
ghost use Rattle.frames.specs.Room.{Room, operation_of, reads_list, read_by, list_by, read_lists, is_single, text_start, row_length, Threefold, reads_usual, is_usual, by_level, says_plain, length_in};
ghost use Rattle.frames.specs.declared.Operation.TheVariants.{ThreeFields};
ghost use Rattle.frames.specs.Frame as spec;

use chunks::ChunksRef;
use codes::{NOTHING, Words};
use refusals::{Kind, Refusal};

// What a frame asks for.
#[derive(Clone, Copy)]
pub enum Operation {
    Ported,
    Strict,
    LevelOne,
    ThreeFields,
    Unknown,
}

// ---- the form of a frame

// The byte at a place; behind the end 0.
fn byte_at(f: &[u8], at: usize) -> u8
    ensures { result ≡ list.byte_at f.now at }
{
    if at < f.len() {
        return f[at];
    }
    0
}

// The place behind so many chunks. A chunk has at most 265 bytes.
fn chunks_end(f: &[u8], at: usize, n: usize) -> usize
    requires { (at < 1000000) × (n < 256) }
    ensures { (result ≡ list.end_of f.now at n) × (result ≤ at + 265 * n) }
{
    let mut p = at;
    for _i in 0..n {
        let len = byte_at(f, p + 1);
        p += 10 + len as usize;
    }
    p
}

// The place behind a list.
fn list_end(f: &[u8], at: usize) -> usize
    requires { at < 900000 }
    ensures { (result ≡ list.list_end f.now at) × (result ≤ at + 70000) }
{
    let n = byte_at(f, at);
    chunks_end(f, at + 1, n as usize)
}

// Whether a list that may be absent is present.
fn has_list(f: &[u8], at: usize) -> bool
    ensures { result ≡ list.has_list f.now at }
{
    byte_at(f, at) == 1
}

// The place behind a list that may be absent.
fn optional_end(f: &[u8], at: usize) -> usize
    requires { at < 800000 }
    ensures { (result ≡ list.optional_end f.now at) × (result ≤ at + 80000) }
{
    if has_list(f, at) {
        return list_end(f, at + 1);
    }
    at + 1
}

// The operation of a number: the one table of them.
fn asked(n: u8) -> Operation
    ensures { result ≡ spec.asked n }
{
    match n {
        1 => Operation::Strict,
        2 => Operation::Strict,
        3 => Operation::ThreeFields,
        4 => Operation::Ported,
        5 => Operation::LevelOne,
        _ => Operation::Unknown,
    }
}

// Whether one list fills a frame exactly.
fn one_fills(f: &[u8]) -> bool
    ensures { result ≡ spec.one_fills f.now }
{
    list_end(f, 1) == f.len()
}

// Whether three do, with their flags: the places of the second and of the third are given.
fn three_fill(f: &[u8], month_at: usize, day_at: usize) -> bool
    requires { (month_at ≡ spec.month_at f.now) × (day_at ≡ spec.day_at f.now) × (day_at < 800000) }
    ensures { result ≡ spec.three_fill f.now }
{
    if byte_at(f, month_at) <= 1 {
        if byte_at(f, day_at) <= 1 {
            return optional_end(f, day_at) == f.len();
        }
    }
    false
}

// ---- the lists of a frame

// Four bytes as a number, the high one first.
fn word_of(a: u8, b: u8, c: u8, d: u8) -> u64
    ensures { result ≡ ((a * 256 + b) * 256 + c) * 256 + d }
{
    ((a as u64 * 256 + b as u64) * 256 + c as u64) * 256 + d as u64
}

// A number of four bytes. Where all four are there they are one load.
fn word_at(f: &[u8], at: usize) -> u64
    requires { at < 1000000 }
    ensures { result ≡ list.word_at f.now at }
{
    if at + 4 <= f.len() {
        return word_of(f[at], f[at + 1], f[at + 2], f[at + 3]);
    }
    word_of(
        byte_at(f, at),
        byte_at(f, at + 1),
        byte_at(f, at + 2),
        byte_at(f, at + 3),
    )
}

// A chunk's row of the table.
fn row_at(f: &[u8], at: usize) -> [u64; 4]
    requires { at < 900000 }
    ensures { result ≡ list.row_at f.now at }
{
    let kind = byte_at(f, at) as u64;
    let len = byte_at(f, at + 1) as u64;
    [kind, len, word_at(f, at + 2), word_at(f, at + 6)]
}

// The same, put into the table.
fn put_row(f: &[u8], at: usize, table: &mut [u64], k: usize) -> usize
    requires { (at < 900000) × (k + 4 ≤ length table.old) }
    ensures { Put (list.row_at f.now at) table.old k table.new result }
{
    table[k] = byte_at(f, at) as u64;
    table[k + 1] = byte_at(f, at + 1) as u64;
    table[k + 2] = word_at(f, at + 2);
    table[k + 3] = word_at(f, at + 6);
    k + 4
}

// The table of so many chunks.
fn put_rows(f: &[u8], at: usize, n: usize, table: &mut [u64], k: usize) -> usize
    requires { (list.end_of f.now at n < 900000) × (k + 4 * n ≤ length table.old) }
    ensures { Put (list.table_of f.now at n) table.old k table.new result }
{
    let mut p = at;
    let mut j = k;
    for _i in 0..n {
        j = put_row(f, p, table, j);
        p += 10 + byte_at(f, p + 1) as usize;
    }
    j
}

// A part of a frame, as it is.
fn put_part(f: &[u8], from: usize, n: usize, text: &mut [u8], m: usize) -> usize
    requires { (from + n ≤ length f.now) × (m + n ≤ length text.old) }
    ensures { Put (list.part_at f.now from n) text.old m text.new result }
{
    text[m..m + n].copy_from_slice(&f[from..from + n]);
    m + n
}

// The texts of so many chunks.
fn put_texts(f: &[u8], at: usize, n: usize, text: &mut [u8], m: usize) -> usize
    requires { (list.end_of f.now at n ≤ length f.now) × (length f.now ≤ length text.old) × (m ≤ at) }
    ensures { Put (list.text_of f.now at n) text.old m text.new result }
{
    let mut p = at;
    let mut j = m;
    for _i in 0..n {
        let len = byte_at(f, p + 1) as usize;
        j = put_part(f, p + 10, len, text, j);
        p += 10 + len;
    }
    j
}

// The places behind the bytes and the table of a list.
#[derive(Clone, Copy)]
struct Unpacked {
    text: usize,
    table: usize,
}

// The bytes and the table of a list, behind those of the lists before it. A list takes more of the frame than of either buffer.
fn unpack_list(
    f: &[u8],
    at: usize,
    text: &mut [u8],
    m: usize,
    table: &mut [u64],
    k: usize,
) -> Unpacked
    requires { Room f.now text.old table.old × (list.list_end f.now at ≤ length f.now) × (m ≤ at) × (2 * k ≤ at) }
    ensures put { Put (list.list_text f.now at) text.old m text.new result.text }
    ensures put_2 { Put (list.list_table f.now at) table.old k table.new result.table }
    ensures text_bound { (result.text ≤ list.list_end f.now at) × (2 * result.table ≤ list.list_end f.now at) }
{
    let n = byte_at(f, at) as usize;
    let j = put_texts(f, at + 1, n, text, m);
    Unpacked {
        text: j,
        table: put_rows(f, at + 1, n, table, k),
    }
}

// The same of a list that may be absent.
fn unpack_optional(
    f: &[u8],
    at: usize,
    text: &mut [u8],
    m: usize,
    table: &mut [u64],
    k: usize,
) -> Unpacked
    requires { Room f.now text.old table.old × (list.optional_end f.now at ≤ length f.now) × (m ≤ at) × (2 * k ≤ at) }
    ensures put { Put (list.optional_text f.now at) text.old m text.new result.text }
    ensures put_2 { Put (list.optional_table f.now at) table.old k table.new result.table }
    ensures text_bound { (result.text ≤ list.optional_end f.now at) × (2 * result.table ≤ list.optional_end f.now at) }
{
    if has_list(f, at) {
        return unpack_list(f, at + 1, text, m, table, k);
    }
    Unpacked { text: m, table: k }
}

// ---- what is read of a frame

// No frame.
fn bad_frame() -> Words
    ensures value { result ≡ words_of spec.bad_frame }
    ensures typed { Typed spec.bad_frame }
{
    codes::pack(Err(refusals::nowhere(Kind::BadFrame)))
}

// A list, by the reader that an operation asks for.
fn read_by(op: Operation, list: ChunksRef<'_>) -> Words
    ensures value { result ≡ words_of (read_by op list.entry.bytes.now list.entry.table.now) }
    ensures typed { Typed (read_by op list.entry.bytes.now list.entry.table.now) }
{
    match op {
        Operation::Ported => reader::parse_words(list),
        Operation::Strict => reader::parse_strict_words(list),
        Operation::LevelOne => reader::level_words(list),
        Operation::ThreeFields => bad_frame(),
        Operation::Unknown => bad_frame(),
    }
}

// One list, copied into buffers.
fn list_in(op: Operation, f: &[u8], text: &mut [u8], table: &mut [u64]) -> Words
    requires { Room f.now text.old table.old × (spec.one_fills f.now ≡ true) }
    ensures value { result ≡ words_of (list_by op f.now) }
    ensures typed { Typed (list_by op f.now) }
{
    let u = unpack_list(f, 1, text, 0, table, 0);
    let list = ChunksRef {
        bytes: &text[..u.text],
        table: &table[..u.table],
    };
    read_by(op, list)
}

// Three lists that stand one behind the other in the two buffers: the places behind each are given.
fn read_lists(
    text: &[u8],
    table: &[u64],
    has_month: bool,
    has_day: bool,
    y: Unpacked,
    m: Unpacked,
    d: Unpacked,
) -> Words
    requires text_le_text { (y.text ≤ m.text) × (m.text ≤ d.text) × (d.text ≤ length text.now) }
    requires table_le_table { (y.table ≤ m.table) × (m.table ≤ d.table) × (d.table ≤ length table.now) }
    ensures value { result ≡ words_of (read_lists text.now table.now has_month has_day y m d) }
    ensures typed { Typed (read_lists text.now table.now has_month has_day y m d) }
{
    let a = y.text;
    let b = m.text;
    let c = d.text;
    let i = y.table;
    let j = m.table;
    let k = d.table;
    let year = ChunksRef {
        bytes: &text[..a],
        table: &table[..i],
    };
    let month = ChunksRef {
        bytes: &text[a..b],
        table: &table[i..j],
    };
    let day = ChunksRef {
        bytes: &text[b..c],
        table: &table[j..k],
    };
    reader::three_words(reader::ThreeFields {
        year,
        month: has_month.then_some(month),
        day: has_day.then_some(day),
    })
}

// Three fields, copied into buffers.
fn three_in(f: &[u8], text: &mut [u8], table: &mut [u64]) -> Words
    requires { Room f.now text.old table.old × (spec.three_fill f.now ≡ true) }
    ensures value { result ≡ words_of (spec.read_of ThreeFields f.now) }
    ensures typed { Typed (spec.read_of ThreeFields f.now) }
{
    let month_at = list_end(f, 1);
    let day_at = optional_end(f, month_at);
    let has_month = has_list(f, month_at);
    let has_day = has_list(f, day_at);
    let y = unpack_list(f, 1, text, 0, table, 0);
    let m = unpack_optional(f, month_at, text, y.text, table, y.table);
    let d = unpack_optional(f, day_at, text, m.text, table, m.table);
    read_lists(text, table, has_month, has_day, y, m, d)
}

// A frame of any size. The large arrays stand in a function with several callers, which is not compiled into them: so no short frame pays
// for their room on the stack. It looks at the operation itself, for with a given one it would be short enough to be.
fn read_large(f: &[u8]) -> Words
    requires { (length f.now ≤ 8192) × (spec.formed (operation_of f.now) f.now ≡ true) }
    ensures value { result ≡ words_of (spec.read_of (operation_of f.now) f.now) }
    ensures typed { Typed (spec.read_of (operation_of f.now) f.now) }
{
    let op = asked(byte_at(f, 0));
    let mut text = [0u8; 8192];
    let mut table = [0u64; 4096];
    match op {
        Operation::Ported => list_in(op, f, &mut text, &mut table),
        Operation::Strict => list_in(op, f, &mut text, &mut table),
        Operation::LevelOne => list_in(op, f, &mut text, &mut table),
        Operation::ThreeFields => three_in(f, &mut text, &mut table),
        Operation::Unknown => bad_frame(),
    }
}

// One list that fills a frame. A single chunk is read where it stands; the chunks of any other are put together first, those of a short frame
// in small arrays, which cost less to clear.
fn read_list(op: Operation, f: &[u8]) -> Words
    requires { (length f.now ≤ 8192) × (spec.one_fills f.now ≡ true) × (reads_list op ≡ true) × (operation_of f.now ≡ op) }
    ensures value { result ≡ words_of (list_by op f.now) }
    ensures typed { Typed (list_by op f.now) }
{
    if byte_at(f, 1) == 1 {
        let row = row_at(f, 2);
        let list = ChunksRef {
            bytes: &f[12..],
            table: &row,
        };
        return read_by(op, list);
    }
    if f.len() <= 256 {
        let mut text = [0u8; 256];
        let mut table = [0u64; 128];
        return list_in(op, f, &mut text, &mut table);
    }
    read_large(f)
}

// Whether a list that may be absent has no other chunk than one.
fn is_single(f: &[u8], at: usize) -> bool
    requires { at < 800000 }
    ensures { result ≡ is_single f.now at }
{
    if has_list(f, at) {
        return byte_at(f, at + 1) == 1;
    }
    true
}

// Where the text of such a list begins; if the list is absent, the place behind it.
fn text_start(has: bool, at: usize) -> usize
    requires { at < 800000 }
    ensures { result ≡ text_start has at }
{
    if has {
        return at + 12;
    }
    at + 1
}

// How many numbers its table has.
fn row_length(has: bool) -> usize
    ensures { result ≡ row_length has }
{
    if has {
        return 4;
    }
    0
}

// Three fields of one chunk each, read where they stand.
fn three_there(f: &[u8], month_at: usize, day_at: usize) -> Words
    requires { Threefold f.now month_at day_at }
    ensures value { result ≡ words_of (spec.read_of ThreeFields f.now) }
    ensures typed { Typed (spec.read_of ThreeFields f.now) }
{
    let has_month = has_list(f, month_at);
    let has_day = has_list(f, day_at);
    let y = row_at(f, 2);
    let m = row_at(f, month_at + 2);
    let d = row_at(f, day_at + 2);
    let i = text_start(has_month, month_at);
    let j = text_start(has_day, day_at);
    let year = ChunksRef {
        bytes: &f[12..month_at],
        table: &y,
    };
    let month = ChunksRef {
        bytes: &f[i..day_at],
        table: &m[..row_length(has_month)],
    };
    let day = ChunksRef {
        bytes: &f[j..],
        table: &d[..row_length(has_day)],
    };
    reader::three_words(reader::ThreeFields {
        year,
        month: has_month.then_some(month),
        day: has_day.then_some(day),
    })
}

// Three fields that fill a frame, by the places of the second and of the third.
fn three_at(f: &[u8], month_at: usize, day_at: usize) -> Words
    requires f_len_bound { (length f.now ≤ 8192) × (spec.three_fill f.now ≡ true) × (operation_of f.now ≡ ThreeFields) }
    requires month_at_value { (month_at ≡ spec.month_at f.now) × (day_at ≡ spec.day_at f.now) × (day_at < 800000) }
    ensures value { result ≡ words_of (spec.read_of ThreeFields f.now) }
    ensures typed { Typed (spec.read_of ThreeFields f.now) }
{
    if byte_at(f, 1) == 1 {
        if is_single(f, month_at) {
            if is_single(f, day_at) {
                return three_there(f, month_at, day_at);
            }
        }
    }
    if f.len() <= 256 {
        let mut text = [0u8; 256];
        let mut table = [0u64; 128];
        return three_in(f, &mut text, &mut table);
    }
    read_large(f)
}

// What is read of a frame that asks for one list; where that does not fill it, it is no frame.
fn read_one(op: Operation, f: &[u8]) -> Words
    requires { (length f.now ≤ 8192) × (reads_list op ≡ true) × (operation_of f.now ≡ op) }
    ensures value { result ≡ words_of (spec.frame_read f.now) }
    ensures typed { Typed (spec.frame_read f.now) }
{
    if one_fills(f) {
        return read_list(op, f);
    }
    bad_frame()
}

// The same of one that asks for three. Where the lists stand is found once.
fn read_three(f: &[u8]) -> Words
    requires { (length f.now ≤ 8192) × (operation_of f.now ≡ ThreeFields) }
    ensures value { result ≡ words_of (spec.frame_read f.now) }
    ensures typed { Typed (spec.frame_read f.now) }
{
    let month_at = list_end(f, 1);
    let day_at = optional_end(f, month_at);
    if three_fill(f, month_at, day_at) {
        return three_at(f, month_at, day_at);
    }
    bad_frame()
}

// What is read of a frame; what is none is refused before anything is read.
fn read_frame(f: &[u8]) -> Words
    requires { length f.now ≤ 8192 }
    ensures value { result ≡ words_of (spec.frame_read f.now) }
    ensures typed { Typed (spec.frame_read f.now) }
{
    let op = asked(byte_at(f, 0));
    match op {
        Operation::Ported => read_one(op, f),
        Operation::Strict => read_one(op, f),
        Operation::LevelOne => read_one(op, f),
        Operation::ThreeFields => read_three(f),
        Operation::Unknown => bad_frame(),
    }
}

// ---- the answer to a line

// Whether an operation reads one list as a date field, and answers a usual text by that text.
fn reads_usual(op: Operation) -> bool
    ensures { result ≡ reads_usual op }
{
    match op {
        Operation::Ported => true,
        Operation::Strict => true,
        Operation::LevelOne => false,
        Operation::ThreeFields => false,
        Operation::Unknown => false,
    }
}

// Whether a frame asks for the reading of one Normal chunk that fills it.
fn is_usual(f: &[u8]) -> bool
    ensures { result ≡ is_usual f.now }
{
    if f.len() < 12 {
        return false;
    }
    if f[1] != 1 {
        return false;
    }
    if f[2] != 0 {
        return false;
    }
    if byte_at(f, 3) as usize != f.len() - 12 {
        return false;
    }
    reads_usual(asked(f[0]))
}

// Whether an operation answers by level one.
fn by_level(op: Operation) -> bool
    ensures { result ≡ by_level op }
{
    match op {
        Operation::Ported => false,
        Operation::Strict => false,
        Operation::LevelOne => true,
        Operation::ThreeFields => false,
        Operation::Unknown => false,
    }
}

// Whether words are answered with the text that is put from them: they are plain, and say no season.
fn says_plain(w: Words) -> bool
    ensures { result ≡ says_plain w }
{
    if w.first_time < 72057594037927936 {
        if w.second_time < 72057594037927936 {
            return codes::is_plain(w.first, w.second, w.last);
        }
    }
    false
}

// The line of plain words, with the text that is put from them.
fn write_plain(w: Words, out: &mut [u8]) -> Result<usize, Refusal>
    requires { is_plain w.first w.second w.last ≡ true }
    ensures value { result ≡ writing.answer false (words_line w (words_text w.first w.second w.last)) (length out.old) }
    ensures out_after { out.new ≡ writing.afterwards false (words_line w (words_text w.first w.second w.last)) out.old }
{
    let mut text = [0u8; 24];
    let n = codes::put_text(w.first, w.second, w.last, &mut text);
    answers::write_words(w, &text[..n], out)
}

// The line of words, by the operation; a refusal has the same by each.
fn write_said(op: Operation, w: Words, out: &mut [u8]) -> Result<usize, Refusal>
    ensures value { (x : Result Date Refusal) → w ≡ words_of x → Typed x → result ≡ writing.answer false (spec.line_by op x) (length out.old) }
    ensures out_after { (x : Result Date Refusal) → w ≡ words_of x → Typed x → out.new ≡ writing.afterwards false (spec.line_by op x) out.old }
{
    if 4294967296 <= w.last {
        return answers::write_refused_words(w, out);
    }
    if by_level(op) {
        return answers::write_level_answer(codes::unpack(w), out);
    }
    if says_plain(w) {
        return write_plain(w, out);
    }
    answers::write_answer(codes::unpack(w), out)
}

// How many bytes an answer has; 0 where there is no room for it. From here on this number is handed on, which goes in a register.
#[tactic(auto, unfolding(crate::specs::Room::length_in))]
fn length_of(w: Result<usize, Refusal>) -> usize
    ensures { result ≡ length_in w }
{
    match w {
        Ok(n) => n,
        Err(_) => 0,
    }
}

// The answer to any frame.
fn answer_any(f: &[u8], out: &mut [u8]) -> usize
    requires { length f.now ≤ 8192 }
    ensures { Tried (spec.frame_answer f.now) out.old 0 out.new result }
{
    let op = asked(byte_at(f, 0));
    length_of(write_said(op, read_frame(f), out))
}

// The answer to a frame. A usual text without a time is that of its Date, so that its line can be written at once.
fn answer_frame(f: &[u8], out: &mut [u8]) -> usize
    requires { length f.now ≤ 8192 }
    ensures { Tried (spec.frame_answer f.now) out.old 0 out.new result }
{
    if is_usual(f) {
        let text = &f[12..];
        let w = codes::text(text);
        if w.last != NOTHING {
            if w.first_time == 0 {
                return answers::put_words(w, text, out);
            }
        }
    }
    answer_any(f, out)
}

// The answer to a line, with a buffer for its bytes.
fn answer_line(line: &[u8], frame: &mut [u8], out: &mut [u8]) -> usize
    requires { (is_hex line.now (length frame.old) ≡ is_hex line.now 8192) × (length frame.old ≤ 8192) }
    ensures { Tried (spec.line_answer line.now) out.old 0 out.new result }
{
    match hexes::decode(line, frame) {
        Some(n) => answer_frame(&frame[..n], out),
        None => length_of(answer_long(out)),
    }
}

// The answer to a line, as a line at the front of the lent buffer; without room for it nothing is stored. It has at most 147 bytes.
pub fn answer(line: &[u8], out: &mut [u8]) -> Result<usize, Refusal>
    ensures value { result ≡ writing.answer false (spec.line_answer line.now) (length out.old) }
    ensures out_after { out.new ≡ writing.afterwards false (spec.line_answer line.now) out.old }
{
    if line.len() <= 512 {
        let mut frame = [0u8; 256];
        return answers::written(answer_line(line, &mut frame, out));
    }
    let mut frame = [0u8; 8192];
    answers::written(answer_line(line, &mut frame, out))
}

// The answer to a line of more than 16,384 bytes, which need not be at hand: it is no frame, whatever it holds.
pub fn answer_long(out: &mut [u8]) -> Result<usize, Refusal>
    ensures value { result ≡ writing.answer false (answer_line spec.bad_frame) (length out.old) }
    ensures out_after { out.new ≡ writing.afterwards false (answer_line spec.bad_frame) out.old }
{
    answers::write_refused_words(bad_frame(), out)
}
