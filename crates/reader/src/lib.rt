// The readers over chunk lists: a date field by the ported reader, by the strict one and by the one of level one, and three fields. Each answers in
// words, which are handed on in registers; a usual text is answered at once (`codes`), where it stands or formatted, and any other goes the way for
// all. The same answers as a Date are for who wants one.
// No call keeps anything, and no refusal changes a lent byte: the lists are lent for reading only.
#![tactic(auto)]

ghost use Rattle.std.specs.Prelude.{◌≡◌, true, false, ◌&&◌, ◌||◌, [], eqb, ltb, ◌%◌, ◌≤◌, length, take, Ok, None, Some};
ghost use Rattle.chunks.specs.Chunks.{is_short, chunks_of, kinds_known, no_math, lengths, span_of};
ghost use Rattle.chunks.specs.Answer.{room_of};
ghost use Rattle.chunks.specs.Check.{checked};
ghost use Rattle.chunks.specs.Format.{formatted};
ghost use Rattle.codes.specs.Words.{words_or, words_of, year_word, month_word, day_part_word};
ghost use Rattle.codes.specs.Typed.{Typed};
ghost use Rattle.codes.specs.Parts.{year_part};
ghost use Rattle.codes.specs.Texts.{written};
ghost use Rattle.chars.specs.Pick.{pick};
ghost use Rattle.codes.specs.Points.{on_some};
ghost use Rattle.codes.specs.Ported.{ported, moved_by};
ghost use Rattle.codes.specs.Lists as lists;
ghost use Rattle.codes.specs.Spaced.{list_usual};
ghost use Rattle.datefield.specs.Value.{parse_text};
ghost use Rattle.fields.specs.Month.{month_field};
ghost use Rattle.fields.specs.Day.{day_field};
ghost use Rattle.reading_laws.specs.Field as field;
ghost use Rattle.chunks.specs.Lent.{lent_of, optional, optional_of};
ghost use Rattle.reading_laws.specs.Fields as fieldset;
ghost use Rattle.reader.specs.Fields.{three_of};
ghost use Rattle.reader.specs.Readable.{Readable, ReadableIf, AllReadable, Small, SmallIf, AllSmall};

use chunks::ChunksRef;
use codes::{NOTHING, Words};
use dates::{Date, Datetime, Day, Month};
use refusals::{FileSpan, Kind, Refusal, TextRefusal};
use scanner::Cursor;

// The lists of the fields year, month and day: that of the year is always there.
#[derive(Clone, Copy)]
pub struct ThreeFields<'a> {
    pub year: ChunksRef<'a>,
    pub month: Option<ChunksRef<'a>>,
    pub day: Option<ChunksRef<'a>>,
}

// The formatted text of a date field.
fn text_words(s: &[u8], span: FileSpan) -> Words
    ensures value { result ≡ words_of (parse_text span s.now) }
    ensures typed { Typed (parse_text span s.now) }
{
    codes::pack(datefield::parse_text(s, span))
}

// A date field, formatted into a buffer with room for it.
fn words_in(list: ChunksRef<'_>, buf: &mut [u8]) -> Words
    requires { is_short list.bytes.now list.table.now ≡ true → room_of list.bytes.now list.table.now ≤ length buf.old }
    ensures value { result ≡ words_of (field.parsed list.entry.bytes.now list.entry.table.now) }
    ensures typed { Typed (field.parsed list.entry.bytes.now list.entry.table.now) }
{
    match list.format_uppercase(buf) {
        Ok(n) => text_words(&buf[..n], list.span()),
        Err(e) => codes::pack(Err(e)),
    }
}

// A date field by the way for all. Most are read where they stand; of the others a short one is formatted into a small array, which costs less to
// clear.
fn any_words(list: ChunksRef<'_>) -> Words
    ensures value { result ≡ words_of (field.parsed list.entry.bytes.now list.entry.table.now) }
    ensures typed { Typed (field.parsed list.entry.bytes.now list.entry.table.now) }
{
    if list.stands(true) {
        return text_words(list.bytes, list.span());
    }
    if list.bytes.len() <= 56 {
        if list.table.len() <= 16 {
            let mut small = [0u8; 64];
            return words_in(list, &mut small);
        }
    }
    let mut buf = [0u8; 4224];
    words_in(list, &mut buf)
}

// What the strict matcher says of a text.
#[tactic(auto, unfolding(reading_laws::specs::Field::strictly))]
fn strictly(m: Option<Date>) -> Result<Date, Refusal>
    ensures { result ≡ field.strictly m }
{
    m.ok_or(refusals::nowhere(Kind::NotStrict))
}

// What the matcher of level one says.
#[tactic(auto, unfolding(reading_laws::specs::Field::leveled))]
fn leveled(m: Option<Date>) -> Result<Date, Refusal>
    ensures { result ≡ field.leveled m }
{
    m.ok_or(refusals::nowhere(Kind::NotLevelOne))
}

// A text by the grammar of level one or by the strict one.
fn match_by(level: bool, s: &[u8]) -> Result<Date, Refusal>
    ensures { result ≡ field.match_by level s.now }
{
    if level {
        return leveled(strict::match_level(s));
    }
    strictly(strict::match_text(s))
}

// A date field by one of the grammars, formatted into a buffer with room for it.
fn parse_by_in(level: bool, list: ChunksRef<'_>, buf: &mut [u8]) -> Result<Date, Refusal>
    requires { is_short list.bytes.now list.table.now ≡ true → room_of list.bytes.now list.table.now ≤ length buf.old }
    ensures { result ≡ field.parsed_by level list.entry.bytes.now list.entry.table.now }
{
    let n = list.format_verbatim(buf)?;
    match_by(level, &buf[..n])
}

// A date field by one of the grammars: neither trimmed nor in upper case.
fn parse_by(level: bool, list: ChunksRef<'_>) -> Result<Date, Refusal>
    ensures { result ≡ field.parsed_by level list.entry.bytes.now list.entry.table.now }
{
    if list.stands(false) {
        return match_by(level, list.bytes);
    }
    if list.bytes.len() <= 56 {
        if list.table.len() <= 16 {
            let mut small = [0u8; 64];
            return parse_by_in(level, list, &mut small);
        }
    }
    let mut buf = [0u8; 4224];
    parse_by_in(level, list, &mut buf)
}

// The same by the strict one, in words.
fn any_strict(list: ChunksRef<'_>) -> Words
    ensures value { result ≡ words_of (field.parsed_strict list.entry.bytes.now list.entry.table.now) }
    ensures typed { Typed (field.parsed_strict list.entry.bytes.now list.entry.table.now) }
{
    codes::pack(parse_by(false, list))
}

// ---- at once

// Whether a list is one Normal chunk with all of the bytes.
fn is_one_normal(list: ChunksRef<'_>) -> bool
    ensures { result ≡ lists.one_normal list.entry.bytes.now list.entry.table.now }
{
    if list.table.len() == 4 {
        if list.table[0] == 0 {
            return list.table[1] == list.bytes.len() as u64;
        }
    }
    false
}

// Whether no kind of a table is Math and its lengths sum to a number of bytes. What is left of the bytes is counted down, so that no sum can wrap.
fn lengths_join(table: &[u64], bytes: usize) -> bool
    requires { length table.now % 4 ≡ 0 }
    ensures { result ≡ (no_math (chunks_of table.now) && (kinds_known (chunks_of table.now) && eqb (lengths (chunks_of table.now)) bytes)) }
{
    let mut left = bytes as u64;
    for k in 0..table.len() / 4 {
        let kind = table[4 * k];
        if 1 < kind {
            return false;
        }
        let len = table[4 * k + 1];
        if left < len {
            return false;
        }
        left = left - len;
    }
    left == 0
}

// Whether a list is short and of chunks whose texts, one behind the other, are the bytes.
fn is_joined(list: ChunksRef<'_>) -> bool
    ensures { result ≡ lists.is_joined list.entry.bytes.now list.entry.table.now }
{
    if list.bytes.len() <= 54 {
        if list.table.len() % 4 == 0 {
            if list.table.len() <= 256 {
                return lengths_join(list.table, list.bytes.len());
            }
        }
    }
    false
}

// What the ported reader alone says at once of a text, in a list whose span starts at a place.
fn ported_from(bytes: &[u8], start: u64) -> Words
    ensures { result ≡ words_or (pick (ltb start 0x8000000000000000) (on_some (ported bytes.now) λ x. Some (moved_by start x)) None) }
{
    if start < 0x8000000000000000 {
        let text = codes::ported(bytes);
        let w = text.0;
        if w.last == NOTHING {
            return w;
        }
        return codes::moved(text, start);
    }
    codes::no_words()
}

// The same words, one by one: so those of a call that stores them are loaded as they were stored.
fn again(w: Words) -> Words
    ensures { result ≡ w }
{
    Words {
        start: w.start,
        end: w.end,
        first: w.first,
        first_time: w.first_time,
        second: w.second,
        second_time: w.second_time,
        last: w.last,
    }
}

// Whether the text of a list may be usual where it stands: that of one Normal chunk, or of several chunks.
fn is_whole(list: ChunksRef<'_>) -> bool
    ensures { result ≡ (lists.one_normal list.entry.bytes.now list.entry.table.now || lists.is_joined list.entry.bytes.now list.entry.table.now) }
{
    if is_one_normal(list) {
        return true;
    }
    is_joined(list)
}

// What both readers say of a list at once.
fn written_words(list: ChunksRef<'_>) -> Words
    ensures { result ≡ words_or (lists.list_written list.entry.bytes.now list.entry.table.now) }
{
    if is_whole(list) {
        return codes::text(list.bytes);
    }
    codes::no_words()
}

// How many of the bytes may be a usual text: of one Normal chunk those before the spaces at its end, of several chunks all.
fn usual_length(list: ChunksRef<'_>) -> usize
    ensures { (written (take result list.entry.bytes.now) ≡ list_usual list.entry.bytes.now list.entry.table.now) × (result ≤ length list.entry.bytes.now) }
{
    if is_one_normal(list) {
        if list.bytes.len() <= 4096 {
            return codes::unspaced(list.bytes);
        }
        return 0;
    }
    if is_joined(list) {
        return list.bytes.len();
    }
    0
}

// What the ported reader says of them at once.
fn usual_words(list: ChunksRef<'_>) -> Words
    ensures { result ≡ words_or (list_usual list.entry.bytes.now list.entry.table.now) }
{
    let n = usual_length(list);
    codes::text(&list.bytes[..n])
}

// What the ported reader alone says of a list at once.
fn ported_words(list: ChunksRef<'_>) -> Words
    ensures { result ≡ words_or (lists.list_ported list.entry.bytes.now list.entry.table.now) }
{
    if is_one_normal(list) {
        return ported_from(list.bytes, list.table[2]);
    }
    codes::no_words()
}

// ---- the calls for a date field

// A date field, read as the Rust reads it.
pub fn parse_words(list: ChunksRef<'_>) -> Words
    ensures value { result ≡ words_of (field.parsed list.entry.bytes.now list.entry.table.now) }
    ensures typed { Typed (field.parsed list.entry.bytes.now list.entry.table.now) }
{
    let w = usual_words(list);
    if w.last != NOTHING {
        return again(w);
    }
    let p = ported_words(list);
    if p.last != NOTHING {
        return again(p);
    }
    any_words(list)
}

// A date field by the strict grammar alone: neither trimmed nor in upper case.
pub fn parse_strict_words(list: ChunksRef<'_>) -> Words
    ensures value { result ≡ words_of (field.parsed_strict list.entry.bytes.now list.entry.table.now) }
    ensures typed { Typed (field.parsed_strict list.entry.bytes.now list.entry.table.now) }
{
    let w = written_words(list);
    if w.last != NOTHING {
        return again(w);
    }
    any_strict(list)
}

// A date field by the grammar of level one.
pub fn level_words(list: ChunksRef<'_>) -> Words
    ensures value { result ≡ words_of (field.parsed_level_one list.entry.bytes.now list.entry.table.now) }
    ensures typed { Typed (field.parsed_level_one list.entry.bytes.now list.entry.table.now) }
{
    codes::pack(parse_by(true, list))
}

// The same as a Date.
pub fn parse(list: ChunksRef<'_>) -> Result<Date, Refusal>
    ensures { result ≡ field.parsed list.entry.bytes.now list.entry.table.now }
{
    codes::unpack(parse_words(list))
}

// The strict one.
pub fn parse_strict(list: ChunksRef<'_>) -> Result<Date, Refusal>
    ensures { result ≡ field.parsed_strict list.entry.bytes.now list.entry.table.now }
{
    codes::unpack(parse_strict_words(list))
}

// And that of level one.
pub fn parse_level_one(list: ChunksRef<'_>) -> Result<Date, Refusal>
    ensures { result ≡ field.parsed_level_one list.entry.bytes.now list.entry.table.now }
{
    codes::unpack(level_words(list))
}

// ---- three fields

// The checks of three lists: each that is present in full, year, month, day, before any is read.
#[tactic(auto, unfolding(reading_laws::specs::Fields::fields_checked, chunks::specs::Check::or_else, chars::specs::Pick::pick))]
fn check_fields(fields: ThreeFields<'_>) -> Result<(), Refusal>
    ensures { result ≡ fieldset.fields_checked (three_of fields.entry) }
{
    fields.year.check()?;
    if let Some(month) = fields.month {
        return check_parts(month, fields.day);
    }
    Ok(())
}

// The same of the month list and the day list.
#[tactic(auto, unfolding(reading_laws::specs::Fields::parts_checked, chunks::specs::Check::or_else, chars::specs::Pick::pick))]
fn check_parts(month: ChunksRef<'_>, day: Option<ChunksRef<'_>>) -> Result<(), Refusal>
    ensures { result ≡ fieldset.parts_checked (lent_of month.entry) (optional_of day.entry) }
{
    month.check()?;
    if let Some(day) = day {
        return day.check();
    }
    Ok(())
}

// A list that is clean, formatted into a buffer with room for it: how many bytes of the buffer are its text.
fn text_of(list: ChunksRef<'_>, buf: &mut [u8]) -> usize
    requires { Readable list.bytes.now list.table.now (length buf.old) }
    ensures upper_bound { result ≤ length buf.new }
    ensures buf_after { take result buf.new ≡ formatted list.entry.bytes.now list.entry.table.now }
{
    match list.format_verbatim(buf) {
        Ok(n) => n,
        // never: the list is clean, and the buffer has the room
        Err(_) => 0,
    }
}

// A year list that is clean.
fn year_of(list: ChunksRef<'_>, buf: &mut [u8]) -> Result<i32, Refusal>
    requires { Readable list.bytes.now list.table.now (length buf.old) }
    ensures { result ≡ fieldset.year_of (lent_of list.entry) }
{
    if list.stands(false) {
        return moved_year(fields::get_year(list.bytes), list.span());
    }
    let n = text_of(list, buf);
    moved_year(fields::get_year(&buf[..n]), list.span())
}

// A year; a refusal of it is moved by the span.
#[tactic(auto, unfolding(reading_laws::specs::Fields::moved_year))]
fn moved_year(r: Result<i32, TextRefusal>, span: FileSpan) -> Result<i32, Refusal>
    ensures { result ≡ fieldset.moved_year span r }
{
    r.map_err(|e| refusals::offset(e, span.0))
}

// The month of a text, and the day that it holds.
#[tactic(auto, unfolding(reading_laws::specs::Fields::month_text, reading_laws::specs::Fields::on_month, reading_laws::specs::Fields::inside_day))]
fn month_text(s: &[u8]) -> Result<(Option<Month>, Option<Day>), Refusal>
    ensures { result ≡ fieldset.month_text s.now }
{
    let (month, next) = fields::month_field(s).map_err(|e| refusals::unshifted(e))?;
    let day = fields::day_in_month_field(s, next).map_err(|e| refusals::unshifted(e))?;
    Ok((month, day))
}

// A month list that is clean, without a day list.
fn month_alone(list: ChunksRef<'_>, buf: &mut [u8]) -> Result<(Option<Month>, Option<Day>), Refusal>
    requires { Readable list.bytes.now list.table.now (length buf.old) }
    ensures { result ≡ fieldset.month_alone (lent_of list.entry) }
{
    if list.stands(false) {
        return month_text(list.bytes);
    }
    let n = text_of(list, buf);
    month_text(&buf[..n])
}

// The month of a clean list.
fn month_of(list: ChunksRef<'_>, buf: &mut [u8]) -> Result<(Option<Month>, Cursor), TextRefusal>
    requires { Readable list.bytes.now list.table.now (length buf.old) }
    ensures { result ≡ month_field (formatted list.entry.bytes.now list.entry.table.now) }
{
    if list.stands(false) {
        return fields::month_field(list.bytes);
    }
    let n = text_of(list, buf);
    fields::month_field(&buf[..n])
}

// The day of a clean list.
fn day_of(list: ChunksRef<'_>, buf: &mut [u8]) -> Result<Day, Refusal>
    requires { Readable list.bytes.now list.table.now (length buf.old) }
    ensures { result ≡ day_field (formatted list.entry.bytes.now list.entry.table.now) (span_of (chunks_of list.entry.table.now)) }
{
    if list.stands(false) {
        return fields::day_field(list.bytes, list.span());
    }
    let n = text_of(list, buf);
    fields::day_field(&buf[..n], list.span())
}

// A month list and a day list that are clean, read one after the other in the same buffer.
#[tactic(auto, unfolding(reading_laws::specs::Fields::month_and_day, reading_laws::specs::Fields::on_month, reading_laws::specs::Fields::field_day))]
fn month_and_day(
    month: ChunksRef<'_>,
    day: ChunksRef<'_>,
    buf: &mut [u8],
) -> Result<(Option<Month>, Option<Day>), Refusal>
    requires readable { Readable month.bytes.now month.table.now (length buf.old) }
    requires readable_2 { Readable day.bytes.now day.table.now (length buf.old) }
    ensures { result ≡ fieldset.month_and_day (lent_of month.entry) (lent_of day.entry) }
{
    let (m, _) = month_of(month, buf).map_err(|e| refusals::unshifted(e))?;
    let d = day_of(day, buf)?;
    Ok((m, Some(d)))
}

// The month and the day of lists that are clean, as far as they are present.
#[tactic(auto, unfolding(reading_laws::specs::Fields::parts_of, chars::specs::Pick::pick))]
fn parts_of(
    month: Option<ChunksRef<'_>>,
    day: Option<ChunksRef<'_>>,
    buf: &mut [u8],
) -> Result<(Option<Month>, Option<Day>), Refusal>
    requires readable { ReadableIf (optional_of month) (length buf.old) }
    requires readable_2 { (optional_of month).present ≡ true → ReadableIf (optional_of day) (length buf.old) }
    ensures { result ≡ fieldset.parts_of (optional_of month.entry) (optional_of day.entry) }
{
    match month {
        Some(m) => match day {
            Some(d) => month_and_day(m, d, buf),
            None => month_alone(m, buf),
        },
        None => Ok((None, None)),
    }
}

// Three fields have no time and no mark.
#[tactic(auto, unfolding(reading_laws::specs::Fields::dated))]
fn dated(year: i32, parts: Result<(Option<Month>, Option<Day>), Refusal>) -> Result<Date, Refusal>
    ensures { result ≡ fieldset.dated year parts }
{
    let (m, d) = parts?;
    let atom = Datetime::new(year, m, d, None);
    Ok(Date::from_datetime(atom))
}

// Three lists that are clean, read one after the other in the same buffer.
#[tactic(auto, unfolding(reading_laws::specs::Fields::read_fields, reading_laws::specs::Fields::on_year))]
fn read_fields(fields: ThreeFields<'_>, buf: &mut [u8]) -> Result<Date, Refusal>
    requires { AllReadable (three_of fields) (length buf.old) }
    ensures { result ≡ fieldset.read_fields (three_of fields.entry) }
{
    let y = year_of(fields.year, buf)?;
    let parts = parts_of(fields.month, fields.day, buf);
    dated(y, parts)
}

// Whether a list is formatted into a small array.
fn is_small(list: ChunksRef<'_>) -> bool
    ensures { result ≡ true → Small list.entry.bytes.now list.entry.table.now }
{
    if list.bytes.len() <= 56 {
        return list.table.len() <= 16;
    }
    false
}

// Whether a list that may be absent is, if it is present.
fn is_small_if(list: Option<ChunksRef<'_>>) -> bool
    ensures { result ≡ true → SmallIf (optional_of list.entry) }
{
    let Some(list) = list else {
        return true;
    };
    is_small(list)
}

// Whether each of three lists is.
fn are_small(fields: ThreeFields<'_>) -> bool
    ensures { result ≡ true → AllSmall (three_of fields.entry) }
{
    if is_small(fields.year) {
        if is_small_if(fields.month) {
            return is_small_if(fields.day);
        }
    }
    false
}

// Three lists that are clean. Short ones are formatted into a small array, which costs less to clear.
fn read_clean(fields: ThreeFields<'_>) -> Result<Date, Refusal>
    requires { fieldset.fields_checked (three_of fields) ≡ (Ok tt) }
    ensures { result ≡ fieldset.read_fields (three_of fields.entry) }
{
    if are_small(fields) {
        let mut small = [0u8; 64];
        return read_fields(fields, &mut small);
    }
    let mut buf = [0u8; 4224];
    read_fields(fields, &mut buf)
}

// ---- three fields at once

// The year of a list that is one Normal chunk.
fn year_at_once(list: ChunksRef<'_>) -> u64
    ensures { result ≡ year_word (lists.on_normal (lent_of list.entry) year_part) }
{
    if is_one_normal(list) {
        return codes::year_part(list.bytes);
    }
    NOTHING
}

// The month of one, if it is present.
#[tactic(auto, unfolding(codes::specs::Lists::month_or, codes::specs::Lists::on_normal, chars::specs::Pick::pick))]
fn month_at_once(month: Option<ChunksRef<'_>>) -> u64
    ensures { result ≡ month_word (lists.month_or (optional_of month.entry)) }
{
    match month {
        Some(list) => {
            if is_one_normal(list) {
                return codes::month_part(list.bytes);
            }
            NOTHING
        }
        None => 0,
    }
}

// The day of one that stands beside a month, if it is present.
#[tactic(auto, unfolding(codes::specs::Lists::day_or, codes::specs::Lists::on_normal, chars::specs::Pick::pick))]
fn day_beside(day: Option<ChunksRef<'_>>) -> u64
    ensures { result ≡ day_part_word (lists.day_or (optional true [] []) (optional_of day.entry)) }
{
    match day {
        Some(list) => {
            if is_one_normal(list) {
                return codes::day_part(list.bytes);
            }
            NOTHING
        }
        None => 0,
    }
}

// The day of one, if it is present beside a month.
#[tactic(auto, unfolding(codes::specs::Lists::day_or, chars::specs::Pick::pick))]
fn day_at_once(month: Option<ChunksRef<'_>>, day: Option<ChunksRef<'_>>) -> u64
    ensures { result ≡ day_part_word (lists.day_or (optional_of month.entry) (optional_of day.entry)) }
{
    match month {
        Some(_) => day_beside(day),
        None => 0,
    }
}

// What three fields say at once.
fn three_at_once(fields: ThreeFields<'_>) -> Words
    ensures { result ≡ words_or (lists.list_three (three_of fields.entry)) }
{
    let y = year_at_once(fields.year);
    let m = month_at_once(fields.month);
    let d = day_at_once(fields.month, fields.day);
    if y == NOTHING {
        return codes::no_words();
    }
    if m == NOTHING {
        return codes::no_words();
    }
    if d == NOTHING {
        return codes::no_words();
    }
    codes::at_word(y + m + d)
}

// Three fields by the way for all. A day list without a month list is not looked at.
#[tactic(auto, unfolding(reading_laws::specs::Fields::three_fields, reading_laws::specs::Field::on_clean))]
fn any_fields(fields: ThreeFields<'_>) -> Result<Date, Refusal>
    ensures { result ≡ fieldset.three_fields (three_of fields.entry) }
{
    check_fields(fields)?;
    read_clean(fields)
}

// The fields year, month and day, in words.
pub fn three_words(fields: ThreeFields<'_>) -> Words
    ensures value { result ≡ words_of (fieldset.three_fields (three_of fields.entry)) }
    ensures typed { Typed (fieldset.three_fields (three_of fields.entry)) }
{
    let w = three_at_once(fields);
    if w.last != NOTHING {
        return w;
    }
    let read = any_fields(fields);
    codes::pack(read)
}

// The same as a Date.
pub fn parse_three_fields(fields: ThreeFields<'_>) -> Result<Date, Refusal>
    ensures { result ≡ fieldset.three_fields (three_of fields.entry) }
{
    codes::unpack(three_words(fields))
}
