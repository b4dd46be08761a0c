// The fields of a start and of an end.
ghost use Rattle.std.specs.Prelude.{◌≡◌, is_some};
ghost use Rattle.chunks.specs.Lent.{Three, lent, lent_of, optional, three};
ghost use Rattle.reading_laws.specs.Fields.{three_fields};
ghost use Rattle.reader.specs.Fields.{three_of};
ghost use Rattle.sixfields.specs.Ends.{end_of};
ghost use Rattle.sixfields.specs.Six.{six_fields};
ghost use Rattle.knobstream.specs.Plain as plain;
ghost use Rattle.knobstream.specs.Layout.{Answered};
ghost use Rattle.knobstream.specs.Back.{is_set};

use chunks::ChunksRef;
use reader::ThreeFields;

// The fields year, month, day, endyear, endmonth and endday; a list is absent if the number before it is 0, and then is not looked at.
pub fn knobstream_parse_six_fields(
    year: &[u8],
    year_table: &[u64],
    has_month: u8,
    month: &[u8],
    month_table: &[u64],
    has_day: u8,
    day: &[u8],
    day_table: &[u64],
    has_end_year: u8,
    end_year: &[u8],
    end_year_table: &[u64],
    has_end_month: u8,
    end_month: &[u8],
    end_month_table: &[u64],
    has_end_day: u8,
    end_day: &[u8],
    end_day_table: &[u64],
    answer: &mut [u64; 7],
)
    ensures { Answered answer.new (plain.read (six_fields (three (lent year.now year_table.now) (optional (is_set has_month) month.now month_table.now) (optional (is_set has_day) day.now day_table.now)) (is_set has_end_year) (three (lent end_year.now end_year_table.now) (optional (is_set has_end_month) end_month.now end_month_table.now) (optional (is_set has_end_day) end_day.now end_day_table.now)))) }
{
    let start = crate::fields_of(
        crate::list(year, year_table),
        has_month,
        crate::list(month, month_table),
        has_day,
        crate::list(day, day_table),
    );
    let end = end_fields(
        has_end_year,
        crate::list(end_year, end_year_table),
        has_end_month,
        crate::list(end_month, end_month_table),
        has_end_day,
        crate::list(end_day, end_day_table),
    );
    read_into(start, end, answer);
}

// The lists of an end, which are put together where there is an end alone.
fn end_fields<'a>(
    has_year: u8,
    year: ChunksRef<'a>,
    has_month: u8,
    month: ChunksRef<'a>,
    has_day: u8,
    day: ChunksRef<'a>,
) -> Option<ThreeFields<'a>>
    ensures { (s s' : Three) → three_fields s ≡ three_fields s' → six_fields s (is_some result) (end_of result) ≡ six_fields s' (is_set has_year) (three (lent_of year.entry) (optional (is_set has_month) month.entry.bytes.now month.entry.table.now) (optional (is_set has_day) day.entry.bytes.now day.entry.table.now)) }
{
    if crate::is_set(has_year) {
        return Some(crate::fields_of(year, has_month, month, has_day, day));
    }
    None
}

// What is read of them, as words.
fn read_into(start: ThreeFields<'_>, end: Option<ThreeFields<'_>>, answer: &mut [u64; 7])
    ensures { Answered answer.new (plain.read (six_fields (three_of start.entry) (is_some end.entry) (end_of end.entry))) }
{
    let read = sixfields::parse_six_fields(start, end);
    crate::put(codes::pack(read), answer);
}
