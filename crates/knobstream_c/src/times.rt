// The text of a Date with its times.
ghost use Rattle.std.specs.Prelude.{◌≡◌, length};
ghost use Rattle.timed.specs.Answers.{timed_measured, timed_answer, timed_afterwards};
ghost use Rattle.knobstream.specs.Plain as plain;
ghost use Rattle.knobstream.specs.Back as back;

use knobstream::{PlainDatetime, PlainWritten};

// How long the text of a Date with its times is; it refuses what the writer refuses, apart from NoRoom.
#[unsafe(no_mangle)]
pub extern "C" fn knobstream_measure_timed(
    first: PlainDatetime,
    second: PlainDatetime,
    shape: u8,
    uncertain: u8,
    approximate: u8,
) -> PlainWritten
    ensures { result ≡ plain.measure (timed_measured (back.date_of (plain.parts shape uncertain approximate first second))) }
{
    knobstream::times::knobstream_measure_timed(first, second, shape, uncertain, approximate)
}

// The text of a Date with its times, at the front of the lent buffer; a refusal stores nothing.
#[unsafe(no_mangle)]
pub extern "C" fn knobstream_write_timed(
    first: PlainDatetime,
    second: PlainDatetime,
    out: &mut [u8],
    shape: u8,
    uncertain: u8,
    approximate: u8,
) -> PlainWritten
    ensures value { result ≡ plain.written (timed_answer (back.date_of (plain.parts shape uncertain approximate first second)) (length out.old)) }
    ensures out_after { out.new ≡ timed_afterwards (back.date_of (plain.parts shape uncertain approximate first second)) out.old }
{
    knobstream::times::knobstream_write_timed(first, second, out, shape, uncertain, approximate)
}
