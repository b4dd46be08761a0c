// The calls on a chronology, on a store as callers lend it: a count and three columns.
ghost use Rattle.std.specs.Prelude.{◌≡◌, length};
ghost use Rattle.days.specs.Covered.{period};
ghost use Rattle.chronology.specs.Store.{before, before_mut, after};
ghost use Rattle.chronology.specs.Calls.{add_answer, after_add, remove_answer, after_remove, count_answer, list_answer, after_list};
ghost use Rattle.chronology.specs.Asked.{reply};
ghost use Rattle.knobstream.specs.Entries.{counted, told};

use knobstream::entries::{PlainEntries, PlainReply};

// Adds the entry of an identifier and its days. A refusal changes nothing.
#[unsafe(no_mangle)]
pub extern "C" fn knobstream_add_entry(
    count: &mut usize,
    firsts: &mut [i32; 512],
    lasts: &mut [i32; 512],
    ids: &mut [u32; 512],
    first: i32,
    last: i32,
    id: u32,
) -> PlainEntries
    ensures value { result ≡ counted (add_answer (before_mut count firsts lasts ids) (period first last) id) }
    ensures ids_value { after count firsts lasts ids ≡ after_add (before_mut count firsts lasts ids) (period first last) id }
{
    knobstream::entries::knobstream_add_entry(count, firsts, lasts, ids, first, last, id)
}

// Removes the entry of an identifier. A refusal changes nothing.
#[unsafe(no_mangle)]
pub extern "C" fn knobstream_remove_entry(
    count: &mut usize,
    firsts: &mut [i32; 512],
    lasts: &mut [i32; 512],
    ids: &mut [u32; 512],
    id: u32,
) -> PlainEntries
    ensures value { result ≡ counted (remove_answer (before_mut count firsts lasts ids) id) }
    ensures ids_value { after count firsts lasts ids ≡ after_remove (before_mut count firsts lasts ids) id }
{
    knobstream::entries::knobstream_remove_entry(count, firsts, lasts, ids, id)
}

// How many entries there are.
#[unsafe(no_mangle)]
pub extern "C" fn knobstream_count_entries(
    count: &usize,
    firsts: &[i32; 512],
    lasts: &[i32; 512],
    ids: &[u32; 512],
) -> PlainEntries
    ensures { result ≡ counted (count_answer (before count firsts lasts ids)) }
{
    knobstream::entries::knobstream_count_entries(count, firsts, lasts, ids)
}

// The entries in list order, three numbers each, at the front of the lent numbers; a refusal stores nothing.
#[unsafe(no_mangle)]
pub extern "C" fn knobstream_list_entries(
    count: &usize,
    firsts: &[i32; 512],
    lasts: &[i32; 512],
    ids: &[u32; 512],
    out: &mut [i64],
) -> PlainEntries
    ensures value { result ≡ counted (list_answer (before count firsts lasts ids) (length out.old)) }
    ensures out_after { out.new ≡ after_list (before count firsts lasts ids) out.old }
{
    knobstream::entries::knobstream_list_entries(count, firsts, lasts, ids, out)
}

// Whether anything is dated in a period, and how many entries were read to tell.
#[unsafe(no_mangle)]
pub extern "C" fn knobstream_any_dated(
    count: &usize,
    firsts: &[i32; 512],
    lasts: &[i32; 512],
    ids: &[u32; 512],
    first: i32,
    last: i32,
) -> PlainReply
    ensures { result ≡ told (reply (before count firsts lasts ids) (period first last)) }
{
    knobstream::entries::knobstream_any_dated(count, firsts, lasts, ids, first, last)
}
