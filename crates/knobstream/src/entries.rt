// The calls on a chronology, on a store as callers lend it: a count and three columns.
ghost use Rattle.std.specs.Prelude.{◌≡◌, length};
ghost use Rattle.days.specs.Covered.{period};
ghost use Rattle.chronology.specs.Store.{before, before_mut, after};
ghost use Rattle.chronology.specs.Calls.{add_answer, after_add, remove_answer, after_remove, count_answer, list_answer, after_list};
ghost use Rattle.chronology.specs.Asked.{reply};
ghost use Rattle.knobstream.specs.Entries.{counted, told};

use days::Period;
use refusals::Refusal;

// What a call answers: how many entries there are now, or were listed, with the refusal 0; or the number of a refusal and 0.
#[repr(C)]
#[derive(Clone, Copy)]
pub struct PlainEntries {
    pub entries: usize,
    pub refusal: u8,
}

// What the question is answered: whether an entry touches the period, and how many were read to tell, with the refusal 0; or the number of a
// refusal and zeros.
#[repr(C)]
#[derive(Clone, Copy)]
pub struct PlainReply {
    pub read: usize,
    pub found: u8,
    pub refusal: u8,
}

fn plain_entries(a: Result<usize, Refusal>) -> PlainEntries
    ensures { result ≡ counted a }
{
    match a {
        Ok(n) => PlainEntries {
            entries: n,
            refusal: 0,
        },
        Err(e) => {
            let kind = e.kind;
            PlainEntries {
                entries: 0,
                refusal: refusals::number(kind),
            }
        }
    }
}

fn plain_reply(a: Result<(bool, usize), Refusal>) -> PlainReply
    ensures { result ≡ told a }
{
    match a {
        Ok((found, read)) => PlainReply {
            read,
            found: crate::flag(found),
            refusal: 0,
        },
        Err(e) => {
            let kind = e.kind;
            PlainReply {
                read: 0,
                found: 0,
                refusal: refusals::number(kind),
            }
        }
    }
}

// Adds the entry of an identifier and its days. A refusal changes nothing.
pub fn knobstream_add_entry(
    count: &mut usize,
    firsts: &mut [i32; 512],
    lasts: &mut [i32; 512],
    ids: &mut [u32; 512],
    first: i32,
    last: i32,
    id: u32,
) -> PlainEntries
    ensures value { result ≡ counted (add_answer (before_mut count firsts lasts ids) (period first last) id) }
    ensures ids_value { after count firsts lasts ids ≡ after_add (before_mut count firsts lasts ids) (period first last) id }
{
    plain_entries(chronology::add(count, firsts, lasts, ids, Period { first, last }, id))
}

// Removes the entry of an identifier. A refusal changes nothing.
pub fn knobstream_remove_entry(
    count: &mut usize,
    firsts: &mut [i32; 512],
    lasts: &mut [i32; 512],
    ids: &mut [u32; 512],
    id: u32,
) -> PlainEntries
    ensures value { result ≡ counted (remove_answer (before_mut count firsts lasts ids) id) }
    ensures ids_value { after count firsts lasts ids ≡ after_remove (before_mut count firsts lasts ids) id }
{
    plain_entries(chronology::remove(count, firsts, lasts, ids, id))
}

// How many entries there are.
pub fn knobstream_count_entries(
    count: &usize,
    firsts: &[i32; 512],
    lasts: &[i32; 512],
    ids: &[u32; 512],
) -> PlainEntries
    ensures { result ≡ counted (count_answer (before count firsts lasts ids)) }
{
    plain_entries(chronology::count(count, firsts, lasts, ids))
}

// The entries in list order, three numbers each, at the front of the lent numbers; a refusal stores nothing.
pub fn knobstream_list_entries(
    count: &usize,
    firsts: &[i32; 512],
    lasts: &[i32; 512],
    ids: &[u32; 512],
    out: &mut [i64],
) -> PlainEntries
    ensures value { result ≡ counted (list_answer (before count firsts lasts ids) (length out.old)) }
    ensures out_after { out.new ≡ after_list (before count firsts lasts ids) out.old }
{
    plain_entries(chronology::list(count, firsts, lasts, ids, out))
}

// Whether anything is dated in a period, and how many entries were read to tell.
pub fn knobstream_any_dated(
    count: &usize,
    firsts: &[i32; 512],
    lasts: &[i32; 512],
    ids: &[u32; 512],
    first: i32,
    last: i32,
) -> PlainReply
    ensures { result ≡ told (reply (before count firsts lasts ids) (period first last)) }
{
    plain_reply(chronology::any_dated(count, firsts, lasts, ids, Period { first, last }))
}
