// A chronology: up to 512 entries, each an identifier and the days from a first to a last, kept in list order in a store that the caller
// lends: a count and three columns. What stands behind the count is no entry: a store is emptied by the count 0.
#![tactic(auto)]

ghost use Rattle.std.specs.Prelude.{◌≡◌, not, [], ◌∷◌, ◌+◌, ◌*◌, ◌%◌, ◌≤◌, ◌<◌, length, take, drop};
ghost use Rattle.std.proofs.lemmas.List.Edits.{sets};
ghost use Rattle.chronology.specs.Entries as entries;
ghost use Rattle.chronology.specs.Store as spec;
ghost use Rattle.chronology.specs.Store.{lent, lent_mut, before, before_mut, after};
ghost use Rattle.chronology.specs.Calls as calls;
ghost use Rattle.chronology.specs.Asked as asked;
ghost use Rattle.chronology.specs.Inside as inside;

use days::Period;
use refusals::{Kind, Refusal, nowhere};

// How many entries there is room for.
const ENTRIES: usize = 512;

// The first and the last day that is numbered: those of the years -9999 and 9999.
const FIRST_DAY: i32 = -3652059;

const LAST_DAY: i32 = 3652424;

// An entry: its first and its last day, and its identifier.
#[derive(Clone, Copy)]
pub struct Entry {
    pub first: i32,
    pub last: i32,
    pub id: u32,
}

// ---- refusals

// The refusal of a call. None here names a place.
fn refused(kind: Kind) -> Result<usize, Refusal>
    ensures { result ≡ calls.refused kind }
{
    Err(nowhere(kind))
}

// The refusal of the question.
fn untold(kind: Kind) -> Result<(bool, usize), Refusal>
    ensures { result ≡ asked.untold kind }
{
    Err(nowhere(kind))
}

// ---- entries

// Whether a day has a number.
fn in_span(day: i32) -> bool
    ensures { result ≡ entries.in_span day }
{
    FIRST_DAY <= day && day <= LAST_DAY
}

// Whether both days of a period have a number, and the last is not before the first.
fn good_period(period: Period) -> bool
    ensures { result ≡ entries.good_period period }
{
    let first = period.first;
    let last = period.last;
    if !in_span(first) {
        return false;
    }
    if !in_span(last) {
        return false;
    }
    first <= last
}

// Whether an entry has a good period.
fn good_days(e: Entry) -> bool
    ensures { result ≡ entries.good_days e }
{
    good_period(Period {
        first: e.first,
        last: e.last,
    })
}

// Whether one day is before another; of the same day something else decides.
fn sooner(a: i32, b: i32, other: bool) -> bool
    ensures { result ≡ entries.sooner a b other }
{
    if a < b {
        return true;
    }
    if b < a {
        return false;
    }
    other
}

// List order: by first day, then by last day, then by identifier.
fn precedes(a: Entry, b: Entry) -> bool
    ensures { result ≡ entries.precedes a b }
{
    sooner(a.first, b.first, sooner(a.last, b.last, a.id < b.id))
}

// The entry at a place.
fn entry_at(firsts: &[i32], lasts: &[i32], ids: &[u32], i: usize) -> Entry
    requires { (i < 512) × (length firsts.now ≡ 512) × (length lasts.now ≡ 512) × (length ids.now ≡ 512) }
    ensures { result ≡ inside.entry_at firsts.now lasts.now ids.now i }
{
    Entry {
        first: firsts[i],
        last: lasts[i],
        id: ids[i],
    }
}

// ---- whether what is lent is a chronology

// The place of an identifier in a column from a place on; the count if it is not there.
fn find(ids: &[u32], from: usize, count: usize, id: u32) -> usize
    requires { (from ≤ count) × (count ≤ 512) × (length ids.now ≡ 512) }
    ensures { (result ≡ from + spec.index_of id (drop from (take count ids.now))) × (result ≤ count) }
{
    for i in from..count {
        if ids[i] == id {
            return i;
        }
    }
    count
}

// Whether an identifier is among those of a column from a place on. All are looked at, so that many are compared at once.
fn occurs(ids: &[u32], from: usize, count: usize, id: u32) -> bool
    requires { (from ≤ count) × (count ≤ 512) × (length ids.now ≡ 512) }
    ensures { result ≡ entries.among id (drop from (take count ids.now)) }
{
    let mut found = false;
    for i in from..count {
        found = found | (ids[i] == id);
    }
    found
}

// The places of an identifier's two marks.
fn mark_of(id: u32) -> usize
    ensures { (result ≡ id % 4096) × (result < 4096) }
{
    (id % 4096) as usize
}

fn other_mark_of(id: u32) -> usize
    ensures { (result ≡ id % 4093) × (result < 4096) }
{
    (id % 4093) as usize
}

// Whether an identifier is that of no entry from a place on, all of which are marked: without one of its marks it is that of none.
fn alone(ids: &[u32], from: usize, count: usize, id: u32, marks: &[u8; 4096]) -> bool
    requires { (from ≤ count) × (count ≤ 512) × (length ids.now ≡ 512) × inside.Marked marks.now (drop from (take count ids.now)) }
    ensures { result ≡ not (entries.among id (drop from (take count ids.now))) }
{
    let at = mark_of(id);
    if marks[at] == 0 {
        return true;
    }
    let other = other_mark_of(id);
    if marks[other] == 0 {
        return true;
    }
    !occurs(ids, from, count, id)
}

// Whether the entry at a place stands before the next one.
fn before_next(count: &usize, firsts: &[i32], lasts: &[i32], ids: &[u32], i: usize) -> bool
    requires { (i < count.now) × (count.now ≤ 512) × spec.Wide (lent count firsts lasts ids) }
    ensures { result ≡ inside.before_at (before count firsts lasts ids) i }
{
    if i + 1 < *count {
        let e = entry_at(firsts, lasts, ids, i);
        let next = entry_at(firsts, lasts, ids, i + 1);
        return precedes(e, next);
    }
    true
}

// Whether the entry at a place has good days, stands before the next one, and its identifier is that of no later one.
fn kept_at(
    count: &usize,
    firsts: &[i32],
    lasts: &[i32],
    ids: &[u32],
    i: usize,
    marks: &[u8; 4096],
) -> bool
    requires { (i < count.now) × (count.now ≤ 512) × spec.Wide (lent count firsts lasts ids) × inside.Marked marks.now (drop (i + 1) (take count.now ids.now)) }
    ensures { result ≡ inside.kept_at (before count firsts lasts ids) i }
{
    let e = entry_at(firsts, lasts, ids, i);
    if good_days(e) {
        if before_next(count, firsts, lasts, ids, i) {
            let id = e.id;
            return alone(ids, i + 1, *count, id, marks);
        }
        return false;
    }
    false
}

// Whether this holds of all entries, from the last to the first: each is marked once it is read.
fn well_kept(count: &usize, firsts: &[i32], lasts: &[i32], ids: &[u32]) -> bool
    requires { (count.now ≤ 512) × spec.Wide (lent count firsts lasts ids) }
    ensures { result ≡ entries.well_kept (spec.contents (before count firsts lasts ids)) }
{
    let mut marks = [0u8; 4096];
    for i in (0..*count).rev() {
        if !kept_at(count, firsts, lasts, ids, i, &marks) {
            return false;
        }
        let id = ids[i];
        let at = mark_of(id);
        marks[at] = 1;
        let other = other_mark_of(id);
        marks[other] = 1;
    }
    true
}

// Whether what is lent is a chronology.
fn sound(count: &usize, firsts: &[i32], lasts: &[i32], ids: &[u32]) -> bool
    requires { spec.Wide (lent count firsts lasts ids) }
    ensures { result ≡ spec.sound (before count firsts lasts ids) }
{
    if *count <= ENTRIES {
        return well_kept(count, firsts, lasts, ids);
    }
    false
}

// ---- rows

// The place of an entry in list order: how many precede it.
fn rank(count: &usize, firsts: &[i32], lasts: &[i32], ids: &[u32], e: Entry) -> usize
    requires { (count.now ≤ 512) × spec.Wide (lent count firsts lasts ids) }
    ensures { (result ≡ spec.rank e (spec.contents (before count firsts lasts ids))) × (result ≤ count.now) }
{
    for i in 0..*count {
        let x = entry_at(firsts, lasts, ids, i);
        if !precedes(x, e) {
            return i;
        }
    }
    *count
}

// Puts an entry at a place among the first n rows: those from there on move up by one.
fn insert_row(firsts: &mut [i32], lasts: &mut [i32], ids: &mut [u32], n: usize, at: usize, e: Entry)
    requires { (at ≤ n) × (n < 512) × (length firsts.old ≡ 512) × (length lasts.old ≡ 512) × (length ids.old ≡ 512) }
    ensures { (firsts.new ≡ spec.inserted firsts.old n at e.first) × (lasts.new ≡ spec.inserted lasts.old n at e.last) × (ids.new ≡ spec.inserted ids.old n at e.id) }
{
    firsts.copy_within(at..n, at + 1);
    lasts.copy_within(at..n, at + 1);
    ids.copy_within(at..n, at + 1);
    let first = e.first;
    let last = e.last;
    firsts[at] = first;
    lasts[at] = last;
    ids[at] = e.id;
}

// Takes the entry at a place from the first n rows: those behind it move down by one.
fn remove_row(firsts: &mut [i32], lasts: &mut [i32], ids: &mut [u32], n: usize, at: usize)
    requires { (at < n) × (n ≤ 512) × (length firsts.old ≡ 512) × (length lasts.old ≡ 512) × (length ids.old ≡ 512) }
    ensures { (firsts.new ≡ spec.removed firsts.old n at) × (lasts.new ≡ spec.removed lasts.old n at) × (ids.new ≡ spec.removed ids.old n at) }
{
    firsts.copy_within(at + 1..n, at);
    lasts.copy_within(at + 1..n, at);
    ids.copy_within(at + 1..n, at);
}

// ---- the calls

// What an add answers.
fn add_answer(
    count: &usize,
    firsts: &[i32],
    lasts: &[i32],
    ids: &[u32],
    period: Period,
    id: u32,
) -> Result<usize, Refusal>
    requires { spec.Wide (lent count firsts lasts ids) }
    ensures { result ≡ calls.add_answer (before count firsts lasts ids) period id }
{
    if !sound(count, firsts, lasts, ids) {
        return refused(Kind::BadChronology);
    }
    if !good_period(period) {
        return refused(Kind::BadPeriod);
    }
    if find(ids, 0, *count, id) < *count {
        return refused(Kind::DuplicateEntry);
    }
    if *count == ENTRIES {
        return refused(Kind::ChronologyFull);
    }
    Ok(*count + 1)
}

// An add.
fn add_entry(
    count: &mut usize,
    firsts: &mut [i32],
    lasts: &mut [i32],
    ids: &mut [u32],
    period: Period,
    id: u32,
) -> Result<usize, Refusal>
    requires { spec.Wide (lent_mut count firsts lasts ids) }
    ensures value { result ≡ calls.add_answer (before_mut count firsts lasts ids) period id }
    ensures ids_value { after count firsts lasts ids ≡ calls.after_add (before_mut count firsts lasts ids) period id }
{
    let n = add_answer(count, firsts, lasts, ids, period, id)?;
    let e = Entry {
        first: period.first,
        last: period.last,
        id,
    };
    let at = rank(count, firsts, lasts, ids, e);
    insert_row(firsts, lasts, ids, *count, at, e);
    *count = n;
    Ok(n)
}

// What a removal answers.
fn remove_answer(
    count: &usize,
    firsts: &[i32],
    lasts: &[i32],
    ids: &[u32],
    id: u32,
) -> Result<usize, Refusal>
    requires { spec.Wide (lent count firsts lasts ids) }
    ensures { result ≡ calls.remove_answer (before count firsts lasts ids) id }
{
    if !sound(count, firsts, lasts, ids) {
        return refused(Kind::BadChronology);
    }
    if find(ids, 0, *count, id) < *count {
        return Ok(*count - 1);
    }
    refused(Kind::UnknownEntry)
}

// A removal.
fn remove_entry(
    count: &mut usize,
    firsts: &mut [i32],
    lasts: &mut [i32],
    ids: &mut [u32],
    id: u32,
) -> Result<usize, Refusal>
    requires { spec.Wide (lent_mut count firsts lasts ids) }
    ensures value { result ≡ calls.remove_answer (before_mut count firsts lasts ids) id }
    ensures ids_value { after count firsts lasts ids ≡ calls.after_remove (before_mut count firsts lasts ids) id }
{
    let left = remove_answer(count, firsts, lasts, ids, id)?;
    let at = find(ids, 0, *count, id);
    remove_row(firsts, lasts, ids, *count, at);
    *count = left;
    Ok(left)
}

// What asking for the count answers.
fn count_answer(count: &usize, firsts: &[i32], lasts: &[i32], ids: &[u32]) -> Result<usize, Refusal>
    requires { spec.Wide (lent count firsts lasts ids) }
    ensures { result ≡ calls.count_answer (before count firsts lasts ids) }
{
    if sound(count, firsts, lasts, ids) {
        return Ok(*count);
    }
    refused(Kind::BadChronology)
}

// Three numbers of an entry: its first and its last day, and its identifier.
fn put_entry(e: Entry, out: &mut [i64], at: usize)
    requires { at + 3 ≤ length out.old }
    ensures { out.new ≡ sets out.old at (entries.listed (e ∷ [])) }
{
    out[at] = e.first as i64;
    out[at + 1] = e.last as i64;
    out[at + 2] = e.id as i64;
}

// All entries, at the front of the lent numbers.
fn put_entries(count: &usize, firsts: &[i32], lasts: &[i32], ids: &[u32], out: &mut [i64])
    requires { (count.now ≤ 512) × spec.Wide (lent count firsts lasts ids) × (3 * count.now ≤ length out.old) }
    ensures { out.new ≡ sets out.old 0 (entries.listed (spec.contents (before count firsts lasts ids))) }
{
    for i in 0..*count {
        let e = entry_at(firsts, lasts, ids, i);
        put_entry(e, out, 3 * i);
    }
}

// What a listing answers, with so much room.
fn list_answer(
    count: &usize,
    firsts: &[i32],
    lasts: &[i32],
    ids: &[u32],
    room: usize,
) -> Result<usize, Refusal>
    requires { spec.Wide (lent count firsts lasts ids) }
    ensures { result ≡ calls.list_answer (before count firsts lasts ids) room }
{
    if !sound(count, firsts, lasts, ids) {
        return refused(Kind::BadChronology);
    }
    if 3 * *count <= room {
        return Ok(*count);
    }
    refused(Kind::NoRoom)
}

// A listing.
fn list_entries(
    count: &usize,
    firsts: &[i32],
    lasts: &[i32],
    ids: &[u32],
    out: &mut [i64],
) -> Result<usize, Refusal>
    requires { spec.Wide (lent count firsts lasts ids) }
    ensures value { result ≡ calls.list_answer (before count firsts lasts ids) (length out.old) }
    ensures out_after { out.new ≡ calls.after_list (before count firsts lasts ids) out.old }
{
    let n = list_answer(count, firsts, lasts, ids, out.len())?;
    put_entries(count, firsts, lasts, ids, out);
    Ok(n)
}

// ---- is anything dated in a period

// Whether an entry touches a period: they have a day in common.
fn touches(period: Period, e: Entry) -> bool
    ensures { result ≡ asked.touches period e }
{
    e.first <= period.last && period.first <= e.last
}

// Whether a walk stops at an entry: it touches the period or begins after it.
fn stops(period: Period, e: Entry) -> bool
    ensures { result ≡ asked.stops period e }
{
    touches(period, e) || period.last < e.first
}

// The place of the first entry at which a walk stops; the count if there is none.
fn stop_at(count: &usize, firsts: &[i32], lasts: &[i32], ids: &[u32], period: Period) -> usize
    requires { (count.now ≤ 512) × spec.Wide (lent count firsts lasts ids) }
    ensures { (result ≡ asked.stop_at period (spec.contents (before count firsts lasts ids))) × (result ≤ count.now) }
{
    for i in 0..*count {
        let e = entry_at(firsts, lasts, ids, i);
        if stops(period, e) {
            return i;
        }
    }
    *count
}

// The walk: the entry at which it stops decides, and none behind it is read.
fn walk(
    count: &usize,
    firsts: &[i32],
    lasts: &[i32],
    ids: &[u32],
    period: Period,
) -> Result<(bool, usize), Refusal>
    requires { (count.now ≤ 512) × spec.Wide (lent count firsts lasts ids) }
    ensures { result ≡ inside.walked (before count firsts lasts ids) period }
{
    let at = stop_at(count, firsts, lasts, ids, period);
    if at < *count {
        let e = entry_at(firsts, lasts, ids, at);
        return Ok((touches(period, e), at + 1));
    }
    Ok((false, *count))
}

// The question.
fn asked_entries(
    count: &usize,
    firsts: &[i32],
    lasts: &[i32],
    ids: &[u32],
    period: Period,
) -> Result<(bool, usize), Refusal>
    requires { spec.Wide (lent count firsts lasts ids) }
    ensures { result ≡ asked.reply (before count firsts lasts ids) period }
{
    if !sound(count, firsts, lasts, ids) {
        return untold(Kind::BadChronology);
    }
    if !good_period(period) {
        return untold(Kind::BadPeriod);
    }
    walk(count, firsts, lasts, ids, period)
}

// ---- the calls, on a store as callers lend it

// Adds an entry, and answers how many there are then. A refusal changes nothing.
pub fn add(
    count: &mut usize,
    firsts: &mut [i32; 512],
    lasts: &mut [i32; 512],
    ids: &mut [u32; 512],
    period: Period,
    id: u32,
) -> Result<usize, Refusal>
    ensures value { result ≡ calls.add_answer (before_mut count firsts lasts ids) period id }
    ensures ids_value { after count firsts lasts ids ≡ calls.after_add (before_mut count firsts lasts ids) period id }
{
    add_entry(count, firsts, lasts, ids, period, id)
}

// Removes the entry of an identifier, and answers how many there are then. A refusal changes nothing.
pub fn remove(
    count: &mut usize,
    firsts: &mut [i32; 512],
    lasts: &mut [i32; 512],
    ids: &mut [u32; 512],
    id: u32,
) -> Result<usize, Refusal>
    ensures value { result ≡ calls.remove_answer (before_mut count firsts lasts ids) id }
    ensures ids_value { after count firsts lasts ids ≡ calls.after_remove (before_mut count firsts lasts ids) id }
{
    remove_entry(count, firsts, lasts, ids, id)
}

// How many entries there are.
pub fn count(
    count: &usize,
    firsts: &[i32; 512],
    lasts: &[i32; 512],
    ids: &[u32; 512],
) -> Result<usize, Refusal>
    ensures { result ≡ calls.count_answer (before count firsts lasts ids) }
{
    count_answer(count, firsts, lasts, ids)
}

// Lists the entries in order, three numbers each, and answers how many. A refusal stores nothing.
pub fn list(
    count: &usize,
    firsts: &[i32; 512],
    lasts: &[i32; 512],
    ids: &[u32; 512],
    out: &mut [i64],
) -> Result<usize, Refusal>
    ensures value { result ≡ calls.list_answer (before count firsts lasts ids) (length out.old) }
    ensures out_after { out.new ≡ calls.after_list (before count firsts lasts ids) out.old }
{
    list_entries(count, firsts, lasts, ids, out)
}

// Whether anything is dated in a period, and how many entries were read to tell.
pub fn any_dated(
    count: &usize,
    firsts: &[i32; 512],
    lasts: &[i32; 512],
    ids: &[u32; 512],
    period: Period,
) -> Result<(bool, usize), Refusal>
    ensures { result ≡ asked.reply (before count firsts lasts ids) period }
{
    asked_entries(count, firsts, lasts, ids, period)
}
