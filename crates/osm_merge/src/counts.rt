//! Merging a save text's counts of edits with increments.

ghost use Rattle.std.specs.Prelude.{◌≡◌, ℕ, ◌+◌, ◌≤◌, ◌∷◌, List, [], MatchOption};
ghost use Rattle.std.specs.Prelude.{None, Some, IfErr, IfOk, OnOk};
ghost use Rattle.std.specs.List.{AllByRecursion};
ghost use Rattle.osm_store.specs.Frames.{MakesAtMost};
ghost use Rattle.osm_blocks.specs.Calls.{puts_of};
ghost use Rattle.osm_merge.specs.Calls.{ReadsTo};
ghost use Rattle.osm_blocks.specs.Frames.{ReadsOften};
ghost use Rattle.osm_blocks.specs.Places.{HasFile, left_of};
ghost use Rattle.osm_net.specs.Laid.{added};
ghost use Rattle.osm_save.specs.Reading.{count_at};
ghost use Rattle.osm_save.specs.Save.{count_text};
ghost use Rattle.osm_merge.specs.Faults.{IsDeviceFault, IsPlain};
ghost use Rattle.osm_merge.specs.Laying.{Appends, IsFew, Lays, LaysRest, Writes, next_at};
ghost use Rattle.osm_merge.specs.Parts.{MergesPart, lines_part};
ghost use Rattle.osm_merge.specs.Reading.{Follows};

use crate::fault::{MergeFault, unwritten};
use crate::lists::CountList;
use crate::source::Source;
use osm_blocks::block_writer::BlockWriter;
use osm_model::memory::WantOfMemory;
use osm_save::counts::{read_count, write_count};
use osm_store::store::Store;
use std::alloc::Global;
use std::cmp::Ordering;

/// Passes the next line of a save text, which has to be a count, and gives its number and the
/// count. The count is at most `most`, and its number above `last`; any other line is refused.
pub fn next_count<S: Store>(
    alloc: Global,
    store: &mut S,
    name: &str,
    source: &mut Source,
    most: u64,
    last: Option<u32>,
) -> Result<(u32, u64), MergeFault>
    requires { most ≤ 999999999999999999 }
    ensures read { (file : List ℕ) → HasFile (S.state store.old) name.now file
        → Follows (λ c. c) file source.new result
        (next_at (count_at most) last (left_of source.old file)) }
    ensures limit { IfOk result (λ c. c.1 ≤ most) }
    ensures stage { (S.state store.new).stage ≡ (S.state store.old).stage }
    ensures frame { ReadsOften IsDeviceFault (S.state store.old) (S.state store.new) result }
    ensures calls { ReadsTo (S.state store.old) (S.state store.new) name.now source.old source.new
        result }
{
    let length = match source.next(alloc, store, name) {
        Ok(length) => length,
        Err(fault) => return Err(fault),
    };
    let Some(count) = read_count(last, most, source.line(length)) else {
        return Err(source.wrong());
    };
    source.pass(length);
    Ok(count)
}

/// Splits off the first increment: gives its number, its count, and the increments after it; None
/// if there is none.
pub fn first_increment(increments: &[(u32, u64)]) -> Option<(u32, u64, &[(u32, u64)])>
    ensures { MatchOption result (increments.now ≡ [])
        (λ r. increments.now ≡ (r.0, r.1) ∷ r.2.now) }
{
    let (increment, after) = increments.split_first()?;
    Some((increment.0, increment.1, after))
}

// Appends the lines of the increments up to the count's number, and that of the count, with the
// increment of its number if there is one. Gives the increments after that, and the number of
// lines.
fn lay_count<'a>(
    increments: &'a [(u32, u64)],
    count: (u32, u64),
    out: &mut Vec<u8>,
) -> Result<(&'a [(u32, u64)], u64), WantOfMemory>
    requires few { AllByRecursion IsFew increments.now }
    requires count { count.1 ≤ 999999999999999999 }
    ensures lays { IfOk result (λ r. Lays added count_text increments.now count r.0.now r.1
        (Appends out.old.items out.new.items)) }
    ensures few { IfOk result (λ r. AllByRecursion IsFew r.0.now) }
{
    let mut rest = increments;
    let mut many = 0;
    while let Some((number, more, after)) = first_increment(rest) {
        match number.cmp(&count.0) {
            Ordering::Less => {
                write_count(number, more, out)?;
                rest = after;
                many += 1;
            }
            Ordering::Equal => {
                write_count(count.0, more + count.1, out)?;
                return Ok((after, many + 1));
            }
            Ordering::Greater => {
                write_count(count.0, count.1, out)?;
                return Ok((rest, many + 1));
            }
        }
    }
    write_count(count.0, count.1, out)?;
    Ok((rest, many + 1))
}

// Appends the lines of the increments, and gives their number.
fn lay_rest(increments: &[(u32, u64)], out: &mut Vec<u8>) -> Result<u64, WantOfMemory>
    ensures { IfOk result (λ many. LaysRest added count_text increments.now many
        (Appends out.old.items out.new.items)) }
{
    let mut rest = increments;
    let mut many = 0;
    while let Some((number, more, after)) = first_increment(rest) {
        write_count(number, more, out)?;
        rest = after;
        many += 1;
    }
    Ok(many)
}

// Writes what `lay_count` appends.
fn put_count<'a, S: Store>(
    store: &mut S,
    writer: &mut BlockWriter,
    increments: &'a [(u32, u64)],
    count: (u32, u64),
    out: &mut Vec<u8>,
) -> Result<(&'a [(u32, u64)], u64), MergeFault>
    requires few { AllByRecursion IsFew increments.now }
    requires count { count.1 ≤ 999999999999999999 }
    ensures laid { IfOk result (λ r. Lays added count_text increments.now count r.0.now r.1
        (Writes (S.state store.old) writer.old (S.state store.new) writer.new)) }
    ensures few { IfOk result (λ r. AllByRecursion IsFew r.0.now) }
    ensures refused { IfErr result IsPlain }
    ensures frame { ReadsOften IsDeviceFault (S.state store.old) (S.state store.new) result }
    ensures calls { MakesAtMost IsDeviceFault (puts_of writer.old)
        (S.state store.old) (S.state store.new) result }
    ensures keeps { OnOk result (writer.new.is_writing ≡ writer.old.is_writing) }
{
    out.clear();
    let (rest, many) = match lay_count(increments, count, out) {
        Ok(laid) => laid,
        Err(WantOfMemory) => return Err(MergeFault::WantOfMemory),
    };
    match writer.put(store, out.as_slice()) {
        Ok(()) => Ok((rest, many)),
        Err(fault) => Err(unwritten(fault)),
    }
}

// Writes what `lay_rest` appends.
fn put_rest<S: Store>(
    store: &mut S,
    writer: &mut BlockWriter,
    increments: &[(u32, u64)],
    out: &mut Vec<u8>,
) -> Result<u64, MergeFault>
    ensures laid { IfOk result (λ many. LaysRest added count_text increments.now many
        (Writes (S.state store.old) writer.old (S.state store.new) writer.new)) }
    ensures refused { IfErr result IsPlain }
    ensures frame { ReadsOften IsDeviceFault (S.state store.old) (S.state store.new) result }
    ensures calls { MakesAtMost IsDeviceFault (puts_of writer.old)
        (S.state store.old) (S.state store.new) result }
    ensures keeps { OnOk result (writer.new.is_writing ≡ writer.old.is_writing) }
{
    out.clear();
    let many = match lay_rest(increments, out) {
        Ok(many) => many,
        Err(WantOfMemory) => return Err(MergeFault::WantOfMemory),
    };
    match writer.put(store, out.as_slice()) {
        Ok(()) => Ok(many),
        Err(fault) => Err(unwritten(fault)),
    }
}

/// Passes the lines of `many` counts of a list, writes the counts with the increments added to
/// them, and gives the number of counts written.
pub(crate) fn merge_counts<S: Store>(
    alloc: Global,
    store: &mut S,
    name: &str,
    source: &mut Source,
    writer: &mut BlockWriter,
    many: u64,
    list: &CountList<'_>,
) -> Result<u64, MergeFault>
    requires most { list.now.header.most ≤ 999999999999999999 }
    requires many { many ≤ 999999999999999999 }
    requires few { AllByRecursion IsFew list.now.increments.now }
    ensures { MergesPart name.now (lines_part added count_text (λ e. e.0)
        (count_at list.now.header.most) list.now.increments.now many) result
        (S.state store.old) source.old writer.old (S.state store.new) source.new writer.new }
{
    let mut out = Vec::new(alloc);
    let mut last = None;
    let mut rest = list.increments;
    let mut total: u64 = 0;
    for _ in 0..many {
        let count = match next_count(alloc, store, name, source, list.header.most, last) {
            Ok(count) => count,
            Err(fault) => return Err(fault),
        };
        let (after, put) = match put_count(store, writer, rest, count, &mut out) {
            Ok(laid) => laid,
            Err(fault) => return Err(fault),
        };
        last = Some(count.0);
        rest = after;
        total += put;
    }
    match put_rest(store, writer, rest, &mut out) {
        Ok(put) => Ok(total + put),
        Err(fault) => Err(fault),
    }
}
