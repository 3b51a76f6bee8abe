//! The line of a save that is looked for, found by halving the bytes of the save.

ghost use Rattle.std.specs.Prelude.{◌≡◌, ◌≢◌, ℕ, ◌+◌, ◌-◌, ◌/◌, ◌≤◌, ◌<◌, List, IfErr, IfOk};
ghost use Rattle.std.specs.Prelude.{IfSome, IsTrue, None, drop, false, length};
ghost use Rattle.osm_blocks.specs.Frames.{ReadsOften};
ghost use Rattle.osm_blocks.specs.Places.{HasFile};
ghost use Rattle.osm_save.specs.declared.save.Saved.{Saved};
ghost use Rattle.osm_asking.specs.Finding.{IsSpot, IsWhole, StandsAt};
ghost use Rattle.osm_asking.specs.Lines.{HasLines};
ghost use Rattle.osm_asking.specs.Reads.{HasShortLines, IsPlainText, NoneBegins, most_reads};
ghost use Rattle.osm_asking.specs.Refusal.{IsFailed};
ghost use Rattle.osm_asking.specs.Steps.Passing.{HasSide, IsSide, IsSided, IsStarted, IsStartedAt};
ghost use Rattle.osm_asking.specs.Steps.Scanning.{FoundStops, FurtherStops, IsFoundIn, IsOfBytes};
ghost use Rattle.osm_asking.specs.Steps.Scanning.{GoesFar, IsFurther, IsLineIn, IsScanned};
ghost use Rattle.osm_asking.specs.Steps.Reading.{IsBlockIn, ReadsFew};
ghost use Rattle.osm_asking.specs.Steps.Searching.{FindsFrom, FindStops, IsAfter, IsLow, IsMoved};
ghost use Rattle.osm_asking.specs.Steps.Searching.{IsNear, IsProbe, IsStep};
ghost use Rattle.osm_asking.specs.Steps.Searching.{LiesAt, LyingStops, ProbeStops, ScanStops};
ghost use Rattle.osm_asking.specs.declared.fault.SearchFault.TheVariants.{BadLine};
ghost use Rattle.osm_asking.specs.declared.find.Scanned.TheVariants.{Further};
ghost use Rattle.osm_reading.specs.Pieces.{cut_at};
ghost use Rattle.osm_store.specs.Frames.{MakesAtMost, StoreState};

use crate::block::{BLOCK, read_block};
use crate::fault::SearchFault;
use crate::passing::pass_lines;
pub use crate::side::Wanted;
use crate::side::{side_of, side_of_start};
use osm_reading::pieces::cut;
use osm_save::lines::next_line;
use osm_store::store::Store;
use std::alloc::{AllocError, Global};
use std::cmp::Ordering;

/// The line that was found: the one that is wanted if it is there, otherwise the first one after
/// it, of which only the place counts.
#[derive(Drop)]
pub struct Spot {
    /// The byte, counted from 0, at which the line begins.
    pub place: u64,
    /// The line that is wanted, without its LF; empty if it isn't there.
    pub line: Vec<u8>,
    pub is_there: bool,
}

// Between which places a search goes on.
#[derive(Clone, Copy)]
struct Ends {
    // The place of a line: all lines before it come before what is wanted.
    low: u64,
    // A place after which no line has to be looked at, except for the first one.
    high: u64,
    // A place after which no line begins.
    end: u64,
}

// What the lines of a block came to.
#[derive(Drop)]
enum Scanned {
    // The line was found.
    Found(Spot),
    // All of them come before what is wanted, and the next one begins at that place.
    Further(u64),
}

/// Finds a line of a save. `start` is the place of the first line after the number of the objects.
/// `end` is a place after which no line begins, or `u64::MAX` if none is known; it is lowered if
/// one is found.
///
/// At most 57 blocks are read of a save of up to 2^40 bytes, unless a line has more than 16,352
/// bytes, 32 fewer than a block. Blocks are read at places that double, then at those that halve
/// what is between, where the first bytes of a line are enough, and at last the lines that are left
/// are read one by one.
pub fn find_line<S: Store>(
    alloc: Global,
    store: &mut S,
    name: &str,
    start: u64,
    wanted: Wanted,
    end: &mut u64,
) -> Result<Spot, SearchFault>
    ensures found { IfOk result (λ spot. (file : List ℕ) (v : Saved)
        → HasFile (S.state store.old) name.now file → HasLines file start v
        → IsSpot wanted v file spot) }
    ensures whole { IfOk result (λ spot. (file : List ℕ)
        → HasFile (S.state store.old) name.now file → IsWhole file spot) }
    ensures stops { IfErr result (FindStops (S.state store.old) name.now start) }
    ensures frame { ReadsOften IsFailed (S.state store.old) (S.state store.new) result }
    ensures calls { (file : List ℕ) (v : Saved)
        → IsPlainText (S.state store.old) name.now start file v → NoneBegins file end.old
        → MakesAtMost IsFailed most_reads (S.state store.old) (S.state store.new) result }
    ensures ended { (file : List ℕ) (v : Saved)
        → IsPlainText (S.state store.old) name.now start file v → NoneBegins file end.old
        → NoneBegins file end.new }
{
    let ends = match narrow(alloc, store, name, start, wanted, *end) {
        Ok(ends) => ends,
        Err(fault) => return Err(fault),
    };
    *end = ends.end;
    match scan(alloc, store, name, ends.low, wanted) {
        Ok(spot) => Ok(spot),
        Err(fault) => Err(fault),
    }
}

// The most steps of a search: each doubles the distance, or halves what is between.
const MOST_STEPS: u32 = 120;

// Brings the ends of a search together, until no more than a block is between them.
fn narrow<S: Store>(
    alloc: Global,
    store: &mut S,
    name: &str,
    start: u64,
    wanted: Wanted,
    end: u64,
) -> Result<Ends, SearchFault>
    ensures low { IfOk result (λ ends. IsLow (S.state store.old) name.now start wanted ends.low) }
    ensures stops { IfErr result (FindStops (S.state store.old) name.now start) }
    ensures frame { ReadsOften IsFailed (S.state store.old) (S.state store.new) result }
    ensures calls { (file : List ℕ) (v : Saved)
        → IsPlainText (S.state store.old) name.now start file v → NoneBegins file end
        → MakesAtMost IsFailed 53 (S.state store.old) (S.state store.new) result }
    ensures near { IfOk result (λ ends. (file : List ℕ) (v : Saved)
        → IsPlainText (S.state store.old) name.now start file v → NoneBegins file end
        → IsNear wanted v file ends.low) }
    ensures ended { IfOk result (λ ends. (file : List ℕ) (v : Saved)
        → IsPlainText (S.state store.old) name.now start file v → NoneBegins file end
        → NoneBegins file ends.end) }
{
    let mut ends = Ends {
        low: start,
        high: end,
        end,
    };
    let mut distance = BLOCK;
    for _ in 0..MOST_STEPS {
        if ends.high.saturating_sub(ends.low) <= BLOCK {
            return Ok(ends);
        }
        let middle = middle_of(ends, distance);
        ends = match step(alloc, store, name, ends, middle, wanted) {
            Ok(ends) => ends,
            Err(fault) => return Err(fault),
        };
        distance = distance.saturating_mul(2);
    }
    Ok(ends)
}

// Where to look next: at that distance if the file's end isn't known, otherwise half way between.
fn middle_of(ends: Ends, distance: u64) -> u64
    ensures above { ends.low ≤ result }
    ensures grown { ends.high ≡ 18446744073709551615 → ends.low + distance ≤ 18446744073709551615
        → result ≡ ends.low + distance }
    ensures halved { ends.high ≢ 18446744073709551615
        → result ≡ ends.low + (ends.high - ends.low) / 2 }
{
    if ends.high == u64::MAX {
        return ends.low.saturating_add(distance);
    }
    let between = ends.high.saturating_sub(ends.low);
    ends.low.saturating_add(between / 2)
}

// Looks at the first line that begins after a place, and moves one of the ends.
fn step<S: Store>(
    alloc: Global,
    store: &mut S,
    name: &str,
    ends: Ends,
    middle: u64,
    wanted: Wanted,
) -> Result<Ends, SearchFault>
    requires middle { ends.low ≤ middle }
    ensures low { IfOk result (λ new. (start : ℕ)
        → IsLow (S.state store.old) name.now start wanted ends.low
        → IsLow (S.state store.old) name.now start wanted new.low) }
    ensures step { IfOk result (IsStep (S.state store.old) name.now wanted ends middle) }
    ensures stops { IfErr result (ProbeStops (S.state store.old) name.now middle wanted) }
    ensures frame { ReadsOften IsFailed (S.state store.old) (S.state store.new) result }
    ensures few { ReadsFew 1 (S.state store.old) (S.state store.new) name.now result }
{
    let probed = match probe(alloc, store, name, middle, wanted) {
        Ok(probed) => probed,
        Err(fault) => return Err(fault),
    };
    Ok(moved(ends, middle, probed))
}

// The ends after a line was looked at.
fn moved(ends: Ends, middle: u64, probed: Option<(u64, Ordering)>) -> Ends
    ensures { IsMoved ends middle probed result }
{
    let Ends { low, high, end } = ends;
    match probed {
        None => Ends {
            low,
            high: middle,
            end: middle,
        },
        Some((_, Ordering::Greater)) => Ends {
            low,
            high: middle,
            end,
        },
        Some((place, Ordering::Equal)) => Ends {
            low: place,
            high: place,
            end,
        },
        Some((place, Ordering::Less)) => Ends {
            low: place,
            high,
            end,
        },
    }
}

// Where the first line begins after a place, and where it lies; None if none begins.
fn probe<S: Store>(
    alloc: Global,
    store: &mut S,
    name: &str,
    from: u64,
    wanted: Wanted,
) -> Result<Option<(u64, Ordering)>, SearchFault>
    ensures probed { IfOk result (IsProbe (S.state store.old) name.now from wanted) }
    ensures stops { IfErr result (ProbeStops (S.state store.old) name.now from wanted) }
    ensures frame { ReadsOften IsFailed (S.state store.old) (S.state store.new) result }
    ensures few { ReadsFew 1 (S.state store.old) (S.state store.new) name.now result }
{
    let block = match read_block(alloc, store, name, from) {
        Ok(block) => block,
        Err(fault) => return Err(fault),
    };
    let (skipped, after) = match next_line(block.as_slice()) {
        Ok(cut) => cut,
        Err(_stop) => return Ok(None),
    };
    let Some(place) = place_after(from, skipped.len()) else {
        return Ok(None);
    };
    let is_last = (block.len() as u64) < BLOCK;
    match probe_after(alloc, store, name, after, place, is_last, wanted) {
        Ok(probed) => Ok(probed),
        Err(fault) => Err(fault),
    }
}

// So many bytes of a line have the key of its object, if it has one.
const STARTED: usize = 32;

// Where the line lies that begins at a place, from which on those bytes were read, which are all
// that are left if `is_last`; None if it has no end. Its first bytes are enough.
fn probe_after<S: Store>(
    alloc: Global,
    store: &mut S,
    name: &str,
    after: &[u8],
    place: u64,
    is_last: bool,
    wanted: Wanted,
) -> Result<Option<(u64, Ordering)>, SearchFault>
    ensures probed { IfOk result (λ o. IsAfter (S.state store.old) name.now place after.now is_last
        → LiesAt (S.state store.old) name.now place wanted o) }
    ensures stops { IfErr result (λ fault.
        IsAfter (S.state store.old) name.now place after.now is_last
        → LyingStops (S.state store.old) name.now place wanted fault) }
    ensures frame { ReadsOften IsFailed (S.state store.old) (S.state store.new) result }
    ensures idle { (is_last ≡ false → 32 ≤ length after.now)
        → MakesAtMost IsFailed 0 (S.state store.old) (S.state store.new) result }
{
    match next_line(after) {
        Ok(cut) => return sided(cut.0, place, wanted),
        Err(_stop) => {}
    }
    if is_last {
        return Ok(None);
    }
    if after.len() >= STARTED {
        return sided_start(after, place, wanted);
    }
    match probe_line(alloc, store, name, place, wanted) {
        Ok(probed) => Ok(probed),
        Err(fault) => Err(fault),
    }
}

// Where the line lies that begins at a place; None if it has no end.
fn probe_line<S: Store>(
    alloc: Global,
    store: &mut S,
    name: &str,
    place: u64,
    wanted: Wanted,
) -> Result<Option<(u64, Ordering)>, SearchFault>
    ensures probed { IfOk result (LiesAt (S.state store.old) name.now place wanted) }
    ensures stops { IfErr result (LyingStops (S.state store.old) name.now place wanted) }
    ensures frame { ReadsOften IsFailed (S.state store.old) (S.state store.new) result }
{
    let block = match read_block(alloc, store, name, place) {
        Ok(block) => block,
        Err(fault) => return Err(fault),
    };
    let (line, _after) = match next_line(block.as_slice()) {
        Ok(cut) => cut,
        Err(_stop) => return Ok(None),
    };
    sided(line, place, wanted)
}

// Where a line lies, with its place.
fn sided(line: &[u8], place: u64, wanted: Wanted) -> Result<Option<(u64, Ordering)>, SearchFault>
    ensures is { IfOk result (IsSided wanted line.now place) }
    ensures stops { IfErr result (λ fault. (fault ≡ BadLine place)
        × IsSide wanted line.now None) }
{
    match side_of(line, wanted) {
        Some(side) => Ok(Some((place, side))),
        None => Err(SearchFault::BadLine(place)),
    }
}

// The same of a line of which only these first bytes were read.
fn sided_start(
    start: &[u8],
    place: u64,
    wanted: Wanted,
) -> Result<Option<(u64, Ordering)>, SearchFault>
    requires { 32 ≤ length start.now }
    ensures is { IfOk result (IsStartedAt wanted start.now place) }
    ensures stops { IfErr result (λ fault. (fault ≡ BadLine place)
        × IsStarted wanted start.now None) }
{
    match side_of_start(start, wanted) {
        Some(side) => Ok(Some((place, side))),
        None => Err(SearchFault::BadLine(place)),
    }
}

// The place after so many bytes and an LF; None if 64 bits don't count it.
fn place_after(from: u64, count: usize) -> Option<u64>
    ensures after { IfSome result (λ after. after ≡ from + count + 1) }
    ensures none { result ≡ None → 18446744073709551615 < from + count + 1 }
{
    from.checked_add(count as u64)?.checked_add(1)
}

// Reads lines from a place on, until one doesn't come before what is wanted.
fn scan<S: Store>(
    alloc: Global,
    store: &mut S,
    name: &str,
    low: u64,
    wanted: Wanted,
) -> Result<Spot, SearchFault>
    ensures found { IfOk result (FindsFrom (S.state store.old) name.now low wanted) }
    ensures whole { IfOk result (λ spot. (file : List ℕ)
        → HasFile (S.state store.old) name.now file → IsWhole file spot) }
    ensures stops { IfErr result (ScanStops (S.state store.old) name.now low wanted) }
    ensures frame { ReadsOften IsFailed (S.state store.old) (S.state store.new) result }
    ensures calls { (file : List ℕ) (v : Saved) → HasFile (S.state store.old) name.now file
        → HasShortLines 16352 file → StandsAt wanted v (drop low file) → IsNear wanted v file low
        → MakesAtMost IsFailed 4 (S.state store.old) (S.state store.new) result }
{
    let mut place = low;
    for _ in 0..u64::MAX {
        let scanned = match scan_block(alloc, store, name, place, wanted) {
            Ok(scanned) => scanned,
            Err(fault) => return Err(fault),
        };
        match scanned {
            Scanned::Found(spot) => return Ok(spot),
            Scanned::Further(next) => place = next,
        }
    }
    Err(SearchFault::TooLarge)
}

// Reads the lines of the block at a place.
fn scan_block<S: Store>(
    alloc: Global,
    store: &mut S,
    name: &str,
    place: u64,
    wanted: Wanted,
) -> Result<Scanned, SearchFault>
    ensures scanned { IfOk result (IsScanned (S.state store.old) name.now place wanted) }
    ensures far { IfOk result (λ scanned. (file : List ℕ)
        → HasFile (S.state store.old) name.now file → HasShortLines 16352 file
        → GoesFar file place scanned) }
    ensures stops { IfErr result (ScanStops (S.state store.old) name.now place wanted) }
    ensures frame { ReadsOften IsFailed (S.state store.old) (S.state store.new) result }
    ensures few { ReadsFew 1 (S.state store.old) (S.state store.new) name.now result }
{
    let block = match read_block(alloc, store, name, place) {
        Ok(block) => block,
        Err(fault) => return Err(fault),
    };
    scan_bytes(alloc, block.as_slice(), place, wanted)
}

// What the lines of a block come to, which is that at the place of a file.
fn scan_bytes(
    alloc: Global,
    block: &[u8],
    place: u64,
    wanted: Wanted,
) -> Result<Scanned, SearchFault>
    ensures scanned { IfOk result (λ s. (state : StoreState) (name : List ℕ)
        → IsBlockIn state name place block.now → IsScanned state name place wanted s) }
    ensures further { IfOk result (IsFurther wanted place block.now) }
    ensures stops { IfErr result (λ fault. (state : StoreState) (name : List ℕ)
        → IsBlockIn state name place block.now → ScanStops state name place wanted fault) }
    ensures plain { IfErr result IsOfBytes }
{
    let (count, side) = match pass_lines(block, wanted) {
        Ok(passed) => passed,
        Err(count) => return Err(SearchFault::BadLine(place.saturating_add(count as u64))),
    };
    match side {
        None => further(place, count),
        Some(side) => found(alloc, left_of(block, count), place, count, side),
    }
}

// The bytes of a block after so many.
fn left_of(block: &[u8], count: usize) -> &[u8]
    requires { count ≤ length block.now }
    ensures { result.now ≡ drop count block.now }
{
    &block[count..]
}

// The place after the lines of a block, which has to have some.
fn further(place: u64, count: usize) -> Result<Scanned, SearchFault>
    ensures further { IfOk result (λ s. (s ≡ Further (place + count)) × (0 < count)) }
    ensures stops { IfErr result (FurtherStops place count) }
{
    if count == 0 {
        return Err(SearchFault::BadLine(place));
    }
    match place.checked_add(count as u64) {
        Some(next) => Ok(Scanned::Further(next)),
        None => Err(SearchFault::TooLarge),
    }
}

// The line that was found: the first one of the bytes, which are `count` bytes after the place.
fn found(
    alloc: Global,
    bytes: &[u8],
    place: u64,
    count: usize,
    side: Ordering,
) -> Result<Scanned, SearchFault>
    ensures found { IfOk result (IsFoundIn bytes.now (place + count) side) }
    ensures stops { IfErr result (FoundStops (place + count)) }
{
    let Some(at) = place.checked_add(count as u64) else {
        return Err(SearchFault::TooLarge);
    };
    match line_at(alloc, bytes, side) {
        Ok(line) => Ok(Scanned::Found(Spot {
            place: at,
            line,
            is_there: matches!(side, Ordering::Equal),
        })),
        Err(AllocError) => Err(SearchFault::WantOfMemory),
    }
}

// The first line of the bytes if that is the one that is wanted, otherwise nothing.
fn line_at(alloc: Global, bytes: &[u8], side: Ordering) -> Result<Vec<u8>, AllocError>
    ensures { IfOk result (λ line. IsLineIn bytes.now side line.items) }
{
    match side {
        Ordering::Equal => {
            let (line, _after) = cut(bytes, b'\n');
            Vec::from_slice(alloc, line)
        }
        _ => Ok(Vec::new(alloc)),
    }
}
