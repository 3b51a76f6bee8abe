//! The counts of a save text with increments added to them, read one by one.

ghost use Rattle.std.specs.Prelude.{◌≡◌, ℕ, ◌≤◌, List, None, IfErr, IfOk, OnOk};
ghost use Rattle.std.specs.List.{AllByRecursion};
ghost use Rattle.osm_blocks.specs.Frames.{ReadsOften};
ghost use Rattle.osm_blocks.specs.Places.{HasFile, left_of};
ghost use Rattle.osm_merge.specs.Calls.{ReadsTo};
ghost use Rattle.osm_merge.specs.Faults.{IsDeviceFault};
ghost use Rattle.osm_merge.specs.Laying.{IsFew};
ghost use Rattle.osm_merge.specs.Reading.{Refuses};
ghost use Rattle.osm_merged.specs.Ahead.{Falls, Gives, GivesBy, IsGiven, counts_ahead};
ghost use Rattle.osm_merged.specs.Ahead.{most_ahead, most_in};
ghost use Rattle.osm_merged.specs.Steps.Turns.{Fills, IsFilled, KeepsAhead, Lessens};

use osm_merge::counts::{first_increment, next_count};
use osm_merge::fault::MergeFault;
use osm_merge::source::Source;
use osm_store::store::Store;
use std::alloc::Global;
use std::cmp::Ordering;
use std::marker::Model;

/// A reading of counts: where it stands, and the increments that aren't added yet.
#[derive(Drop)]
pub struct MergedCounts<'a> {
    increments: &'a [(u32, u64)],
    most: u64,
    lines: u64,
    last: Option<u32>,
    held: Option<(u32, u64)>,
}

impl<'a> Model for MergedCounts<'a> {
    ghost use Rattle.osm_merged.specs.Ahead.{CountsAhead};
    ghost use Rattle.osm_merged.specs.Steps.Room.{HaveRoom};

    ghost Value = { CountsAhead };

    ghost view = { λ a. record {
      most = a.most;
      ahead = record {
        changes = a.increments.now;
        lines = a.lines;
        last = a.last;
        held = a.held;
      };
    } };

    ghost invariant = { λ a. HaveRoom a.increments.now a.most a.held };
}

impl<'a> MergedCounts<'a> {
    /// Begins to read `lines` lines of counts, each count at most `most`, to which the increments
    /// are added. The numbers of the increments rise.
    pub fn new(increments: &'a [(u32, u64)], most: u64, lines: u64) -> MergedCounts<'a>
        requires few { AllByRecursion IsFew increments.now }
        requires most { most ≤ 999999999999999999 }
        ensures { result ≡ record {
          most = most;
          ahead = record {
            changes = increments.now;
            lines = lines;
            last = None;
            held = None;
          };
        } }
    {
        MergedCounts {
            increments,
            most,
            lines,
            last: None,
            held: None,
        }
    }

    /// Gives the next count with its increment added; None at the end. Each line that is read has
    /// to be a count of at most `most`, with a number above that of the line before. After a fault,
    /// the reading can't go on.
    pub fn next<S: Store>(
        &mut self,
        alloc: Global,
        store: &mut S,
        name: &str,
        source: &mut Source,
    ) -> Result<Option<(u32, u64)>, MergeFault>
        ensures given { (file : List ℕ) → HasFile (S.state store.old) name.now file
            → Gives file (left_of source.new file)
            (counts_ahead self.old (left_of source.old file))
            (counts_ahead self.new (left_of source.new file)) result }
        ensures exact { (file : List ℕ) → HasFile (S.state store.old) name.now file
            → IfOk result (GivesBy (λ bytes. counts_ahead self.old bytes)
            (λ bytes. counts_ahead self.new bytes)
            (left_of source.old file) (left_of source.new file)) }
        ensures fewer { IfOk result (Falls (most_ahead self.old.ahead)
            (most_ahead self.new.ahead)) }
        ensures shorter { (file : List ℕ) → HasFile (S.state store.old) name.now file
            → IfOk result (Falls (most_in self.old.ahead (left_of source.old file))
            (most_in self.new.ahead (left_of source.new file))) }
        ensures stage { (S.state store.new).stage ≡ (S.state store.old).stage }
        ensures frame { ReadsOften IsDeviceFault (S.state store.old) (S.state store.new) result }
        ensures calls { ReadsTo (S.state store.old) (S.state store.new) name.now source.old
            source.new result }
    {
        self.fill(alloc, store, name, source)?;
        Ok(self.first())
    }

    // Reads the next count of the save if none is held and a line is left.
    fn fill<S: Store>(
        &mut self,
        alloc: Global,
        store: &mut S,
        name: &str,
        source: &mut Source,
    ) -> Result<(), MergeFault>
        ensures filled { OnOk result (IsFilled self.new.ahead) }
        ensures fills { OnOk result (Fills self.old.ahead self.new.ahead) }
        ensures same { OnOk result ((file : List ℕ) → HasFile (S.state store.old) name.now file
            → KeepsAhead (λ bytes. counts_ahead self.old bytes)
            (λ bytes. counts_ahead self.new bytes)
            (left_of source.old file) (left_of source.new file)) }
        ensures refused { IfErr result (Refuses (S.state store.old) name.now source.old
            (counts_ahead self.old)) }
        ensures shorter { OnOk result ((file : List ℕ)
            → HasFile (S.state store.old) name.now file
            → most_in self.new.ahead (left_of source.new file)
            ≤ most_in self.old.ahead (left_of source.old file)) }
        ensures stage { (S.state store.new).stage ≡ (S.state store.old).stage }
        ensures frame { ReadsOften IsDeviceFault (S.state store.old) (S.state store.new) result }
        ensures calls { ReadsTo (S.state store.old) (S.state store.new) name.now source.old
            source.new result }
    {
        if self.held.is_some() || self.lines == 0 {
            return Ok(());
        }
        match next_count(alloc, store, name, source, self.most, self.last) {
            Ok(count) => {
                self.lines -= 1;
                self.last = Some(count.0);
                self.held = Some(count);
                Ok(())
            }
            Err(fault) => Err(fault),
        }
    }

    // What is next, if no line has to be read for that: the first increment goes before a count
    // that is held with a greater number, and is added to one with its own.
    fn first(&mut self) -> Option<(u32, u64)>
        requires { IsFilled self.old.ahead }
        ensures given { (bytes : List ℕ)
            → IsGiven bytes (counts_ahead self.old bytes) (counts_ahead self.new bytes) result }
        ensures fewer { Lessens self.old.ahead self.new.ahead result }
    {
        let Some((number, more, after)) = first_increment(self.increments) else {
            return self.held.take();
        };
        let Some(count) = self.held else {
            self.increments = after;
            return Some((number, more));
        };
        match number.cmp(&count.0) {
            Ordering::Less => {
                self.increments = after;
                Some((number, more))
            }
            Ordering::Equal => {
                self.increments = after;
                self.held = None;
                Some((count.0, more + count.1))
            }
            Ordering::Greater => {
                self.held = None;
                Some(count)
            }
        }
    }
}
