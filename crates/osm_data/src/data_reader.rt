//! Reading a data file in blocks, whatever its form.

ghost use Rattle.std.specs.Prelude.{◌≡◌, ◌+◌, ◌<◌, ◌≤◌, ℕ, List, [], length, IfErr, IfOk};
ghost use Rattle.std.specs.Prelude.{IsSome, OnOk, false};
ghost use Rattle.osm_model.specs.Change.{ChangeValue};
ghost use Rattle.osm_model.specs.ChangeForm.{SpellsNothing};
ghost use Rattle.osm_model.specs.Data.{IsData};
ghost use Rattle.osm_store.specs.Files.{Spends};
ghost use Rattle.osm_store.specs.Frames.{IsKnown, MakesAtMost};
ghost use Rattle.osm_blocks.specs.Calls.{Advances};
ghost use Rattle.osm_blocks.specs.Frames.{ReadsOften};
ghost use Rattle.osm_blocks.specs.Places.{HasFile};
ghost use Rattle.osm_data.specs.Counting.{CountStops, IsCountOf, chosen_objects, count_calls};
ghost use Rattle.osm_data.specs.Reading.{EndsOrGoesOn, IsDeviceFault, NextStops, OpenStops};
ghost use Rattle.osm_data.specs.Reading.{read_calls};
ghost use Rattle.osm_data.specs.Sinks.{AreNext};

use crate::fault::DataFault;
use crate::object_sink::ObjectSink;
use osm_model::filter::Filter;
use osm_store::store::Store;
use std::alloc::Global;

/// A data file of one form, from which objects are read in order, some at a time.
pub trait DataReader: Sized {
    /// The bytes spell the objects.
    ghost spells: { List ℕ → List ChangeValue → Type 0 };

    /// The bytes spell no objects, and go wrong at that place.
    ghost goes_wrong: { List ℕ → ℕ → Type 0 };

    /// The bytes have a line or a dataset of more than 64 MiB.
    ghost is_long: { List ℕ → Type 0 };

    /// So far, those objects of a file were read.
    ghost has_read: { Self → List ℕ → List ChangeValue → Type 0 };

    /// Falls with each call that reads objects, whatever the store does.
    ghost ahead: { Self → ℕ };

    /// The most bytes of a file that are left.
    ghost bytes_left: { Self → List ℕ → ℕ };

    /// The most calls of the store that are still to come.
    ghost calls_ahead: { Self → List ℕ → ℕ };

    /// Opens a data file, before the first of its objects.
    fn open<S: Store>(alloc: Global, store: &mut S, name: &str) -> Result<Self, DataFault>
        ensures opened { IfOk result (λ reader. (file : List ℕ)
            → HasFile (S.state store.old) name.now file → has_read reader file []) }
        ensures there { IfOk result (λ reader. IsKnown (S.state store.old)
            → IsSome ((S.state store.old).files name.now)) }
        ensures left { IfOk result (λ reader. (file : List ℕ)
            → HasFile (S.state store.old) name.now file → bytes_left reader file ≤ length file) }
        ensures ahead { IfOk result (λ reader. (file : List ℕ)
            → HasFile (S.state store.old) name.now file
            → calls_ahead reader file + 1 ≤ read_calls (length file)) }
        ensures stops { IfErr result
            (OpenStops goes_wrong is_long (S.state store.old) name.now) }
        ensures stage { (S.state store.new).stage ≡ (S.state store.old).stage }
        ensures frame { ReadsOften IsDeviceFault (S.state store.old) (S.state store.new) result }
        ensures calls { MakesAtMost IsDeviceFault 1 (S.state store.old) (S.state store.new) result }
        ensures spends { OnOk result (Spends 1 (S.state store.old).left (S.state store.new).left) };

    /// Reads the next objects and gives them to a sink; false at the end of the file.
    fn next<S: Store, K: ObjectSink>(
        &mut self,
        alloc: Global,
        store: &mut S,
        name: &str,
        sink: &mut K,
    ) -> Result<bool, DataFault>
        ensures read { IfOk result (λ is_more. (file : List ℕ) (done : List ChangeValue)
            → HasFile (S.state store.old) name.now file → has_read self.old file done
            → EndsOrGoesOn (spells file done) (AreNext (has_read self.new file)
            (λ objects. K.takes sink.old objects sink.new) done) is_more) }
        ensures ended { IfOk result (λ is_more. is_more ≡ false → sink.new ≡ sink.old) }
        ensures falls { IfOk result
            (EndsOrGoesOn (Unit {0}) (ahead self.new < ahead self.old)) }
        ensures fewer { IfOk result (λ is_more. (file : List ℕ) (done : List ChangeValue)
            → HasFile (S.state store.old) name.now file → has_read self.old file done
            → EndsOrGoesOn (Unit {0})
            (bytes_left self.new file < bytes_left self.old file) is_more) }
        ensures stops { IfErr result (λ fault. (file : List ℕ) (done : List ChangeValue)
            → HasFile (S.state store.old) name.now file → has_read self.old file done
            → NextStops goes_wrong is_long file fault) }
        ensures stage { (S.state store.new).stage ≡ (S.state store.old).stage }
        ensures frame { ReadsOften IsDeviceFault (S.state store.old) (S.state store.new) result }
        ensures calls { (file : List ℕ) → HasFile (S.state store.old) name.now file
            → Advances IsDeviceFault (calls_ahead self.old file)
            (λ _. calls_ahead self.new file)
            (S.state store.old) (S.state store.new) result };

    /// Counts the objects of a whole file whose kinds the filter chooses, whatever its keys. The
    /// objects aren't read, so a file that spells no objects may give any number.
    fn count_chosen<S: Store>(
        alloc: Global,
        store: &mut S,
        name: &str,
        filter: &Filter,
    ) -> Result<u64, DataFault>
        ensures counted { IfOk result (λ count. (file : List ℕ) (objects : List ChangeValue)
            → HasFile (S.state store.old) name.now file → spells file objects
            → IsCountOf count (chosen_objects filter.now objects)) }
        ensures stops { IfErr result (CountStops (S.state store.old) name.now) }
        ensures stage { (S.state store.new).stage ≡ (S.state store.old).stage }
        ensures frame { ReadsOften IsDeviceFault (S.state store.old) (S.state store.new) result }
        ensures spends { OnOk result (Spends 1 (S.state store.old).left (S.state store.new).left) }
        ensures calls { IsKnown (S.state store.old) → MakesAtMost IsDeviceFault
            (count_calls ((S.state store.old).files name.now))
            (S.state store.old) (S.state store.new) result };

    /// Tells the prover the laws of the form. Does nothing at run time.
    fn laws()
        ensures data { (bytes : List ℕ) (objects : List ChangeValue)
            → spells bytes objects → IsData objects }
        ensures one_list { (bytes : List ℕ) (a b : List ChangeValue)
            → spells bytes a → spells bytes b → a ≡ b }
        ensures nothing { (bytes : List ℕ) (place : ℕ)
            → goes_wrong bytes place → SpellsNothing spells bytes };
}
