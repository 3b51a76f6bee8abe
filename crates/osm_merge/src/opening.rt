//! The head of a save text, read from its first block.

ghost use Rattle.std.specs.Prelude.{◌≡◌, ℕ, ◌+◌, ◌≤◌, List, length, IfErr, IfOk, OnOk};
ghost use Rattle.osm_model.specs.Limits.{max_sequence};
ghost use Rattle.osm_store.specs.Files.{Spends};
ghost use Rattle.osm_store.specs.Frames.{IsKnown, MakesAtMost};
ghost use Rattle.osm_blocks.specs.Calls.{reads_ahead};
ghost use Rattle.osm_blocks.specs.Places.{HasFile};
ghost use Rattle.osm_merge.specs.Calls.{AsksOnce, check_calls};
ghost use Rattle.osm_blocks.specs.Frames.{ReadsOften};
ghost use Rattle.osm_merge.specs.Faults.{IsDeviceFault};
ghost use Rattle.osm_merge.specs.Opening.{IsOpened, OpeningStops, ReadingStops, ReadsOpening};

use crate::fault::MergeFault;
use crate::source::Source;
use osm_model::filter::Filter;
use osm_save::head::{Head, read_head};
use osm_save::stop::Stop;
use osm_save::version::Version;
use osm_store::store::Store;
use std::alloc::Global;

/// What a save text begins with.
#[derive(Debug, Drop)]
pub struct Opening {
    pub version: Version,
    pub head: Head,
    pub filter: Filter,
}

/// Opens a save text, and reads its version, head and filter. The line after these is next.
pub fn open_save<S: Store>(
    alloc: Global,
    store: &mut S,
    name: &str,
) -> Result<(Source, Opening), MergeFault>
    ensures opened { IfOk result (λ r. IsKnown (S.state store.old)
        → IsOpened ((S.state store.old).files name.now) r.0 r.1) }
    ensures number { IfOk result (λ r. r.1.head.number ≤ max_sequence) }
    ensures base { IfOk result (λ r. r.1.head.base ≤ r.1.head.number) }
    ensures refused { IfErr result (λ fault. IsKnown (S.state store.old)
        → OpeningStops ((S.state store.old).files name.now) fault) }
    ensures stage { (S.state store.new).stage ≡ (S.state store.old).stage }
    ensures frame { ReadsOften IsDeviceFault (S.state store.old) (S.state store.new) result }
    ensures spends { OnOk result (Spends 1 (S.state store.old).left (S.state store.new).left) }
    ensures absent { IfErr result (λ fault.
        AsksOnce fault (S.state store.old).left (S.state store.new).left) }
    ensures calls { MakesAtMost IsDeviceFault 1 (S.state store.old) (S.state store.new) result }
    ensures ahead { IfOk result (λ r. (file : List ℕ) → HasFile (S.state store.old) name.now file
        → reads_ahead r.0 file + 1 ≤ check_calls (length file)) }
{
    let mut source = match Source::open(alloc, store, name) {
        Ok(source) => source,
        Err(fault) => return Err(fault),
    };
    match read_opening(alloc, &mut source) {
        Ok(opening) => Ok((source, opening)),
        Err(fault) => Err(fault),
    }
}

// Reads the head, and passes it.
fn read_opening(alloc: Global, source: &mut Source) -> Result<Opening, MergeFault>
    ensures read { IfOk result (ReadsOpening source.old source.new) }
    ensures number { IfOk result (λ opening. opening.head.number ≤ max_sequence) }
    ensures base { IfOk result (λ opening. opening.head.base ≤ opening.head.number) }
    ensures refused { IfErr result (ReadingStops source.old.unread) }
{
    match read_head(alloc, source.unread()) {
        Ok((version, head, filter, rest)) => {
            let count = source.unread().len() - rest.len();
            source.pass_lines(count);
            Ok(Opening {
                version,
                head,
                filter,
            })
        }
        Err(Stop::Wrong(left)) => Err(source.wrong_at(left)),
        Err(Stop::WantOfMemory) => Err(MergeFault::WantOfMemory),
    }
}
