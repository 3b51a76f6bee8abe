//! The faults of a save and its journal as those of a run.

ghost use Rattle.std.specs.Prelude.{◌≡◌};
ghost use Rattle.osm_runs.specs.Keeping.{kept_fault_of};

use crate::fault::{FileName, RunFault};
use osm_kept::fault::KeptFault;

/// Translates the fault of a save and its journal into that of a run.
pub fn kept_fault(fault: KeptFault) -> RunFault
    ensures { result ≡ kept_fault_of fault }
{
    match fault {
        KeptFault::JournalFailed => RunFault::ReadFault(FileName::Journal),
        KeptFault::JournalTooLarge => RunFault::TooLarge(FileName::Journal),
        KeptFault::BadJournal(line) => RunFault::BadJournal(line),
        KeptFault::OtherJournal(number) => RunFault::OtherJournal(number),
        KeptFault::SaveFailed => RunFault::ReadFault(FileName::Save),
        KeptFault::BadSave(line) => RunFault::BadSave(line),
        KeptFault::Changed => RunFault::Changed(FileName::Save),
        KeptFault::WantOfMemory => RunFault::WantOfMemory,
    }
}
