//! The faults of a save text, as those of a run.

ghost use Rattle.std.specs.Prelude.{◌≡◌};
ghost use Rattle.osm_runs.specs.Checking.{read_fault_of, write_fault_of};

use crate::fault::{FileName, RunFault};
use osm_merge::fault::MergeFault;

/// Translates the fault of a save text into that of a run that only reads the save.
pub fn read_fault(fault: MergeFault) -> RunFault
    ensures { result ≡ read_fault_of fault }
{
    match fault {
        MergeFault::ReadFault | MergeFault::WriteFault => RunFault::ReadFault(FileName::Save),
        MergeFault::WantOfMemory => RunFault::WantOfMemory,
        MergeFault::NoSave => RunFault::Absent(FileName::Save),
        MergeFault::BadSave { line } => RunFault::BadSave(line),
        MergeFault::LongLine | MergeFault::TooLarge => RunFault::TooLarge(FileName::Save),
        MergeFault::Changed => RunFault::Changed(FileName::Save),
    }
}

/// Translates the fault of a save text into that of a run that also writes the save.
pub fn write_fault(fault: MergeFault) -> RunFault
    ensures { result ≡ write_fault_of fault }
{
    match fault {
        MergeFault::WriteFault => RunFault::WriteFault(FileName::Save),
        _ => read_fault(fault),
    }
}
