//! What an audit without findings means for those who follow the folder or publish in it.

ghost use Rattle.osm_operations.specs.WholeFolders.{WholeIsFolder, WholeIsFollowed};
ghost use Rattle.osm_operations.specs.WholeFolders.{WholeIsPublishedIn, WholeIsReached};
ghost use Rattle.osm_operations.specs.WholeFolders.{WholeIsReadable};

use osm_state::laws::laws_of_state;

/// States that no file of a folder is a reason for a run to stop if an audit has no findings. Does
/// nothing at run time.
///
/// Each number can be read, and none is missing. The folder can be followed up to its newest state.
/// The run may go on from a save and its journal, if their number isn't below the one before the
/// first audited number, or without a save from 1. No file of the folder makes a run refuse, and no
/// missing or faulty number ends it early. The next sequence can be published in the folder. If the
/// audit begins at 1, the folder is that of published sequences in the contracts of the runs.
/// Memory, the device, the save and its journal, the sizes of written files, and the time of a
/// publication may still stop a run.
pub fn laws_of_whole_folders()
    ensures readable { WholeIsReadable }
    ensures followed { WholeIsFollowed }
    ensures reached { WholeIsReached }
    ensures published_in { WholeIsPublishedIn }
    ensures is_folder { WholeIsFolder }
{
    laws_of_state();
}
