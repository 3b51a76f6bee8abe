//! Laws of data files that are exported and begun with again.

ghost use Rattle.std.specs.Prelude.{◌≡◌, ◌<◌, ◌≤◌, ℕ, List, Some, length};
ghost use Rattle.osm_model.specs.Filter.{FilterValue, everything};
ghost use Rattle.osm_save.specs.declared.save.Saved.{Saved};
ghost use Rattle.osm_publisher.specs.Published.{PublishedValue, sequence_at};
ghost use Rattle.osm_beginning.specs.Beginning.{IsBaseOf, handed_on};
ghost use Rattle.osm_beginning.specs.Keeping.{IsBegunBoth};
ghost use Rattle.osm_exporting.specs.Exporting.{IsExportOf};
ghost use Rattle.osm_exporting.specs.Keeping.{IsExportedKept};
ghost use Rattle.osm_store.specs.Files.{Files};
ghost use Rattle.osm_runs.specs.Folder.{IsStateFile, IsThere};
ghost use Rattle.osm_runs.specs.Following.{IsInStep};
ghost use Rattle.osm_runs.specs.Keeping.{IsKept};
ghost use Rattle.osm_runs.specs.Reports.{ReportValue};

use osm_kept::laws::laws_of_kept;

/// States what a save begins with if `export_kept` wrote its data file and its state text has the
/// number and the time that were kept. Does nothing at run time.
///
/// The new save has the exported objects that the filter of `begin_kept` keeps, and the same number
/// and time. Its base is that number, and it has no counts. Under the filter of the exported save
/// these are all of its objects. If the exported save was in step with what was published, so is
/// the new one.
///
/// An export of what the published sequences 1 to a number leave, with the state of that number, is
/// the base of that number. A save of any filter can begin with it.
pub fn laws_of_bases()
    ensures handed_on { (own given : FilterValue) (save out state again : List ℕ)
        (before after files new : Files) (v : Saved) (time : ℕ) (report : ReportValue)
        → IsKept own save before v → v.time ≡ Some time
        → IsExportedKept save out before after → files out ≡ after out
        → IsThere (files state) (IsStateFile v.number time)
        → IsBegunBoth given out state again files new report
        → IsKept given again new (handed_on given v) }
    ensures same { (own : FilterValue) (save : List ℕ) (files : Files) (v : Saved)
        → IsKept own save files v → (handed_on v.filter v).mirror.objects ≡ v.mirror.objects }
    ensures in_step { (published : List PublishedValue) (given : FilterValue) (v : Saved)
        → IsInStep published given v → IsInStep published given (handed_on given v) }
    ensures is_base { (published : List PublishedValue) (number : ℕ) (out state : List ℕ)
        (files : Files)
        → IsExportOf published everything number out (files out)
        → 0 < number → number ≤ length published
        → IsThere (files state) (IsStateFile number (sequence_at published number).time)
        → IsBaseOf published number out state files }
{
    laws_of_kept();
}
