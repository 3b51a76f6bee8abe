//! What findings mean.

ghost use Rattle.osm_audit.specs.Laws.{FindingsAreTrue, LostNumbersAreFound, WrongFilesAreFound};
ghost use Rattle.osm_audit.specs.Laws.{WrongTopIsFound};

use osm_state::laws::laws_of_state;

/// States that each finding is true, that each wrong file has a finding, and that each number
/// without any file is in a range that was found. Does nothing at run time.
pub fn laws_of_findings()
    ensures are_true { FindingsAreTrue }
    ensures files_found { WrongFilesAreFound }
    ensures ranges_found { LostNumbersAreFound }
    ensures top_found { WrongTopIsFound }
{
    laws_of_state();
}
