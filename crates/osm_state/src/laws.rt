//! What holds for state texts and paths, whatever the code does.

ghost use Rattle.osm_state.specs.StateLaws.{WrittenIsRead, CountedTimeIsText, OneState};
ghost use Rattle.osm_state.specs.StateLaws.{NoFaultBesideState, OneFault, OnePath};

/// Tells the prover that the written text of a state has that state, and that a text has at most
/// one state or one fault, never both. No two sequences or suffixes share a path. The written text
/// of a time is the text of that time. Does nothing at run time.
pub fn laws_of_state()
    ensures written_is_read { WrittenIsRead }
    ensures counted_time_is_text { CountedTimeIsText }
    ensures one_state { OneState }
    ensures no_fault_beside_state { NoFaultBesideState }
    ensures one_fault { OneFault }
    ensures one_path { OnePath }
{}
