//! Noting an object or an id that is refused.

ghost use Rattle.std.specs.Prelude.{◌≡◌, ◌⊎◌, string_bytes};
ghost use Rattle.osm_runs.specs.declared.fault.RunFault.TheVariants.{WantOfMemory};
ghost use Rattle.osm_words.specs.Echo.{echo_of};

use osm_runs::fault::RunFault;
use osm_words::echo::echo_of;
use std::alloc::Global;

// Notes a word that is refused, as it is shown, and gives the fault. If there is no memory for
// that, that is the fault, and nothing is noted.
pub(crate) fn refused(alloc: Global, word: &str, fault: RunFault, noted: &mut String) -> RunFault
    ensures { ((result ≡ fault) × (string_bytes noted.new ≡ echo_of word.now))
        ⊎ ((result ≡ WantOfMemory) × (string_bytes noted.new ≡ string_bytes noted.old)) }
{
    match echo_of(alloc, word) {
        Ok(echo) => {
            *noted = echo;
            fault
        }
        Err(_) => RunFault::WantOfMemory,
    }
}
