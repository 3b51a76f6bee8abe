//! The objects that the words of `get` name.

ghost use Rattle.std.specs.Prelude.{◌≡◌, [], IfErr, IfOk, OnOk, codes, string_bytes};
ghost use Rattle.osm_opl.specs.Written.{key_text};
ghost use Rattle.osm_repl.specs.Getting.{AreSought, IsObjectRefused, IsSought, RefusesSought};

use crate::refused::refused;
use osm_asking::words::read_object_word;
use osm_model::kind::Key;
use osm_runs::fault::RunFault;
use std::alloc::Global;

// What a word names.
#[derive(Clone, Copy, Drop)]
pub(crate) enum Sought {
    /// An object.
    Object(Key),
    /// Those that the lines of standard input name.
    Input,
}

// What the words name. The first word that names nothing is noted.
pub(crate) fn sought_of(
    alloc: Global,
    words: &[&str],
    noted: &mut String,
) -> Result<Vec<Sought>, RunFault>
    requires { string_bytes noted.old ≡ [] }
    ensures sought { IfOk result (λ sought. AreSought words.now sought.items) }
    ensures refused { IfErr result (RefusesSought words.now (string_bytes noted.new)) }
    ensures unnoted { OnOk result (string_bytes noted.new ≡ []) }
{
    let mut sought = Vec::new(alloc);
    for word in words {
        let each = match sought_in(alloc, word, noted) {
            Ok(each) => each,
            Err(fault) => return Err(fault),
        };
        match sought.push(each) {
            Ok(()) => {}
            Err(_) => return Err(RunFault::WantOfMemory),
        }
    }
    Ok(sought)
}

// What a word names. A word that names nothing is noted.
fn sought_in(alloc: Global, word: &str, noted: &mut String) -> Result<Sought, RunFault>
    requires { string_bytes noted.old ≡ [] }
    ensures sought { IfOk result (IsSought word.now) }
    ensures refused { IfErr result (λ fault. (word.now ≡ codes "-" → ⊥)
        × IsObjectRefused word.now (string_bytes noted.new) fault) }
    ensures unnoted { OnOk result (string_bytes noted.new ≡ []) }
{
    if word == "-" {
        return Ok(Sought::Input);
    }
    match key_of(alloc, word, noted) {
        Ok(key) => Ok(Sought::Object(key)),
        Err(fault) => Err(fault),
    }
}

// The object that a word names. A word that names none is noted.
pub(crate) fn key_of(alloc: Global, word: &str, noted: &mut String) -> Result<Key, RunFault>
    requires { string_bytes noted.old ≡ [] }
    ensures key { IfOk result (λ key. word.now ≡ key_text key) }
    ensures refused { IfErr result (IsObjectRefused word.now (string_bytes noted.new)) }
    ensures unnoted { OnOk result (string_bytes noted.new ≡ []) }
{
    match read_object_word(word) {
        Some(key) => Ok(key),
        None => Err(refused(alloc, word, RunFault::BadObject, noted)),
    }
}
