//! Names that belong to a path: its folder, its temporary file, its lock, and where a link leads.

ghost use Rattle.std.specs.Prelude.{◌≡◌, ℕ, ◌+◌, ◌<◌, ◌≤◌, List, ◌++◌, IfOk, MatchBool};
ghost use Rattle.std.specs.Prelude.{MatchOption, codes};
ghost use Rattle.std.specs.Prelude.{length, slice_index, string_bytes};
ghost use Rattle.std.specs.Path.{slash};
ghost use Rattle.osm_disk.specs.Names.{IsBare, IsFolderOf, IsIn, IsStartOf, IsTemporary, LeadsTo};
ghost use Rattle.osm_disk.specs.Names.{IsJournalOf, digest_start, hidden_start, hidden_text};

use itoa::Buffer;
use sha2::{Digest, Sha256};
use std::alloc::{AllocError, Global};

// The longest name that the name of its temporary file says: with a point before it, `.osmrepl-`
// and ten digits after it, it has the 255 bytes that a name may have.
const MOST_NAMED: usize = 235;

/// The folder of the file at the given path: `.` for a bare name.
pub fn folder_of(path: &str) -> &str
    ensures { IsFolderOf path.now result.now }
{
    match split(path) {
        None => ".",
        Some((folder, _)) => or_root(folder),
    }
}

/// The temporary file of a process, beside the file at the given path:
/// `FOLDER/.NAME.osmrepl-PROCESS`. If NAME is longer than 235 bytes, it is
/// `FOLDER/.DIGEST.osmrepl--PROCESS` with the SHA-256 of NAME, so that no name is longer than 255
/// bytes.
pub fn temporary_of(alloc: Global, path: &str, process: u32) -> Result<String, AllocError>
    ensures { IfOk result (λ name. IsTemporary path.now process (string_bytes name)) }
{
    let mut digits = Buffer::new();
    let process = digits.format(process);
    match split(path) {
        None => hidden(alloc, path, process),
        Some((folder, name)) => hidden_below(alloc, folder, name, process),
    }
}

/// The lock of the file at the given path: `PATH.lock`.
pub fn lock_of_file(alloc: Global, path: &str) -> Result<String, AllocError>
    ensures { IfOk result (λ lock. string_bytes lock ≡ path.now ++ codes ".lock") }
{
    format!(in alloc; "{path}.lock")
}

/// The lock of a folder of sequences: `DIR/.osmrepl-lock`.
pub fn lock_of_folder(alloc: Global, dir: &str) -> Result<String, AllocError>
    ensures { IfOk result (λ lock. string_bytes lock ≡ dir.now ++ codes "/.osmrepl-lock") }
{
    format!(in alloc; "{dir}/.osmrepl-lock")
}

/// The save of the journal at the given path: `SAVE` of `SAVE.journal`. None if the path isn't the
/// name of a journal.
pub fn save_of(path: &str) -> Option<&str>
    ensures { MatchOption result
        ((save : List ℕ) → IsJournalOf save path.now → ⊥)
        (λ save. IsJournalOf save.now path.now) }
{
    path.strip_suffix(".journal")
}

/// The beginning of the names of the temporary files of the file at the given path; the id of the
/// process comes after it.
pub fn start_of(alloc: Global, path: &str) -> Result<String, AllocError>
    ensures { IfOk result (λ start. IsStartOf path.now (string_bytes start)) }
{
    match split(path) {
        None => hidden_start(alloc, path),
        Some((_, name)) => hidden_start(alloc, name),
    }
}

/// The process whose temporary file has this name; None unless the name is `start` followed by the
/// id of a process.
pub fn process_of(start: &str, name: &[u8]) -> Option<u32> {
    str::from_utf8(name.strip_prefix(start.as_bytes())?)
        .ok()?
        .parse()
        .ok()
}

/// The path that a symbolic link leads to, from the link's own path and its text.
pub fn led_by(alloc: Global, link: &str, text: &str) -> Result<String, AllocError>
    ensures { IfOk result (λ path. LeadsTo link.now text.now (string_bytes path)) }
{
    if begins_at_root(text) {
        return String::from_str(alloc, text);
    }
    match split(link) {
        None => String::from_str(alloc, text),
        Some((folder, _)) => join(alloc, folder, text),
    }
}

// The temporary file of a name in a folder.
fn hidden_below(
    alloc: Global,
    folder: &str,
    name: &str,
    process: &str,
) -> Result<String, AllocError>
    ensures { IfOk result (λ path. string_bytes path
        ≡ folder.now ++ codes "/" ++ hidden_text name.now process.now) }
{
    let name = hidden(alloc, name, process)?;
    join(alloc, folder, name.as_str())
}

// The name of the temporary file of a name.
fn hidden(alloc: Global, name: &str, process: &str) -> Result<String, AllocError>
    ensures text { IfOk result (λ text. string_bytes text ≡ hidden_text name.now process.now) }
    ensures short { IfOk result
        (λ text. length (string_bytes text) ≤ 245 + length process.now) }
{
    let start = hidden_start(alloc, name)?;
    format!(in alloc; "{start}{process}")
}

// `.NAME.osmrepl-`, or for a long name `.DIGEST.osmrepl--`.
fn hidden_start(alloc: Global, name: &str) -> Result<String, AllocError>
    ensures text { IfOk result (λ start. string_bytes start ≡ hidden_start name.now) }
    ensures short { IfOk result (λ start. length (string_bytes start) ≤ 245) }
{
    if name.len() > MOST_NAMED {
        return digest_start(alloc, name);
    }
    format!(in alloc; ".{name}.osmrepl-")
}

fn digest_start(alloc: Global, name: &str) -> Result<String, AllocError>
    ensures text { IfOk result (λ start. string_bytes start ≡ digest_start name.now) }
    ensures short { IfOk result (λ start. length (string_bytes start) ≤ 245) }
{
    let digest = Sha256::digest(name.as_bytes());
    let digest = hex::encode(alloc, digest)?;
    format!(in alloc; ".{digest}.osmrepl--")
}

// `FOLDER/NAME`
fn join(alloc: Global, folder: &str, name: &str) -> Result<String, AllocError>
    ensures { IfOk result (λ path. string_bytes path ≡ folder.now ++ codes "/" ++ name.now) }
{
    format!(in alloc; "{folder}/{name}")
}

// The folder and the name; None if there is no slash.
fn split(path: &str) -> Option<(&str, &str)>
    ensures { MatchOption result
        (IsBare path.now) (λ parts. IsIn parts.0.now parts.1.now path.now) }
{
    path.rsplit_once('/')
}

// The folder, or the root if there is nothing before the slash.
fn or_root(folder: &str) -> &str
    ensures root { length folder.now ≡ 0 → result.now ≡ codes "/" }
    ensures below { 0 < length folder.now → result.now ≡ folder.now }
{
    if folder.is_empty() { "/" } else { folder }
}

// Whether the text begins with a slash.
fn begins_at_root(text: &str) -> bool
    ensures { MatchBool result
        (slice_index text.now 0 ≡ slash) (slice_index text.now 0 ≡ slash → ⊥) }
{
    match text.as_bytes() {
        [] => false,
        [first, ..] => *first == b'/',
    }
}
