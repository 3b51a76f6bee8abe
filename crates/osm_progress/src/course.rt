//! How far a run over a folder has come, judged by the files that it reads.

ghost use Rattle.std.specs.Prelude.{◌≡◌, ℕ, ◌+◌, ◌<◌, List, IfSome, None, Some};
ghost use Rattle.osm_progress.specs.Course.{IsCounted, IsPathSaid, IsSaid, IsTopSaid};
ghost use Rattle.osm_progress.specs.Course.{IsUncounted, in_folder};

use osm_state::paths::{Suffix, path_number};
use osm_state::state_text::state_read;

/// What a file that was read says of a run over a folder.
#[derive(Clone, Copy, Debug, PartialEq, Eq)]
pub enum Said {
    /// The folder's newest number.
    Top(u32),
    /// The run has come to this number.
    Number(u32),
    Nothing,
}

/// Tells what a file that was read, with this name and these bytes, says of a run over the folder
/// `dir`. The file `DIR/state.txt` says the newest number, and a state file of a number says that
/// the run has come to that number. Takes no memory.
pub fn said_by(dir: &str, name: &str, bytes: &[u8]) -> Said
    ensures { IsSaid dir.now name.now bytes.now result }
{
    match path_in(dir, name) {
        Some("state.txt") => said_by_top(bytes),
        Some(path) => said_by_path(path),
        None => Said::Nothing,
    }
}

// The rest of a name after `DIR/`.
fn path_in<'a>(dir: &str, name: &'a str) -> Option<&'a str>
    ensures found { IfSome result (λ path. name.now ≡ in_folder dir.now path.now) }
    ensures only { result ≡ None → (path : List ℕ) → name.now ≡ in_folder dir.now path → ⊥ }
{
    name.strip_prefix(dir)?.strip_prefix("/")
}

fn said_by_top(bytes: &[u8]) -> Said
    ensures { IsTopSaid bytes.now result }
{
    match state_read(bytes) {
        Ok(state) => Said::Top(state.sequence()),
        Err(_) => Said::Nothing,
    }
}

fn said_by_path(path: &str) -> Said
    ensures { IsPathSaid path.now result }
{
    match path_number(path) {
        Some((number, Suffix::State)) => Said::Number(number),
        _ => Said::Nothing,
    }
}

/// How far a run has come in a folder: the newest number, and the number before the first one that
/// the run came to.
#[derive(Clone, Copy, Debug, PartialEq, Eq)]
pub struct Course {
    top: Option<u32>,
    before: Option<u32>,
}

impl Course {
    pub fn new() -> Course
        ensures top { result.top ≡ None }
        ensures before { result.before ≡ None }
    {
        Course {
            top: None,
            before: None,
        }
    }

    /// Notes the folder's newest number. A run that reads the newest number again starts over.
    pub fn note_top(&mut self, number: u32)
        ensures top { self.new.top ≡ Some number }
        ensures before { self.new.before ≡ None }
    {
        self.top = Some(number);
        self.before = None;
    }

    /// Notes that the run has come to a number, and gives how many numbers are done, and how many
    /// there are. None if the newest number isn't known, or if this number isn't between the first
    /// and the newest one.
    pub fn note_number(&mut self, number: u32) -> Option<(u32, u32)>
        ensures counted { IfSome result (λ r. IsCounted self.new number r.0 r.1) }
        ensures none { result ≡ None → IsUncounted self.new number }
        ensures top { self.new.top ≡ self.old.top }
        ensures kept { IfSome self.old.before (λ before. self.new.before ≡ Some before) }
        ensures begun { self.old.before ≡ None → 0 < number
            → (before : ℕ) × (self.new.before ≡ Some before) × (before + 1 ≡ number) }
    {
        let last = number.checked_sub(1)?;
        let before = self.before.unwrap_or(last);
        self.before = Some(before);
        let done = last.checked_sub(before)?;
        let all = self.top?.checked_sub(before)?;
        if done < all { Some((done, all)) } else { None }
    }
}
