//! What was found in a save and its journal.

use crate::start::Start;
use osm_net::net::Net;
use osm_save::head::Head;

/// What was found in a save and its journal.
#[derive(Debug, Drop)]
pub struct Found {
    /// What the save and its journal keep; None if there is no save.
    pub kept: Option<Kept>,
    /// What the journal's file is.
    pub journal: JournalFile,
}

/// What a save and its journal keep together: what the save saves, with the journal's head and net
/// changes laid over it.
#[derive(Debug, Drop)]
pub struct Kept {
    /// What the save begins with.
    pub start: Start,
    /// The number and the time of the journal's last batch, with the base of the save; the head of
    /// the save if the journal says nothing.
    pub head: Head,
    /// The net changes of the journal's batches under the filter of the save; empty if the journal
    /// says nothing.
    pub net: Net,
}

/// How far a save and its journal reach, read without the bytes of the batches.
#[derive(Debug, Drop)]
pub struct Ends {
    /// Where the save begins and the journal ends; None if there is no save.
    pub kept: Option<Reach>,
    /// What the journal's file is; whether its batches are change files isn't checked.
    pub journal: JournalFile,
}

/// What a save begins with, and the head that the save and its journal come to.
#[derive(Debug, Drop)]
pub struct Reach {
    /// What the save begins with.
    pub start: Start,
    /// The number and the time of the journal's last batch, with the base of the save; the head of
    /// the save if the journal says nothing.
    pub head: Head,
}

/// What a journal's file is.
#[derive(Debug, Drop)]
pub enum JournalFile {
    /// There is no such file, or it is empty.
    Nothing,
    /// A journal of another save, which says nothing of this one.
    OfAnother,
    /// The journal of the save, with its bytes.
    Counts(Vec<u8>),
}
