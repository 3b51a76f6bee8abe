//! Files that two words of a command line name.

ghost use Rattle.std.specs.Prelude.{◌≡◌, ◌↔◌, IsTrue};
ghost use Rattle.osm_repl.specs.Twice.{IsFirstOf, IsFirstPair, IsSame, others_of, written_by};

use osm_runs::fault::FileName;
use osm_words::orders::Order;
use std::fmt;

/// A file of a run, by the word that names it.
#[derive(Clone, Copy, Debug, PartialEq, Eq)]
pub enum Named {
    File(FileName),
    /// The lock of the save.
    SaveLock,
    /// The lock of the folder.
    FolderLock,
}

impl fmt::Display for Named {
    fn fmt<W: fmt::Write>(&self, f: &mut fmt::Formatter<W>) -> fmt::Result {
        match self {
            Named::File(file) => write!(f, "{file}"),
            Named::SaveLock => f.write_str("save: lock"),
            Named::FolderLock => f.write_str("folder: lock"),
        }
    }
}

/// A file of a run, as a fault says that another file is the same: `the save`.
#[derive(Clone, Copy, Debug, PartialEq, Eq)]
pub struct Another {
    pub file: Named,
}

impl fmt::Display for Another {
    fn fmt<W: fmt::Write>(&self, f: &mut fmt::Formatter<W>) -> fmt::Result {
        f.write_str(match self.file {
            Named::File(FileName::Save) => "the save",
            Named::File(FileName::Journal) => "the save's journal",
            Named::SaveLock => "the save's lock",
            Named::File(FileName::Base) => "the base",
            Named::File(FileName::State) => "the state",
            Named::File(FileName::Changes) => "the changes",
            Named::File(FileName::Input) => "the input",
            Named::File(FileName::Output) => "the output",
            Named::File(FileName::Top | FileName::Sequence(_, _)) => "a file of the folder",
            Named::FolderLock => "the folder's lock",
        })
    }
}

/// Where a file lies: the device and the number of its folder, and its name there. If its folder
/// isn't there, they are those of a folder above it, and the name has all that comes below.
#[derive(Clone, Copy, Debug, PartialEq, Eq)]
pub struct Place<'a> {
    pub device: u64,
    pub folder: u64,
    pub name: &'a str,
}

/// A file of a run, and its place. The place is None if the file is a pipe or a device, which never
/// counts as the same as another file, or if more than two folders above it aren't there.
#[derive(Clone, Copy, Debug, PartialEq, Eq)]
pub struct Placed<'a> {
    pub file: Named,
    pub place: Option<Place<'a>>,
}

/// Gives the files that an order writes and that no other word may name. For a publication these
/// are `state.txt` and the lock; the files of the numbers aren't listed.
pub fn written_by(order: Order<'_>) -> &'static [Named]
    ensures { result.now ≡ written_by order.entry }
{
    match order {
        Order::Publish { .. } | Order::PublishAs { .. } => FOLDER,
        Order::Begin { .. } | Order::Follow { .. } => SAVE,
        Order::Export { .. } | Order::Convert { .. } | Order::Changes { .. } => OUTPUT,
        _ => &[],
    }
}

/// Gives the files of an order that its other words name. For `follow` and `changes` these are
/// `state.txt` and the lock of the folder; the files of the numbers aren't listed.
pub fn others_of(order: Order<'_>) -> &'static [Named]
    ensures { result.now ≡ others_of order.entry }
{
    match order {
        Order::Publish { .. } | Order::PublishAs { .. } => &[Named::File(FileName::Changes)],
        Order::Begin { .. } => &[Named::File(FileName::Base), Named::File(FileName::State)],
        Order::Follow { .. } | Order::Changes { .. } => FOLDER,
        Order::Export { .. } => SAVE,
        Order::Convert { .. } => &[Named::File(FileName::Input)],
        _ => &[],
    }
}

// The files of a save.
const SAVE: &[Named] = &[
    Named::File(FileName::Save),
    Named::File(FileName::Journal),
    Named::SaveLock,
];

// The file that an export, a conversion or `changes` writes.
const OUTPUT: &[Named] = &[Named::File(FileName::Output)];

// The files of a folder that have no number.
const FOLDER: &[Named] = &[Named::File(FileName::Top), Named::FolderLock];

/// Gives the first written file that lies where a file of another word lies, and the first such
/// file; None if there is none.
pub fn named_twice(written: &[Placed<'_>], others: &[Placed<'_>]) -> Option<(Named, Another)>
    ensures { IsFirstPair others.now written.now result }
{
    match written.split_first() {
        None => None,
        Some((one, rest)) => match first_of(one, others) {
            Some(other) => Some((one.file, Another { file: other })),
            None => named_twice(rest, others),
        },
    }
}

// The first of the files that lies where that one does.
fn first_of(one: &Placed<'_>, others: &[Placed<'_>]) -> Option<Named>
    ensures { IsFirstOf one.now others.now result }
{
    match others.split_first() {
        None => None,
        Some((other, rest)) => {
            if is_same(one, other) {
                Some(other.file)
            } else {
                first_of(one, rest)
            }
        }
    }
}

// Whether two files lie at one place.
fn is_same(one: &Placed<'_>, other: &Placed<'_>) -> bool
    ensures { IsTrue result ↔ IsSame one.now other.now }
{
    match (one.place, other.place) {
        (Some(one), Some(other)) => {
            one.device == other.device && one.folder == other.folder && one.name == other.name
        }
        _ => false,
    }
}
