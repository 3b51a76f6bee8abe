//! What may happen to a folder and a save, and the replies.

use osm_model::batch::Batch;
use osm_model::filter::Filter;
use osm_runs::fault::RunFault;
use osm_runs::report::Report;
use osm_state::paths::Suffix;

/// An operation on a folder and a save. Runs of the follower and beginnings are under the filter of
/// the list, except `FollowOther`. A run with `calls` is killed: it makes at most that many calls
/// of the store; every later call is refused, so nothing more is read or written. A run without
/// `calls` is whole.
#[derive(Debug, Drop)]
pub enum Operation {
    /// Publishes the changes as the next sequence, at that time in seconds since
    /// 1970-01-01T00:00:00Z.
    Publish {
        changes: Batch,
        time: u32,
        calls: Option<u64>,
    },
    /// Publishes the changes as the sequence of that number: as the next one, or once more if that
    /// number is published.
    PublishAs {
        changes: Batch,
        time: u32,
        number: u32,
        calls: Option<u64>,
    },
    /// Runs the follower from the save.
    Follow {
        calls: Option<u64>,
    },
    /// Runs the follower under another filter than the save's, so that the run is refused. It isn't
    /// made if nothing is saved, or if the filter is that of the list.
    FollowOther {
        filter: Filter,
    },
    /// Runs the follower from the save while a file of a published sequence is spoiled: it holds
    /// the one byte `x`, which is neither a state nor changes. After the run the file holds its old
    /// bytes again.
    FollowSpoiled {
        number: u32,
        suffix: Suffix,
        calls: Option<u64>,
    },
    /// Exports the objects of the save as a data file.
    Export {
        calls: Option<u64>,
    },
    /// Begins the save anew with the objects that were exported last, whatever the save holds.
    Begin {
        calls: Option<u64>,
    },
    /// Removes a file of a published sequence.
    Lose {
        number: u32,
        suffix: Suffix,
    },
    /// Puts a removed file back with the bytes that it had.
    PutBack {
        number: u32,
        suffix: Suffix,
    },
}

/// The reply to an operation. A run that is killed after its last write replies as a whole run
/// does.
#[derive(Debug, Drop)]
pub enum Reply {
    /// A publication is done, and printed this report.
    Published(Report),
    /// A run of the follower is done, and printed this report.
    Followed(Report),
    /// A run of the follower took one part, which has `count` numbers, and looked at no further
    /// number. It printed this report.
    FollowedPart { report: Report, count: u32 },
    /// A run of the follower is done up to the number before a spoiled file. It printed this
    /// report, and then ended with this fault.
    FollowedBefore { report: Report, fault: RunFault },
    /// An export is done, and printed this report.
    Exported(Report),
    /// A beginning is done, and printed this report.
    Begun(Report),
    /// A beginning wrote its save, but didn't empty the journal beside it, since the run was killed
    /// or memory was refused. The journal belongs to another save and ends at that number, above
    /// the number of the save. Until the save begins again, other runs of the save are refused for
    /// that journal.
    CutShort(u32),
    /// The run stopped, or the file wasn't removed or put back.
    Refused(RunFault),
    /// The run stopped while it wrote the files of the newest sequence again, and the removed file
    /// of this form is there again.
    CutOff { fault: RunFault, back: Suffix },
    /// The file is removed.
    Lost,
    /// The file is there again.
    IsBack,
    /// The operation had nothing to act on: the number isn't published, the file to remove or to
    /// spoil isn't there, the file to put back is there, or there is no save of another filter.
    NotThere,
}
