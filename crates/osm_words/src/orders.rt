//! What the words of the command line ask for.

ghost use Rattle.std.specs.Prelude.{◌≡◌};
ghost use Rattle.osm_words.specs.Saves.{with_save};

/// A command with its words, how it is to be run, and what its save keeps.
#[derive(Debug, Drop, PartialEq, Eq)]
pub struct Asked<'a> {
    pub order: Order<'a>,
    pub options: Options,
    pub extract: Extract<'a>,
    /// The most numbers that `follow` takes, the most counts that `counts` prints, or the objects
    /// to a line of `fingerprint`, as the command line spells them.
    pub limit: Option<&'a str>,
    /// The bytes of a small save, which `follow` always rewrites, and the most bytes of a journal,
    /// as `SMALL:MOST`.
    pub sizes: Option<&'a str>,
    /// The objects of `get`, or the ids of `counts`, in the order of the words.
    pub sought: Vec<&'a str>,
}

/// Which objects a save or a file of changes keeps, as the command line spells them: all objects
/// for a command that writes neither.
#[derive(Debug, Drop, PartialEq, Eq)]
pub struct Extract<'a> {
    /// The letters of the kinds: `nwr` if the words have none.
    pub kinds: &'a str,
    /// The keys. If there are any, an object is kept only if it has a tag with one of them.
    pub keys: Vec<&'a str>,
}

/// How a command is to be run.
#[derive(Clone, Copy, Debug, PartialEq, Eq)]
pub struct Options {
    /// The run takes no lock.
    pub no_lock: bool,
    /// The time of a publication may be more than a day ahead of the clock, and the state of
    /// `begin` more than eight days older than its data file.
    pub any_time: bool,
    /// The report is a line of JSON.
    pub json: bool,
    /// The run shows no progress.
    pub quiet: bool,
}

/// A command of the program, with its words.
#[derive(Clone, Copy, Debug, PartialEq, Eq)]
pub enum Order<'a> {
    /// Runs the script on standard input, and writes its replies to standard output.
    Replay,
    /// Publishes the changes of a file as a folder's next sequence, at the time `now`.
    Publish {
        dir: &'a str,
        changes: &'a str,
        now: &'a str,
    },
    /// Publishes the changes of a file as the number `sequence`, or once more if that number was
    /// published with the same changes and time.
    PublishAs {
        dir: &'a str,
        changes: &'a str,
        now: &'a str,
        sequence: &'a str,
    },
    /// Writes a save that begins with the objects of a data file, at the number and time of the
    /// state file that belongs to it.
    Begin {
        base: &'a str,
        state: &'a str,
        save: &'a str,
    },
    /// Applies a folder's new sequences to a save.
    Follow {
        dir: &'a str,
        save: &'a str,
    },
    /// Prints how far a save is behind a folder.
    Lag {
        dir: &'a str,
        save: &'a str,
    },
    /// Shows what a save holds.
    Show {
        save: &'a str,
    },
    /// Writes the objects of a save as a data file.
    Export {
        save: &'a str,
        output: &'a str,
    },
    /// Writes the changes of one file to another; the ending of the other's name says the form.
    Convert {
        input: &'a str,
        output: &'a str,
    },
    /// Checks whether a folder is whole, from the number `from` to the number `to`.
    Audit {
        dir: &'a str,
        from: Option<&'a str>,
        to: Option<&'a str>,
    },
    /// Writes the last change of each object that the numbers from `from` to `to` of a folder
    /// change; the ending of the output's name says the form.
    Changes {
        dir: &'a str,
        output: &'a str,
        from: &'a str,
        to: &'a str,
    },
    /// Counts the changes of the numbers from `from` to `to` of a folder, by columns.
    Tally {
        dir: &'a str,
        from: &'a str,
        to: &'a str,
        by: Option<&'a str>,
    },
    /// Prints some objects of a save, and those that they refer to if `referred` holds.
    Get {
        save: &'a str,
        referred: bool,
    },
    /// Prints the counts of edits that a save has, of users or of changesets.
    Counts {
        save: &'a str,
        by: Option<&'a str>,
        csv: bool,
    },
    /// Prints the sum of the objects of a save.
    Fingerprint {
        save: &'a str,
    },
}

impl<'a> Order<'a> {
    /// The folder of sequences; empty if the order has none.
    pub fn dir(self) -> &'a str {
        match self {
            Order::Publish { dir, .. } | Order::PublishAs { dir, .. } => dir,
            Order::Follow { dir, .. } | Order::Lag { dir, .. } | Order::Audit { dir, .. } => dir,
            Order::Changes { dir, .. } | Order::Tally { dir, .. } => dir,
            _ => "",
        }
    }

    /// The path of the save; empty if the order has none.
    pub fn save(self) -> &'a str {
        match self {
            Order::Begin { save, .. } | Order::Follow { save, .. } => save,
            Order::Lag { save, .. } | Order::Export { save, .. } => save,
            Order::Show { save } | Order::Get { save, .. } => save,
            Order::Counts { save, .. } | Order::Fingerprint { save } => save,
            _ => "",
        }
    }

    /// Gives the order with another path of the save; an order without a save stays as it is.
    pub fn with_save(self, save: &'a str) -> Order<'a>
        ensures { result ≡ with_save self.entry save.entry }
    {
        match self {
            Order::Begin { base, state, .. } => Order::Begin { base, state, save },
            Order::Follow { dir, .. } => Order::Follow { dir, save },
            Order::Lag { dir, .. } => Order::Lag { dir, save },
            Order::Export { output, .. } => Order::Export { save, output },
            Order::Show { .. } => Order::Show { save },
            Order::Get { referred, .. } => Order::Get { save, referred },
            Order::Counts { by, csv, .. } => Order::Counts { save, by, csv },
            Order::Fingerprint { .. } => Order::Fingerprint { save },
            order => order,
        }
    }

    /// The data file and the state file that a save begins with; both empty if the order isn't
    /// `begin`.
    pub fn base(self) -> (&'a str, &'a str) {
        match self {
            Order::Begin { base, state, .. } => (base, state),
            _ => ("", ""),
        }
    }

    /// The file of changes to publish; empty if the order publishes nothing.
    pub fn changes(self) -> &'a str {
        match self {
            Order::Publish { changes, .. } | Order::PublishAs { changes, .. } => changes,
            _ => "",
        }
    }

    /// The time of the publication; empty if the order publishes nothing.
    pub fn now(self) -> &'a str {
        match self {
            Order::Publish { now, .. } | Order::PublishAs { now, .. } => now,
            _ => "",
        }
    }

    /// The input of a conversion, otherwise standard input for a replay and `get`; empty for any
    /// other order.
    pub fn input(self) -> &'a str {
        match self {
            Order::Convert { input, .. } => input,
            Order::Replay | Order::Get { .. } => "standard input",
            _ => "",
        }
    }

    /// The output: the file that an export, a conversion or `changes` writes, otherwise standard
    /// output.
    pub fn output(self) -> &'a str {
        match self {
            Order::Export { output, .. } | Order::Convert { output, .. } => output,
            Order::Changes { output, .. } => output,
            _ => "standard output",
        }
    }
}
