//! A list of operations, read line by line.

ghost use Rattle.std.specs.Prelude.{◌≡◌, ℕ, [], None, Some, IfNone, IfSome, OnOk, map};
ghost use Rattle.std.specs.Prelude.{unwrap_or};
ghost use Rattle.osm_model.specs.Filter.{everything};
ghost use Rattle.osm_reading.specs.Sequence.{SpellsSequence};
ghost use Rattle.trials.specs.Words.{IsEdited, IsFiltered, IsFollowOther, Says};
ghost use Rattle.trials.specs.Words.{changes_after, suffix_word};

use anyhow::{Result, bail};
use osm_model::batch::Batch;
use osm_model::filter::Filter;
use osm_model::time::time_read;
use osm_operations::operation::Operation;
use osm_opl::lines::read_line;
use osm_reading::sequence::sequence_read;
use osm_runs::filters::filter_of;
use osm_state::paths::Suffix;
use std::alloc::Global;
use std::mem;

/// The filter if a line gave one, the operations so far, and the changes of the next publication.
#[derive(Drop)]
pub(crate) struct List {
    alloc: Global,
    filter: Option<Filter>,
    changes: Batch,
    operations: Vec<Operation>,
}

impl List {
    pub(crate) fn new(alloc: Global) -> List {
        List {
            alloc,
            filter: None,
            changes: Batch::new(alloc),
            operations: Vec::new(alloc),
        }
    }

    /// Takes a line: the filter of the list, such as `filter w highway`; a change, such as `edit n1
    /// v1 dV c7 t2024-01-01T00:00:00Z i5 uann T x1 y2`; or an operation.
    pub(crate) fn read(&mut self, line: &str) -> Result<()> {
        if let Some(change) = line.strip_prefix("edit ") {
            return self.edit(change);
        }
        let words: Vec<&str> = line.split(' ').collect(self.alloc)?;
        if let ["filter", kinds, keys @ ..] = words.as_slice() {
            return self.filter(kinds, keys);
        }
        match self.operation(&words) {
            Some(operation) => self.operations.push(operation)?,
            None => bail!("no operation"),
        }
        Ok(())
    }

    // Takes the filter of those kinds and keys, which comes before all other lines of the list.
    fn filter(&mut self, kinds: &str, keys: &[&str]) -> Result<()>
        ensures { OnOk result
            (IsFiltered kinds.now (map (λ key. key.now) keys.now) self.new.filter) }
    {
        if !self.is_empty() {
            bail!("the filter isn't first");
        }
        self.filter = Some(filter_of(self.alloc, kinds, keys)?);
        Ok(())
    }

    // Adds the change on a line of OPL.
    fn edit(&mut self, line: &str) -> Result<()>
        ensures { OnOk result (IsEdited line.now self.old.changes self.new.changes) }
    {
        self.changes.push(read_line(self.alloc, line.as_bytes())?)?;
        Ok(())
    }

    // The operation that the words say; None if they say none.
    fn operation(&mut self, words: &[&str]) -> Option<Operation>
        ensures says { IfSome result (Says words.now self.old.changes) }
        ensures left { IfSome result
            (λ operation. self.new.changes ≡ changes_after operation self.old.changes) }
        ensures kept { self.new.operations ≡ self.old.operations }
    {
        if let Some(filter) = other_of(self.alloc, words) {
            return Some(Operation::FollowOther { filter });
        }
        match *words {
            ["publish", time] => Some(Operation::Publish {
                time: time_read(time.as_bytes())?,
                changes: self.take_changes(),
                calls: None,
            }),
            ["killed", "publish", calls, time] => Some(Operation::Publish {
                calls: Some(number_of(calls)? as u64),
                time: time_read(time.as_bytes())?,
                changes: self.take_changes(),
            }),
            ["publish", "as", number, time] => Some(Operation::PublishAs {
                number: number_of(number)?,
                time: time_read(time.as_bytes())?,
                changes: self.take_changes(),
                calls: None,
            }),
            ["killed", "publish", "as", number, calls, time] => Some(Operation::PublishAs {
                number: number_of(number)?,
                calls: Some(number_of(calls)? as u64),
                time: time_read(time.as_bytes())?,
                changes: self.take_changes(),
            }),
            ["follow"] => Some(Operation::Follow { calls: None }),
            ["killed", "follow", calls] => Some(Operation::Follow {
                calls: Some(number_of(calls)? as u64),
            }),
            ["follow", "spoiled", number, suffix] => Some(Operation::FollowSpoiled {
                number: number_of(number)?,
                suffix: suffix_of(suffix)?,
                calls: None,
            }),
            ["killed", "follow", "spoiled", number, suffix, calls] => {
                Some(Operation::FollowSpoiled {
                    number: number_of(number)?,
                    suffix: suffix_of(suffix)?,
                    calls: Some(number_of(calls)? as u64),
                })
            }
            ["export"] => Some(Operation::Export { calls: None }),
            ["killed", "export", calls] => Some(Operation::Export {
                calls: Some(number_of(calls)? as u64),
            }),
            ["begin"] => Some(Operation::Begin { calls: None }),
            ["killed", "begin", calls] => Some(Operation::Begin {
                calls: Some(number_of(calls)? as u64),
            }),
            ["lose", number, suffix] => Some(Operation::Lose {
                number: number_of(number)?,
                suffix: suffix_of(suffix)?,
            }),
            ["put", "back", number, suffix] => Some(Operation::PutBack {
                number: number_of(number)?,
                suffix: suffix_of(suffix)?,
            }),
            _ => None,
        }
    }

    /// Whether no line was taken since the last list.
    pub(crate) fn is_empty(&self) -> bool {
        self.filter.is_none() && self.operations.is_empty() && self.changes.changes().is_empty()
    }

    fn take_changes(&mut self) -> Batch
        ensures taken { result ≡ self.old.changes }
        ensures emptied { self.new.changes ≡ [] }
        ensures kept { self.new.operations ≡ self.old.operations }
    {
        mem::replace(&mut self.changes, Batch::new(self.alloc))
    }

    /// The filter of the list; one that keeps all objects if no line gave one.
    pub(crate) fn take_filter(&mut self) -> Filter
        ensures taken { result ≡ unwrap_or self.old.filter everything }
        ensures emptied { self.new.filter ≡ None }
        ensures kept { self.new.operations ≡ self.old.operations }
    {
        match mem::replace(&mut self.filter, None) {
            Some(filter) => filter,
            None => Filter::all(self.alloc),
        }
    }

    /// Gives the operations; the next line begins another list.
    pub(crate) fn take(&mut self) -> Vec<Operation>
        ensures taken { result.items ≡ self.old.operations.items }
        ensures emptied { self.new.operations.items ≡ [] }
    {
        mem::replace(&mut self.operations, Vec::new(self.alloc))
    }
}

// The other filter of `follow other KINDS KEY..`.
fn other_of(alloc: Global, words: &[&str]) -> Option<Filter>
    ensures { IfSome result (IsFollowOther words.now) }
{
    match *words {
        ["follow", "other", kinds, ref keys @ ..] => filter_of(alloc, kinds, keys).ok(),
        _ => None,
    }
}

fn number_of(word: &str) -> Option<u32>
    ensures found { IfSome result (SpellsSequence word.now) }
    ensures only { (n : ℕ) → SpellsSequence word.now n → result ≡ Some n }
{
    sequence_read(word.as_bytes())
}

fn suffix_of(word: &str) -> Option<Suffix>
    ensures found { IfSome result (λ suffix. word.now ≡ suffix_word suffix) }
    ensures only { IfNone result ((suffix : Suffix) → word.now ≡ suffix_word suffix → ⊥) }
{
    match word {
        "o5c" => Some(Suffix::O5c),
        "opl" => Some(Suffix::Opl),
        "state" => Some(Suffix::State),
        _ => None,
    }
}
