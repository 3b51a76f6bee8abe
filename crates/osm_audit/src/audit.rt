//! Whether a folder is whole.

ghost use Rattle.std.specs.Prelude.{◌≡◌, ◌↔◌, ◌≤◌, ℕ, List, [], Option, Some, None, IsTrue};
ghost use Rattle.std.specs.Prelude.{IfErr, IfOk, MatchResult, unwrap_or};
ghost use Rattle.osm_model.specs.Limits.{max_sequence};
ghost use Rattle.osm_store.specs.Frames.{IsKnown};
ghost use Rattle.osm_runs.specs.Folder.{IsStateFile, IsThere, max_state};
ghost use Rattle.osm_runs.specs.Names.{top_name_of};
ghost use Rattle.osm_runs.specs.Runs.{CallsUpTo, Reads, ReadsAtLeast, ReadsUpTo};
ghost use Rattle.osm_audit.specs.Audit.{IsAsked, IsAudit, IsLast, IsRange, audit_calls};
ghost use Rattle.osm_audit.specs.Stops.{AuditStops, TopStops};
ghost use Rattle.osm_audit.specs.Steps.Looking.{ContentsStop, IsContents, IsWithinLimit, ReadStops};
ghost use Rattle.osm_audit.specs.Whole.{IsWhole};

use crate::contents::{Contents, read_contents};
use crate::finding::Found;
use crate::numbers::look_through;
use osm_model::limits::MAX_SEQUENCE;
use osm_runs::fault::{FileName, RunFault};
use osm_runs::files::MAX_STATE;
use osm_runs::names::top_name;
use osm_state::laws::laws_of_state;
use osm_state::state::State;
use osm_state::state_text::state_read;
use osm_store::store::Store;
use std::alloc::Global;
use std::marker::Model;

/// The findings of an audit over the files of a range of numbers.
#[derive(Debug, Drop)]
pub struct Audit {
    from: u32,
    to: u32,
    findings: Vec<Found>,
}

impl Model for Audit {
    ghost use Rattle.osm_audit.specs.Audit.{AuditValue};

    ghost Value = { AuditValue };

    ghost view = { λ a. record { from = a.from; to = a.to; findings = a.findings.items } };
}

impl Audit {
    /// The first number of the range.
    pub fn from(&self) -> u32
        ensures { result ≡ self.now.from }
    {
        self.from
    }

    /// The last number; it is below the first one if the folder is at number 0.
    pub fn to(&self) -> u32
        ensures { result ≡ self.now.to }
    {
        self.to
    }

    /// The findings, by rising number; none exactly if the folder is whole.
    pub fn findings(&self) -> &[Found]
        ensures { result.now ≡ self.now.findings }
    {
        self.findings.as_slice()
    }
}

/// Checks the files of a folder from the number `from` to the number `to`, and gives the range and
/// everything that is wrong in it. If `from` isn't given, it is 1; if `to` isn't given, it is the
/// number of the newest state. Neighbouring numbers without any file are one finding, a range. Each
/// other wrong file is one finding:
///
/// - a state that isn't there, can't be read, names another number, or has a time before that of
///   the number before it;
/// - changes in neither form, for which the o5c file is named;
/// - a change file that can't be read;
/// - an OPL file whose changes aren't those of the o5c file;
/// - a newest state that is at `to`, but with another time than that number's own state.
///
/// The audit writes nothing. A range that begins at 0, or after its last number, is refused as
/// `BadRange`, except that a folder at number 0 has the range 1 to 0. If `to` isn't given, the
/// newest state has to be there and readable. At most the changes of one number's two files are in
/// memory at once.
pub fn audit_run<S: Store>(
    alloc: Global,
    store: &mut S,
    dir: &str,
    from: Option<u32>,
    to: Option<u32>,
) -> Result<Audit, RunFault>
    ensures found { IfOk result (λ a. IsKnown (S.state store.old)
        → IsAudit to dir.now (S.state store.old).files a) }
    ensures whole { IfOk result (λ a. IsKnown (S.state store.old)
        → (a.findings ≡ []) ↔ IsWhole (S.state store.old).files dir.now a.from a.to) }
    ensures asked { IfOk result (IsAsked (unwrap_or from 1) to) }
    ensures stops { IfErr result (AuditStops (IsKnown (S.state store.old)) (unwrap_or from 1) to
        dir.now (S.state store.old).files) }
    ensures calls { IsKnown (S.state store.old) → (last : ℕ)
        → IsLast to dir.now (S.state store.old).files last
        → CallsUpTo (audit_calls (unwrap_or from 1) last) (S.state store.old) (S.state store.new)
        result }
    ensures frame { ReadsAtLeast 0 (S.state store.old) (S.state store.new) result }
{
    laws_of_state();
    let from = from.unwrap_or(1);
    match to {
        Some(to) => audit_up_to(alloc, store, dir, from, to),
        None => audit_to_top(alloc, store, dir, from),
    }
}

// Up to a number that is given. The newest state needn't be there.
fn audit_up_to<S: Store>(
    alloc: Global,
    store: &mut S,
    dir: &str,
    from: u32,
    to: u32,
) -> Result<Audit, RunFault>
    ensures found { IfOk result (λ a. IsKnown (S.state store.old)
        → IsAudit (Some to) dir.now (S.state store.old).files a) }
    ensures asked { IfOk result (IsAsked from (Some to)) }
    ensures stops { IfErr result (AuditStops (IsKnown (S.state store.old)) from (Some to) dir.now
        (S.state store.old).files) }
    ensures frame { ReadsUpTo (audit_calls from to) (S.state store.old) (S.state store.new) result }
{
    laws_of_state();
    if !is_range(from, to) {
        return Err(RunFault::BadRange);
    }
    let top = read_top(alloc, store, dir)?.ok();
    let findings = look_through(alloc, store, dir, from, to, top)?;
    Ok(Audit { from, to, findings })
}

fn is_range(from: u32, to: u32) -> bool
    ensures { IsTrue result ↔ IsRange from (Some to) to }
{
    0 < from && from <= to && to <= MAX_SEQUENCE
}

// Up to the number of the newest state, which has to be there.
fn audit_to_top<S: Store>(
    alloc: Global,
    store: &mut S,
    dir: &str,
    from: u32,
) -> Result<Audit, RunFault>
    ensures found { IfOk result (λ a. IsKnown (S.state store.old)
        → IsAudit None dir.now (S.state store.old).files a) }
    ensures asked { IfOk result (IsAsked from None) }
    ensures stops { IfErr result (AuditStops (IsKnown (S.state store.old)) from None dir.now
        (S.state store.old).files) }
    ensures calls { IsKnown (S.state store.old) → (last : ℕ)
        → IsLast None dir.now (S.state store.old).files last
        → CallsUpTo (audit_calls from last) (S.state store.old) (S.state store.new) result }
    ensures frame { ReadsAtLeast 0 (S.state store.old) (S.state store.new) result }
{
    let top = match read_top(alloc, store, dir)? {
        Ok(top) => top,
        Err(fault) => return Err(fault),
    };
    let to = top.sequence();
    if !reaches(from, to) {
        return Err(RunFault::BadRange);
    }
    let findings = look_through(alloc, store, dir, from, to, Some(top))?;
    Ok(Audit { from, to, findings })
}

// Whether there is a range from that number to the newest one.
fn reaches(from: u32, top: u32) -> bool
    requires { top ≤ max_sequence }
    ensures { IsTrue result ↔ IsRange from None top }
{
    0 < from && (from <= top || from == 1 && top == 0)
}

// The newest state, or what is wrong with it.
fn read_top<S: Store>(
    alloc: Global,
    store: &mut S,
    dir: &str,
) -> Result<Result<State, RunFault>, RunFault>
    ensures top { IfOk result (λ read. MatchResult read
        (λ s. IsKnown (S.state store.old)
        → IsThere ((S.state store.old).files (top_name_of dir.now)) (IsStateFile s.sequence s.time))
        (TopStops (IsKnown (S.state store.old))
        ((S.state store.old).files (top_name_of dir.now)))) }
    ensures stops { IfErr result (ReadStops FileName.Top) }
    ensures frame { Reads 1 (S.state store.old) (S.state store.new) result }
{
    let name = top_name(alloc, dir)?;
    let read = read_contents(alloc, store, FileName::Top, name.as_str(), MAX_STATE)?;
    Ok(top_in(&read))
}

fn top_in(read: &Contents) -> Result<State, RunFault>
    requires { IsWithinLimit max_state read.now }
    ensures top { IfOk result (λ s. (told : Option (List ℕ)) → IsContents max_state told read.now
        → IsThere told (IsStateFile s.sequence s.time)) }
    ensures stops { IfErr result (ContentsStop read.now) }
{
    match read {
        Contents::Absent => Err(RunFault::Absent(FileName::Top)),
        Contents::TooLarge => Err(RunFault::TooLarge(FileName::Top)),
        Contents::Bytes(text) => match state_read(text.as_slice()) {
            Ok(state) => Ok(state),
            Err(cause) => Err(RunFault::BadState(FileName::Top, cause)),
        },
    }
}
