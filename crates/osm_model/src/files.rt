//! What change files and data files have in common, whatever their form: how their changes are
//! limited, and why they aren't written.

ghost use Rattle.std.specs.Prelude.{◌≡◌, List, ◌∷◌, [], ◌++◌, OnOk, OnErr};
ghost use Rattle.osm_model.specs.Change.{ChangeValue};
ghost use Rattle.osm_model.specs.Files.{AreLimits};

use crate::change::Change;
use crate::data;
use crate::data::DataError;
use crate::form::{FormError, Why};
use crate::limits::MAX_CHANGES;

/// The limits on the changes of a file taken together.
pub trait FileLimits {
    ghost limits: { List ChangeValue → Type 0 };

    /// Checks whether a change may follow the changes read so far, and names the cause if it may
    /// not.
    fn check_next(changes: &[Change], change: &Change) -> Result<(), Why>
        requires { limits changes.now }
        ensures next { OnOk result (limits (changes.now ++ change.now ∷ [])) }
        ensures other { OnErr result (limits (changes.now ++ change.now ∷ []) → ⊥) };

    /// Tells the prover the laws of the limits; does nothing at run time.
    fn laws()
        ensures { AreLimits limits };
}

/// Why changes weren't written.
pub enum WriteError {
    /// The file would have more bytes than it may.
    TooLarge,
    /// Memory was refused.
    WantOfMemory,
}

impl From<WriteError> for FormError {
    ghost use Rattle.osm_model.specs.Files.{as_form_error};

    ghost from_gives = { λ error e. e ≡ as_form_error error };

    fn from(error: WriteError) -> FormError {
        match error {
            WriteError::TooLarge => FormError::TooLarge,
            WriteError::WantOfMemory => FormError::WantOfMemory,
        }
    }
}

impl From<WriteError> for DataError {
    ghost use Rattle.osm_model.specs.Files.{as_data_error};

    ghost from_gives = { λ error e. e ≡ as_data_error error };

    fn from(error: WriteError) -> DataError {
        match error {
            WriteError::TooLarge => DataError::TooLarge,
            WriteError::WantOfMemory => DataError::WantOfMemory,
        }
    }
}

/// The limits of a batch.
pub struct ChangeFile;

impl FileLimits for ChangeFile {
    ghost use Rattle.osm_model.specs.Batch.{IsBatch};

    ghost limits = { IsBatch };

    fn check_next(changes: &[Change], change: &Change) -> Result<(), Why> {
        change.limits();
        if changes.len() >= MAX_CHANGES {
            return Err(Why::TooMany);
        }
        Ok(())
    }

    fn laws() {}
}

/// The limits of the objects of a mirror. Their number is limited by the size of the file alone.
pub struct DataFile;

impl FileLimits for DataFile {
    ghost use Rattle.osm_model.specs.Data.{IsData};

    ghost limits = { IsData };

    fn check_next(changes: &[Change], change: &Change) -> Result<(), Why> {
        data::check_next(changes, change)
    }

    fn laws() {}
}
