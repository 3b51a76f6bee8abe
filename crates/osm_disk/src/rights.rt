//! The rights of a new file: its mode and its group.

ghost use Rattle.std.specs.Prelude.{◌≡◌, ◌≢◌, ◌/◌, ◌%◌, ◌*◌};

use crate::names::save_of;
use crate::replacing::{found, is_unable};
use std::fs::{Files, Metadata, OpenFile, Permissions};
use std::io;
use std::os::unix::fs::{MetadataExt, PermissionsExt};

// The bits of a file's mode that don't say what kind of file it is.
const MODE: u32 = 0o7777;

/// The file whose rights a new file gets.
#[derive(Drop)]
pub struct Model {
    file: Metadata,
    // The new file replaces it. Otherwise it is a save, and the new file its journal.
    is_replaced: bool,
}

/// The file that the new file at the path replaces. If there is none and the path is that of a
/// journal, the save, if the save is a plain file. Links are followed.
pub fn model_of<R: Files>(
    files: &R,
    path: &str,
    before: Option<Metadata>,
) -> io::Result<Option<Model>> {
    if let Some(file) = before {
        return Ok(Some(Model {
            file,
            is_replaced: true,
        }));
    }
    let Some(save) = save_of(path) else {
        return Ok(None);
    };
    match found(files.metadata(save))? {
        Some(file) if file.is_file() => Ok(Some(Model {
            file,
            is_replaced: false,
        })),
        _ => Ok(None),
    }
}

impl Model {
    /// The mode with which the new file is made, before it has its group. Nobody may read or write
    /// the new file who may not read or write the model.
    pub fn first_mode(&self) -> u32 {
        rights_in_any_group(self.file.mode())
    }

    /// Gives the new file the group and the mode of the model. Without the right to set the group,
    /// the file keeps the group of the process. Then a file that replaces the model has the model's
    /// mode all the same, and a journal keeps the mode with which it was made.
    pub fn give<R: Files>(&self, files: &R, file: &R::File, path: &str) -> io::Result<()> {
        let new = file.metadata()?;
        let gid = self.file.gid();
        let has_group = new.gid() == gid || files.chown(path, None, Some(gid)).is_ok();
        let mode = if has_group || self.is_replaced {
            self.file.mode() & MODE
        } else {
            self.first_mode()
        };
        if new.mode() & MODE == mode {
            return Ok(());
        }
        match file.set_permissions(Permissions::from_mode(mode)) {
            Err(error) if is_unable(error.kind()) => Ok(()),
            kept => kept,
        }
    }
}

// What a file with that mode allows whatever its group is: all that the mode says if the group may
// do just what all others may, and otherwise what the owner may.
fn rights_in_any_group(mode: u32) -> u32
    ensures alike { mode / 8 % 8 ≡ mode % 8 → result ≡ mode % 512 }
    ensures unlike { mode / 8 % 8 ≢ mode % 8 → result ≡ mode / 64 % 8 * 64 }
{
    if (mode >> 3) & 0o7 == mode & 0o7 {
        mode & 0o777
    } else {
        mode & 0o700
    }
}
