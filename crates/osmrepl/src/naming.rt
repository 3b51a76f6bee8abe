//! The files that a command line names: where they lie, and which of them may be pipes.

use osm_disk::names::{lock_of_file, lock_of_folder};
use osm_disk::places::{Place, name_of, place_of, real_folder};
use osm_repl::causes::path_of_file;
use osm_repl::refusal::Refusal;
use osm_repl::twice::{self, Another, Named, Placed, named_twice, others_of, written_by};
use osm_runs::data_form::data_form_of;
use osm_runs::fault::FileName;
use osm_runs::form::form_of;
use osm_state::paths::path_number;
use osm_words::orders::Order;
use std::alloc::{AllocError, Global};
use std::os::unix::fs::MetadataExt;
use std::{fs, io};

// A file of a run, and where it lies.
#[derive(Drop)]
struct Found {
    file: Named,
    place: Option<Place>,
}

// Why an order isn't done of which a written file is one that another word names, and the path of
// that file; None if there is none. Fails only for memory.
pub(crate) fn refusal_of(
    rt: &HostRuntime,
    order: Order<'_>,
) -> io::Result<Option<(Refusal, String)>> {
    if is_of_no_form(order) {
        return Ok(None);
    }
    let mut written = find_all(rt, order, written_by(order))?;
    let mut others = find_all(rt, order, others_of(order))?;
    match order {
        Order::Follow { .. } | Order::Changes { .. } => {
            add_numbered(rt, order, written_by(order), &mut others)?
        }
        Order::Publish { .. } | Order::PublishAs { .. } => {
            add_numbered(rt, order, others_of(order), &mut written)?
        }
        _ => {}
    }
    let written = placed(rt.alloc(), written.as_slice())?;
    let others = placed(rt.alloc(), others.as_slice())?;
    match named_twice(written.as_slice(), others.as_slice()) {
        Some((one, other)) => {
            let path = path_of(rt.alloc(), order, one)?;
            Ok(Some((Refusal::SameFile(one, other), path)))
        }
        None => printed_into(rt, order),
    }
}

// The same for standard output, if it goes into the save or its journal: a run would read on and on
// what it prints.
fn printed_into(rt: &HostRuntime, order: Order<'_>) -> io::Result<Option<(Refusal, String)>> {
    if order.save().is_empty() {
        return Ok(None);
    }
    for name in [FileName::Save, FileName::Journal] {
        let file = Named::File(name);
        if is_standard_output(rt, path_of(rt.alloc(), order, file)?.as_str()) {
            let refusal = Refusal::SameFile(Named::File(FileName::Output), Another { file });
            let output = String::from_str(rt.alloc(), "standard output")?;
            return Ok(Some((refusal, output)));
        }
    }
    Ok(None)
}

// Whether a plain file is there that standard output goes into.
fn is_standard_output(rt: &HostRuntime, path: &str) -> bool {
    match (fs::metadata(rt, path), fs::metadata(rt, "/dev/stdout")) {
        (Ok(file), Ok(output)) => {
            file.is_file() && file.dev() == output.dev() && file.ino() == output.ino()
        }
        _ => false,
    }
}

// Whether the name of a file tells no form, for which the run refuses it before it reads a file.
fn is_of_no_form(order: Order<'_>) -> bool {
    match order {
        Order::Export { output, .. } => data_form_of(output).is_none(),
        Order::Convert { input, output } => form_of(input).is_none() || form_of(output).is_none(),
        Order::Changes { output, .. } => form_of(output).is_none(),
        _ => false,
    }
}

// The paths of an order's files that may be pipes and devices.
pub(crate) fn streams_of(alloc: Global, order: Order<'_>) -> Result<Vec<String>, AllocError> {
    let (base, state) = order.base();
    let mut streams = Vec::new(alloc);
    for path in [base, state, order.changes(), order.input(), order.output()] {
        streams.push(String::from_str(alloc, path)?)?;
    }
    Ok(streams)
}

fn path_of(alloc: Global, order: Order<'_>, named: Named) -> Result<String, AllocError> {
    match named {
        Named::File(file) => path_of_file(alloc, order, file),
        Named::SaveLock => lock_of_file(alloc, order.save()),
        Named::FolderLock => lock_of_folder(alloc, order.dir()),
    }
}

// Where the files lie.
fn find_all(rt: &HostRuntime, order: Order<'_>, files: &[Named]) -> io::Result<Vec<Found>> {
    let mut found = Vec::new(rt.alloc());
    for file in files {
        let path = path_of(rt.alloc(), order, *file)?;
        let place = find_place(rt, path.as_str())?;
        found.push(Found { file: *file, place })?;
    }
    Ok(found)
}

// Adds the files of the folder's numbers that may be one of those files.
fn add_numbered(
    rt: &HostRuntime,
    order: Order<'_>,
    files: &[Named],
    numbered: &mut Vec<Found>,
) -> io::Result<()> {
    for file in files {
        let path = path_of(rt.alloc(), order, *file)?;
        if let Some(file) = numbered_like(rt, path.as_str())? {
            let path = path_of_file(rt.alloc(), order, file)?;
            let place = find_place(rt, path.as_str())?;
            let file = Named::File(file);
            numbered.push(Found { file, place })?;
        }
    }
    Ok(())
}

// The file of a number that has the names of that file and of the two folders above it.
fn numbered_like(rt: &HostRuntime, path: &str) -> io::Result<Option<FileName>> {
    let alloc = rt.alloc();
    let Some(place) = find_place(rt, path)? else {
        return Ok(None);
    };
    let Some(folder) = real_folder(alloc, rt, upper_of(rt, path)?)? else {
        return Ok(None);
    };
    let name = place.name.as_str();
    let whole = format!(in alloc; "{folder}/{name}")?;
    numbered_at(alloc, whole.as_str())
}

// The file of a number at the end of a path.
fn numbered_at(alloc: Global, path: &str) -> io::Result<Option<FileName>> {
    let Some((folder, name)) = path.rsplit_once('/') else {
        return Ok(None);
    };
    let Some((above, low)) = folder.rsplit_once('/') else {
        return Ok(None);
    };
    let high = name_of(above);
    let text = format!(in alloc; "{high}/{low}/{name}")?;
    match path_number(text.as_str()) {
        Some((number, suffix)) => Ok(Some(FileName::Sequence(number, suffix))),
        None => Ok(None),
    }
}

// Where a file lies. What isn't there of the folders above it is a part of its name.
fn find_place(rt: &HostRuntime, path: &str) -> io::Result<Option<Place>> {
    let alloc = rt.alloc();
    let upper = upper_of(rt, path)?;
    let Some(place) = place_of(alloc, rt, upper)? else {
        return Ok(None);
    };
    let name = place.name.as_str();
    let rest = path.strip_prefix(upper).unwrap_or("");
    let name = format!(in alloc; "{name}{rest}")?;
    Ok(Some(Place { name, ..place }))
}

// The path, or one of the two folders above it: the first that lies in a folder that is there. The
// files of a number lie two folders below all numbers.
fn upper_of<'a>(rt: &HostRuntime, path: &'a str) -> io::Result<&'a str> {
    let mut upper = path;
    for _ in 0..2 {
        if real_folder(rt.alloc(), rt, upper)?.is_some() {
            return Ok(upper);
        }
        match upper.rsplit_once('/') {
            Some((above, _)) => upper = above,
            None => return Ok(upper),
        }
    }
    Ok(upper)
}

fn placed(alloc: Global, found: &[Found]) -> Result<Vec<Placed<'_>>, AllocError> {
    let mut placed = Vec::new(alloc);
    for each in found {
        let place = match &each.place {
            Some(place) => Some(twice::Place {
                device: place.device,
                folder: place.folder,
                name: place.name.as_str(),
            }),
            None => None,
        };
        let file = each.file;
        placed.push(Placed { file, place })?;
    }
    Ok(placed)
}
