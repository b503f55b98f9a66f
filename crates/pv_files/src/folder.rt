use crate::fault::OpenFault;
use std::alloc::Global;
use std::fs::{self, File, Files};
use std::io::{self, ErrorKind};
use std::path::Path;

/// The files of a network's folder: the Update Centre's disk, and then the disk of each centre.
pub const NODE_FILES: [&str; 5] = ["udc.pv", "irc0.pv", "irc1.pv", "irc2.pv", "irc3.pv"];

/// How many files of one name may be set aside.
const MOST_ASIDE: u32 = 9_999;

/// Makes a folder, unless something stands there, and puts its name on the disk of the machine.
pub fn make_folder<R: Files<File = File>>(rt: &R, path: &str) -> io::Result<()> {
    match fs::create_dir(rt, path) {
        Ok(()) => sync_folder_of(rt, path),
        Err(error) if error.kind() == ErrorKind::AlreadyExists => Ok(()),
        Err(error) => Err(error),
    }
}

/// Gives a file another name in its folder, and returns its new path: the first of `PATH.1`, `PATH.2` and so on where nothing
/// stands.
pub fn set_aside<R: Files<File = File>>(
    rt: &R,
    alloc: Global,
    path: &str,
) -> Result<String, OpenFault> {
    for number in 1..=MOST_ASIDE {
        let aside = format!(in alloc; "{path}.{number}").map_err(|_| OpenFault::Memory)?;
        if !fs::exists(rt, aside.as_str()).map_err(OpenFault::File)? {
            fs::rename(rt, path, aside.as_str()).map_err(OpenFault::File)?;
            sync_folder_of(rt, path).map_err(OpenFault::File)?;
            return Ok(aside);
        }
    }
    Err(OpenFault::File(io::Error::from(ErrorKind::AlreadyExists)))
}

/// Puts the names in the folder of a file on the disk of the machine.
pub(crate) fn sync_folder_of<R: Files<File = File>>(rt: &R, path: &str) -> io::Result<()> {
    let folder = match Path::new(path).parent() {
        Some(folder) if !folder.as_str().is_empty() => folder,
        _ => Path::new("."),
    };
    File::open(rt, folder)?.sync_all()
}
