//! How the file of a journal is opened, and made if it is missing.
use std::fs::{self, File, Files, OpenOptions};
use std::io;
use std::io::ErrorKind;
use std::os::fd::AsRawFd;

/// Makes the folder, if it is missing. It stays after a crash, also if a run that was killed has made it just before.
fn make_folder<R: Files<File = File>>(system: &R, folder: &str, above: &str) -> io::Result<()> {
    match fs::create_dir(system, folder) {
        Err(error) if error.kind() != ErrorKind::AlreadyExists => Err(error),
        _ => File::open(system, above)?.sync_all(),
    }
}

/// Keeps a file off the numbers of the standard streams: what is meant for one that was closed is not to go into it.
fn off_the_streams(file: File) -> io::Result<File> {
    if file.as_raw_fd() <= 2 {
        file.try_clone()
    } else {
        Ok(file)
    }
}

/// Opens the file at `path` in this folder, for this program alone. A folder or file that is missing is made, empty, and
/// stays after a crash. What isn't a file is refused, and so is one that is open elsewhere as a disk. `above` is the
/// folder round the folder.
pub fn open<R: Files<File = File>>(
    system: &R,
    above: &str,
    folder: &str,
    path: &str,
) -> io::Result<File> {
    make_folder(system, folder, above)?;
    let file = OpenOptions::new()
        .read(true)
        .write(true)
        .create(true)
        .open(system, path)?;
    let file = off_the_streams(file)?;
    if !file.metadata()?.is_file() {
        return Err(io::Error::from(ErrorKind::Unsupported));
    }
    file.try_lock()?;
    File::open(system, folder)?.sync_all()?;
    Ok(file)
}
