//! A disk over a file of the system, in a folder below the one in which the test runs.
use crate::shelves::bytes_of;
use std::fs::{self, File, OpenOptions};
use std::io;
use std::test::Fail;
use wf_disk::Disk;
use wf_files::FileDisk;

// A new file.
fn new_file(rt: &HostRuntime, path: &str) -> io::Result<File> {
    OpenOptions::new()
        .read(true)
        .write(true)
        .create_new(true)
        .open(rt, path)
}

// Writes twice, the second time over the end of the first, and syncs.
fn write_twice(disk: &mut FileDisk<File>) -> Option<()> {
    disk.write_at(0, b"abcdef").ok()?;
    disk.write_at(4, b"xyz").ok()?;
    disk.sync().ok()
}

// Whether a disk refuses a read from the sixth byte to the eighth, and counts it.
fn refuses_eighth(disk: &mut FileDisk<File>) -> bool {
    let mut bytes = [0; 3];
    disk.faults() == 0 && disk.read_at(5, &mut bytes).is_err() && disk.faults() == 1
}

// What a disk of seven bytes holds, if it refuses the eighth.
fn written_on(rt: &HostRuntime, file: File) -> Option<Vec<u8>> {
    let mut disk = FileDisk::new(file);
    write_twice(&mut disk)?;
    if !refuses_eighth(&mut disk) {
        return None;
    }
    bytes_of(rt.alloc(), &mut disk)
}

#[test]
fn a_file_is_written_and_read_in_place(rt: HostRuntime) -> Result<(), Fail> {
    let _ = fs::remove_dir_all(&rt, "file_tests_disk");
    fs::create_dir(&rt, "file_tests_disk")?;
    let file = new_file(&rt, "file_tests_disk/a")?;
    let bytes = written_on(&rt, file).ok_or("something was refused")?;
    assert_eq!(rt; bytes.as_slice(), b"abcdxyz".as_slice());
    let held = fs::read(&rt, "file_tests_disk/a")?;
    assert_eq!(rt; held.as_slice(), b"abcdxyz".as_slice());
    fs::remove_dir_all(&rt, "file_tests_disk")?;
    Ok(())
}
