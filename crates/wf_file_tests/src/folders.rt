//! Shelves over a folder below the one in which the test runs.
use crate::shelves::{read, refuses, write};
use std::fs;
use std::test::Fail;
use wf_disk::DiskShelf;
use wf_files::DirShelf;
use wf_model::Name;

// Whether what one shelf of a folder writes is what another one reads.
fn is_shared(rt: &HostRuntime, folder: &str, unit: &Name) -> Option<bool> {
    let mut shelf = DirShelf::new(rt, rt.alloc(), folder).ok()?;
    let mut other = DirShelf::new(rt, rt.alloc(), folder).ok()?;
    let is_written = write(&mut shelf, unit, b"abc")?;
    let bytes = read(rt.alloc(), &mut other, unit)?;
    Some(is_written && bytes.as_slice() == b"abc".as_slice())
}

#[test]
fn a_folder_is_made_and_two_shelves_share_it(rt: HostRuntime) -> Result<(), Fail> {
    let _ = fs::remove_dir_all(&rt, "file_tests_shared");
    let unit = Name::new(rt.alloc(), b"a")?;
    assert_eq!(rt; is_shared(&rt, "file_tests_shared", &unit), Some(true));
    let held = fs::read(&rt, "file_tests_shared/a.journal")?;
    assert_eq!(rt; held.as_slice(), b"abc".as_slice());
    fs::remove_dir_all(&rt, "file_tests_shared")?;
    Ok(())
}

// Whether two shelves refuse the disk that one of them handed out, until it is dropped.
fn is_out_of_both(rt: &HostRuntime, folder: &str, unit: &Name) -> Option<bool> {
    let mut shelf = DirShelf::new(rt, rt.alloc(), folder).ok()?;
    let mut other = DirShelf::new(rt, rt.alloc(), folder).ok()?;
    let disk = shelf.take(unit).ok()?;
    let is_out = refuses(&mut shelf, unit) && refuses(&mut other, unit);
    drop(disk);
    Some(is_out && !refuses(&mut other, unit))
}

#[test]
fn a_disk_that_is_out_goes_out_of_no_shelf(rt: HostRuntime) -> Result<(), Fail> {
    let _ = fs::remove_dir_all(&rt, "file_tests_out");
    let unit = Name::new(rt.alloc(), b"a")?;
    assert_eq!(rt; is_out_of_both(&rt, "file_tests_out", &unit), Some(true));
    fs::remove_dir_all(&rt, "file_tests_out")?;
    Ok(())
}

// Whether a shelf refuses a disk of this name.
fn is_refused(rt: &HostRuntime, folder: &str, unit: &[u8]) -> Option<bool> {
    let unit = Name::new(rt.alloc(), unit).ok()?;
    let mut shelf = DirShelf::new(rt, rt.alloc(), folder).ok()?;
    Some(refuses(&mut shelf, &unit))
}

#[test]
fn a_folder_and_a_path_are_no_journal(rt: HostRuntime) -> Result<(), Fail> {
    let _ = fs::remove_dir_all(&rt, "file_tests_names");
    fs::create_dir(&rt, "file_tests_names")?;
    fs::create_dir(&rt, "file_tests_names/b.journal")?;
    for unit in ["../a", "b"] {
        assert_eq!(rt;
            is_refused(&rt, "file_tests_names", unit.as_bytes()),
            Some(true)
        );
    }
    fs::remove_dir_all(&rt, "file_tests_names")?;
    Ok(())
}
