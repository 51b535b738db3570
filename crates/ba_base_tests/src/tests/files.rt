//! Files on a disk.

use ba_outside::{DiskFiles, Files, ReadFail};
use std::fs;

// The bytes 0 to 250, again and again.
fn unlike_bytes() -> [u8; 20_000] {
    let mut bytes = [0u8; 20_000];
    for i in 0..20_000 {
        bytes[i] = (i % 251) as u8;
    }
    bytes
}

#[test]
fn files_on_disk(rt: HostRuntime) {
    let path = "ba_base_tests_file";
    let bytes = unlike_bytes();
    fs::write(&rt, path, bytes.as_slice()).expect(&rt, "written");
    let mut files = DiskFiles::new(rt, rt.alloc());
    let missing = files.read("ba_base_tests_no_file", 9);
    let within = files.read(path, 20_000);
    let past = files.read(path, 19_999);
    fs::remove_file(&rt, path).expect(&rt, "removed");
    assert!(rt; matches!(missing, Err(ReadFail::Fault)));
    assert!(rt; within.is_ok_and(|got| got.as_slice() == bytes.as_slice()));
    assert!(rt; matches!(past, Err(ReadFail::TooLong(19_999))));
}
