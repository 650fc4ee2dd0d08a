use std::alloc::{AllocError, Global};
use std::fs;
use std::test::Fail;
use zl_outside::{FileShelf, MemShelf, ReadAnswer, Shelf};

#[test]
fn reads_the_newest_file_of_a_name(rt: HostRuntime) -> Result<(), Fail> {
    let mut shelf = MemShelf::new(rt.alloc());
    shelf.add("a", b"old")?;
    shelf.add("b", b"other")?;
    shelf.add("a", b"newer")?;
    shelf.fail_at(3)?;
    let mut out = Vec::new(rt.alloc());
    assert_eq!(rt; shelf.read("a", 3, &mut out), Ok(()));
    assert_eq!(rt; out.as_slice(), b"new".as_slice());
    assert_eq!(rt; shelf.read("b", 9, &mut out), Ok(()));
    assert_eq!(rt; out.as_slice(), b"other".as_slice());
    let planned = shelf.read("b", 9, &mut out);
    assert_eq!(rt; planned, Err(ReadAnswer::Failed));
    let not_held = shelf.read("c", 9, &mut out);
    assert_eq!(rt; not_held, Err(ReadAnswer::Failed));
    Ok(())
}

/// Every byte, so often that they fill more than one read of a file.
fn every_byte(alloc: Global) -> Result<Vec<u8>, AllocError> {
    let mut bytes = Vec::new(alloc);
    for number in 0..20000u32 {
        bytes.push((number % 256) as u8)?;
    }
    Ok(bytes)
}

#[test]
fn a_file_is_read_byte_for_byte(rt: HostRuntime) -> Result<(), Fail> {
    let bytes = every_byte(rt.alloc())?;
    fs::write(&rt, "every.bytes", &bytes)?;
    let mut shelf = FileShelf::new(&rt, rt.alloc());
    let mut out = Vec::new(rt.alloc());
    assert_eq!(rt; shelf.read("every.bytes", 20001, &mut out), Ok(()));
    assert_eq!(rt; out.as_slice(), bytes.as_slice());
    for cap in [0, 4, 4096, 4097, 19999] {
        assert_eq!(rt; shelf.read("every.bytes", cap, &mut out), Ok(()));
        assert_eq!(rt; Some(out.as_slice()), bytes.get(..cap), "up to {cap}");
    }
    let missing = shelf.read("missing.bytes", 4, &mut out);
    assert_eq!(rt; missing, Err(ReadAnswer::Failed));
    fs::remove_file(&rt, "every.bytes")?;
    Ok(())
}
