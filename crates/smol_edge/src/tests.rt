//! Each public call once with ample memory, and a fault in mid-stream.
use crate::{
    FileSource, MemOutlets, MemSource, Outlets, RealOutlets, Source, TakeFault, put_all, take_all,
};
use std::fs;
use std::test::Fail;

#[test]
fn memory_gives_its_bytes(rt: HostRuntime) -> Result<(), Fail> {
    let mut source = MemSource::of(rt.alloc(), "a", b"12345", &[])?;
    source.open("a")?;
    let mut buffer = [0u8; 3];
    assert_eq!(rt; source.read(&mut buffer)?, 3);
    assert_eq!(rt; &buffer, b"123");
    assert_eq!(rt; source.read(&mut buffer)?, 2);
    assert_eq!(rt; source.read(&mut buffer)?, 0);
    assert!(rt; source.open("b").is_err());
    let asked = source.asked();
    assert_eq!(rt; asked.len(), 2);
    assert_eq!(rt; asked[1].as_str(), "b");
    Ok(())
}

#[test]
fn memory_holds_several_files(rt: HostRuntime) -> Result<(), Fail> {
    let mut source = MemSource::of(rt.alloc(), "a", b"12345", &[])?;
    source.add("b", b"678")?;
    source.add("a", b"9")?;
    let left = take_all(rt.alloc(), &mut source, 9)?;
    assert_eq!(rt; left.len(), 0);
    source.open("b")?;
    source.add("c", b"0")?;
    let all = take_all(rt.alloc(), &mut source, 9)?;
    assert_eq!(rt; all.as_slice(), b"678".as_slice());
    source.open("a")?;
    let all = take_all(rt.alloc(), &mut source, 9)?;
    assert_eq!(rt; all.as_slice(), b"12345".as_slice());
    Ok(())
}

#[test]
fn memory_fails_at_its_second_call(rt: HostRuntime) -> Result<(), Fail> {
    let mut source = MemSource::of(rt.alloc(), "a", b"12345", &[2])?;
    source.open("a")?;
    assert!(rt;
        matches!(
            take_all(rt.alloc(), &mut source, 9),
            Err(TakeFault::ReadFault)
        )
    );
    let rest = take_all(rt.alloc(), &mut source, 9)?;
    assert_eq!(rt; rest.as_slice(), b"12345".as_slice());
    Ok(())
}

#[test]
fn takes_to_the_limit(rt: HostRuntime) -> Result<(), Fail> {
    let mut source = MemSource::of(rt.alloc(), "a", b"12345", &[])?;
    source.open("a")?;
    let all = take_all(rt.alloc(), &mut source, 5)?;
    assert_eq!(rt; all.as_slice(), b"12345".as_slice());
    source.open("a")?;
    assert!(rt;
        matches!(
            take_all(rt.alloc(), &mut source, 4),
            Err(TakeFault::TooLong)
        )
    );
    Ok(())
}

#[test]
fn memory_keeps_names_and_bytes(rt: HostRuntime) -> Result<(), Fail> {
    let mut outlets = MemOutlets::of(rt.alloc(), &[], 3)?;
    assert_eq!(rt; outlets.open("log")?, 2);
    assert_eq!(rt; outlets.write(2, b"abcdef")?, 3);
    put_all(&mut outlets, 2, b"ghijk")?;
    put_all(&mut outlets, 1, b"!")?;
    assert_eq!(rt; outlets.bytes(2), b"abcghijk".as_slice());
    assert_eq!(rt; outlets.bytes(1), b"!".as_slice());
    assert_eq!(rt; outlets.bytes(0), b"".as_slice());
    let names = outlets.names();
    assert_eq!(rt; names.len(), 1);
    assert_eq!(rt; names[0].as_str(), "log");
    Ok(())
}

#[test]
fn a_front_stays_where_a_write_fails(rt: HostRuntime) -> Result<(), Fail> {
    let mut outlets = MemOutlets::of(rt.alloc(), &[3], 3)?;
    assert!(rt; put_all(&mut outlets, 0, b"1234567").is_err());
    assert_eq!(rt; outlets.bytes(0), b"123456".as_slice());
    Ok(())
}

#[test]
fn no_bytes_need_no_room_in_memory(rt: HostRuntime) -> Result<(), Fail> {
    let mut outlets = MemOutlets::of(rt.alloc(), &[], 1)?;
    assert_eq!(rt; outlets.write(0, b"")?, 0);
    put_all(&mut outlets, 1, b"")?;
    assert_eq!(rt; outlets.bytes(0), b"".as_slice());
    Ok(())
}

#[test]
fn real_files_are_read(rt: HostRuntime) -> Result<(), Fail> {
    fs::write(&rt, "here", "some text")?;
    let mut source = FileSource::of(&rt);
    let mut buffer = [0u8; 4];
    assert!(rt; source.read(&mut buffer).is_err());
    assert!(rt; source.open("missing").is_err());
    source.open("here")?;
    let all = take_all(rt.alloc(), &mut source, 100)?;
    assert_eq!(rt; all.as_slice(), b"some text".as_slice());
    Ok(())
}

#[test]
fn real_files_are_written(rt: HostRuntime) -> Result<(), Fail> {
    fs::write(&rt, "there", "what was there before")?;
    let mut outlets = RealOutlets::of(&rt, rt.alloc())?;
    assert_eq!(rt; outlets.open("there")?, 2);
    put_all(&mut outlets, 2, b"one ")?;
    put_all(&mut outlets, 2, b"two")?;
    let text = fs::read_to_string(&rt, "there")?;
    assert_eq!(rt; text.as_str(), "one two");
    assert!(rt; outlets.open("no-such-folder/file").is_err());
    Ok(())
}

#[test]
fn each_opening_reads_its_own_file(rt: HostRuntime) -> Result<(), Fail> {
    fs::write(&rt, "first", "one")?;
    fs::write(&rt, "second", "two, and more")?;
    let mut source = FileSource::of(&rt);
    for (name, text) in [
        ("first", "one"),
        ("second", "two, and more"),
        ("first", "one"),
    ] {
        source.open(name)?;
        let mut buffer = [0u8; 1];
        assert_eq!(rt; source.read(&mut buffer)?, 1);
        assert_eq!(rt; Some(buffer[0]), text.bytes().next());
        source.open(name)?;
        let all = take_all(rt.alloc(), &mut source, 100)?;
        assert_eq!(rt; all.as_slice(), text.as_bytes());
    }
    Ok(())
}

#[test]
fn a_folder_that_is_read_fails(rt: HostRuntime) -> Result<(), Fail> {
    let mut source = FileSource::of(&rt);
    source.open(".")?;
    assert!(rt;
        matches!(
            take_all(rt.alloc(), &mut source, 100),
            Err(TakeFault::ReadFault)
        )
    );
    Ok(())
}

#[test]
fn each_opening_writes_its_own_file(rt: HostRuntime) -> Result<(), Fail> {
    let mut outlets = RealOutlets::of(&rt, rt.alloc())?;
    assert_eq!(rt; outlets.open("first")?, 2);
    assert_eq!(rt; outlets.open("second")?, 3);
    put_all(&mut outlets, 3, b"two")?;
    put_all(&mut outlets, 2, b"one")?;
    assert_eq!(rt; outlets.write(2, b"")?, 0);
    assert_eq!(rt; fs::read_to_string(&rt, "first")?.as_str(), "one");
    assert_eq!(rt; fs::read_to_string(&rt, "second")?.as_str(), "two");
    Ok(())
}

#[test]
fn a_full_device_that_is_written_fails(rt: HostRuntime) -> Result<(), Fail> {
    let mut outlets = RealOutlets::of(&rt, rt.alloc())?;
    let full = outlets.open("/dev/full")?;
    assert!(rt; put_all(&mut outlets, full, b"1").is_err());
    Ok(())
}
