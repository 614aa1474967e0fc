//! What the adapters make of the answers of a system.
use crate::fake::{Fake, Handle, Next};
use crate::{FileSource, Outlets, RealOutlets, Source, put_all};
use std::test::Fail;

/// How the next call answers, what the adapter makes of it at a write of `abcdef`, and what the system then has.
const WRITES: [(Next, Option<usize>, &[u8; 8]); 7] = [
    (Next::Most(6), Some(6), b"abcdef.."),
    (Next::Most(5), Some(5), b"abcde..."),
    (Next::Most(1), Some(1), b"a......."),
    (Next::Most(0), None, b"........"),
    (Next::Most(usize::MAX), Some(6), b"abcdef.."),
    (Next::Interrupted, Some(2), b"ab......"),
    (Next::Full, None, b"........"),
];

#[test]
fn writes_are_handed_on(rt: HostRuntime) -> Result<(), Fail> {
    for (at, (next, count, taken)) in WRITES.iter().enumerate() {
        for to_file in [false, true] {
            let fake = Fake::of(*next);
            let handle = Handle(&fake);
            let mut outlets = RealOutlets::of(&handle, rt.alloc())?;
            assert_eq!(rt; outlets.open("f")?, 2);
            let outlet = if to_file { 2 } else { 0 };
            assert_eq!(rt; outlets.write(outlet, b"abcdef").ok(), *count, "row {at}");
            assert_eq!(rt; &fake.taken(), *taken, "row {at}");
        }
    }
    Ok(())
}

#[test]
fn a_short_write_is_followed_by_the_rest(rt: HostRuntime) -> Result<(), Fail> {
    for next in [Next::Most(1), Next::Most(4), Next::Interrupted] {
        let fake = Fake::of(next);
        let handle = Handle(&fake);
        let mut outlets = RealOutlets::of(&handle, rt.alloc())?;
        put_all(&mut outlets, 0, b"abcdefgh")?;
        assert_eq!(rt; &fake.taken(), b"abcdefgh");
    }
    Ok(())
}

#[test]
fn no_bytes_need_no_room(rt: HostRuntime) -> Result<(), Fail> {
    let fake = Fake::of(Next::Most(0));
    let handle = Handle(&fake);
    let mut outlets = RealOutlets::of(&handle, rt.alloc())?;
    assert_eq!(rt; outlets.write(0, b"")?, 0);
    Ok(())
}

#[test]
fn text_goes_to_standard_error_whole_or_fails(rt: HostRuntime) -> Result<(), Fail> {
    for (next, count) in [
        (Next::Most(1), Some(3)),
        (Next::Interrupted, None),
        (Next::Full, None),
    ] {
        let fake = Fake::of(next);
        let handle = Handle(&fake);
        let mut outlets = RealOutlets::of(&handle, rt.alloc())?;
        assert_eq!(rt; outlets.write(1, b"abc").ok(), count);
    }
    let fake = Fake::of(Next::Most(9));
    let handle = Handle(&fake);
    let mut outlets = RealOutlets::of(&handle, rt.alloc())?;
    assert!(rt; outlets.write(1, b"\xff").is_err());
    Ok(())
}

#[test]
fn reads_are_handed_on(rt: HostRuntime) -> Result<(), Fail> {
    for (next, count) in [
        (Next::Most(6), Some(6)),
        (Next::Most(5), Some(5)),
        (Next::Most(0), Some(0)),
        (Next::Interrupted, Some(2)),
        (Next::Full, None),
    ] {
        let fake = Fake::of(next);
        let handle = Handle(&fake);
        let mut source = FileSource::of(&handle);
        source.open("f")?;
        let mut buffer = [b'.'; 6];
        let answer = source.read(&mut buffer).ok();
        assert_eq!(rt; answer, count);
        let count = count.unwrap_or(0);
        assert_eq!(rt; &buffer[..count], &b"abcdef"[..count]);
    }
    Ok(())
}

#[test]
fn sixty_four_files_are_opened_and_no_more(rt: HostRuntime) -> Result<(), Fail> {
    let mut outlets = RealOutlets::of(&rt, rt.alloc())?;
    for outlet in 2..66 {
        let name = format!(in rt.alloc(); "{outlet}")?;
        assert_eq!(rt; outlets.open(&name)?, outlet);
    }
    assert!(rt; outlets.open("66").is_err());
    assert!(rt; !std::fs::exists(&rt, "66")?);
    put_all(&mut outlets, 65, b"the last")?;
    put_all(&mut outlets, 2, b"the first")?;
    assert_eq!(rt; std::fs::read_to_string(&rt, "65")?.as_str(), "the last");
    assert_eq!(rt; std::fs::read_to_string(&rt, "2")?.as_str(), "the first");
    Ok(())
}
