//! The call once with ample memory, and worked texts.
use crate::{ExpandFault, MacroKind, expand};
use smol_edge::MemSource;
use std::test::Fail;

#[test]
fn comments_are_cut_and_lines_stay(rt: HostRuntime) -> Result<(), Fail> {
    let file = b"dim 3 # space\n/* a\n\0\n*/\n\nspecies A\nend_file x\n\0";
    let mut source = MemSource::of(rt.alloc(), "f", file, &[])?;
    let text = expand(rt.alloc(), &mut source, "f")?;
    assert_eq!(rt; text.as_slice(), b"dim 3 \n\n\n\n\nspecies A\n".as_slice());
    assert_eq!(rt; source.asked().len(), 1);
    Ok(())
}

#[test]
fn refusals_tell_their_line(rt: HostRuntime) -> Result<(), Fail> {
    let mut source = MemSource::of(rt.alloc(), "f", b"a\n/*\n*/\n\0", &[])?;
    let fault = expand(rt.alloc(), &mut source, "f").err();
    assert_eq!(rt;
        fault,
        Some(ExpandFault::At {
            line: 4,
            kind: MacroKind::BadByte
        })
    );
    let mut source = MemSource::of(rt.alloc(), "f", b"a\n/*\nb", &[])?;
    let fault = expand(rt.alloc(), &mut source, "f").err();
    assert_eq!(rt;
        fault,
        Some(ExpandFault::At {
            line: 2,
            kind: MacroKind::OpenComment
        })
    );
    Ok(())
}

#[test]
fn a_file_that_is_not_there_is_not_read(rt: HostRuntime) -> Result<(), Fail> {
    let mut source = MemSource::of(rt.alloc(), "f", b"a", &[])?;
    let fault = expand(rt.alloc(), &mut source, "g").err();
    assert_eq!(rt; fault, Some(ExpandFault::ReadFault));
    Ok(())
}

#[test]
fn one_byte_more_is_too_long(rt: HostRuntime) -> Result<(), Fail> {
    let bytes = vec![in rt.alloc(); b'x'; 4_194_305]?;
    let mut source = MemSource::of(rt.alloc(), "f", &bytes[1..], &[])?;
    let text = expand(rt.alloc(), &mut source, "f")?;
    assert_eq!(rt; text.len(), 4_194_304);
    let mut source = MemSource::of(rt.alloc(), "f", &bytes, &[])?;
    let fault = expand(rt.alloc(), &mut source, "f").err();
    assert_eq!(rt;
        fault,
        Some(ExpandFault::At {
            line: 0,
            kind: MacroKind::TooLong
        })
    );
    Ok(())
}

#[test]
fn names_are_replaced_once(rt: HostRuntime) -> Result<(), Fail> {
    let file =
        b"define N 3\ndefine M N  x # y\nmol N A\tM 50 N\"\nundefine N\nmol N\ndefine E\n E\r";
    let mut source = MemSource::of(rt.alloc(), "f", file, &[])?;
    let text = expand(rt.alloc(), &mut source, "f")?;
    assert_eq!(rt;
        text.as_slice(),
        b"\n\nmol 3 A\tN x 50 N\"\n\nmol N\n\n \r".as_slice()
    );
    Ok(())
}

#[test]
fn lines_are_left_out(rt: HostRuntime) -> Result<(), Fail> {
    let file =
        b"define fast\nifdefine fast\na\nelse\ndefine fast\nend_file\nifdefine x\nb\nelse\nc\nendif\nendif\nifundefine fast\n d\n  \nendif\ne";
    let mut source = MemSource::of(rt.alloc(), "f", file, &[])?;
    let text = expand(rt.alloc(), &mut source, "f")?;
    assert_eq!(rt;
        text.as_slice(),
        b"\n\na\n\n\n\n\n\n\n\n\n\n\n\n\n\ne".as_slice()
    );
    Ok(())
}

#[test]
fn directives_are_refused(rt: HostRuntime) -> Result<(), Fail> {
    let mut source = MemSource::of(rt.alloc(), "f", b"ifdefine N\nelse\nelse\nendif", &[])?;
    let fault = expand(rt.alloc(), &mut source, "f").err();
    assert_eq!(rt;
        fault,
        Some(ExpandFault::At {
            line: 3,
            kind: MacroKind::BadOrder
        })
    );
    let mut source = MemSource::of(rt.alloc(), "f", b"a\nifdefine N\nifdefine M", &[])?;
    let fault = expand(rt.alloc(), &mut source, "f").err();
    assert_eq!(rt;
        fault,
        Some(ExpandFault::At {
            line: 2,
            kind: MacroKind::OpenBlock
        })
    );
    Ok(())
}

#[test]
fn a_file_stands_where_it_is_asked_for(rt: HostRuntime) -> Result<(), Fail> {
    let file = b"define N 3\nread_file g # there\nmol M A\nread_file g";
    let mut source = MemSource::of(rt.alloc(), "f", file, &[])?;
    source.add(
        "g",
        b"mol N A\nundefine N\ndefine N x\ndefine M N\nundefine M\ndefine M 7\nend_file\n\0",
    )?;
    source.add("g", b"bogus")?;
    let fault = expand(rt.alloc(), &mut source, "f").err();
    assert_eq!(rt;
        fault,
        Some(ExpandFault::At {
            line: 15,
            kind: MacroKind::RepeatedName
        })
    );
    let names = source.asked();
    assert_eq!(rt; names.len(), 3);
    assert_eq!(rt; names[2].as_str(), "g");
    let mut source = MemSource::of(rt.alloc(), "f", b"read_file g\n\tread_file g x#\nz", &[])?;
    source.add("g", b"a # b\nend_file\nread_file nope")?;
    let fault = expand(rt.alloc(), &mut source, "f").err();
    assert_eq!(rt;
        fault,
        Some(ExpandFault::At {
            line: 4,
            kind: MacroKind::WrongWordCount
        })
    );
    let mut source = MemSource::of(
        rt.alloc(),
        "f",
        b"ifdefine x\nread_file nope\nendif\nread_file g\nread_file g\nz",
        &[],
    )?;
    source.add("g", b"a # b\n\n")?;
    let text = expand(rt.alloc(), &mut source, "f")?;
    assert_eq!(rt; text.as_slice(), b"\n\n\n\na \n\n\na \n\nz".as_slice());
    assert_eq!(rt; source.asked().len(), 3);
    Ok(())
}

#[test]
fn files_that_lead_back_are_refused(rt: HostRuntime) -> Result<(), Fail> {
    let mut source = MemSource::of(rt.alloc(), "f", b"\nread_file g", &[])?;
    source.add("g", b"/*\n*/\nread_file f")?;
    let fault = expand(rt.alloc(), &mut source, "f").err();
    assert_eq!(rt;
        fault,
        Some(ExpandFault::At {
            line: 5,
            kind: MacroKind::Cycle
        })
    );
    assert_eq!(rt; source.asked().len(), 2);
    let mut source = MemSource::of(
        rt.alloc(),
        "f",
        b"ifdefine x\nelse\nread_file g\nendif",
        &[],
    )?;
    source.add("g", b"\nelse")?;
    let fault = expand(rt.alloc(), &mut source, "f").err();
    assert_eq!(rt;
        fault,
        Some(ExpandFault::At {
            line: 5,
            kind: MacroKind::BadOrder
        })
    );
    Ok(())
}

#[test]
fn sixteen_files_are_read_at_once(rt: HostRuntime) -> Result<(), Fail> {
    for depth in [16, 17] {
        let mut source = MemSource::of(rt.alloc(), "1", b"read_file 2", &[])?;
        for number in 2..depth {
            let name = format!(in rt.alloc(); "{number}")?;
            let line = format!(in rt.alloc(); "read_file {}", number + 1)?;
            source.add(&name, line.as_bytes())?;
        }
        source.add("16", b"a")?;
        source.add("17", b"b")?;
        let outcome = expand(rt.alloc(), &mut source, "1");
        assert_eq!(rt; source.asked().len(), 16);
        if depth == 16 {
            assert_eq!(rt; outcome?.len(), 16);
        } else {
            assert_eq!(rt;
                outcome.err(),
                Some(ExpandFault::At {
                    line: 16,
                    kind: MacroKind::TooMany
                })
            );
        }
    }
    Ok(())
}

#[test]
fn a_read_that_fails_in_a_file_within_is_told(rt: HostRuntime) -> Result<(), Fail> {
    let mut source = MemSource::of(rt.alloc(), "f", b"read_file g", &[4])?;
    source.add("g", b"a")?;
    let fault = expand(rt.alloc(), &mut source, "f").err();
    assert_eq!(rt; fault, Some(ExpandFault::ReadFault));
    Ok(())
}

#[test]
fn files_of_more_than_sixteen_mebibytes_are_too_long(rt: HostRuntime) -> Result<(), Fail> {
    let bytes = vec![in rt.alloc(); b'#'; 4_194_304]?;
    for (file, is_long) in [
        (
            b"read_file g\nread_file g\nread_file g\nread_file h".as_slice(),
            false,
        ),
        (
            b"read_file g\nread_file g\nread_file g\nread_file g".as_slice(),
            true,
        ),
    ] {
        let mut source = MemSource::of(rt.alloc(), "f", file, &[])?;
        source.add("g", &bytes)?;
        source.add("h", &bytes[47..])?;
        let outcome = expand(rt.alloc(), &mut source, "f");
        assert_eq!(rt; outcome.is_err(), is_long);
        assert_eq!(rt; source.asked().len(), 5);
    }
    Ok(())
}
