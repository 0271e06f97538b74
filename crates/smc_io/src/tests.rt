use crate::{
    Failed, HostFiles, HostOut, MemFiles, MemSink, ReadAll, Sink, SureFiles, SureSink, WriteFault,
    read_all, write_all,
};
use std::alloc::{AllocError, Global};
use std::fs;
use std::test::Fail;

/// One file of this name and these bytes, and an empty one behind it.
fn shelf(alloc: Global, name: &str, bytes: &[u8]) -> Result<Vec<(String, Vec<u8>)>, AllocError> {
    let mut files = Vec::new(alloc);
    files.push((
        String::from_str(alloc, name)?,
        Vec::from_slice(alloc, bytes)?,
    ))?;
    files.push((String::from_str(alloc, "empty")?, Vec::new(alloc)))?;
    files.push((String::from_str(alloc, name)?, Vec::new(alloc)))?;
    Ok(files)
}

/// Bytes that differ along the way, so that a piece in the wrong place shows.
fn pattern(alloc: Global, count: u32) -> Result<Vec<u8>, AllocError> {
    let mut bytes = Vec::new(alloc);
    for place in 0..count {
        bytes.push((place % 251) as u8)?;
    }
    Ok(bytes)
}

#[test]
fn a_whole_file_is_read_within_its_limit_and_no_call_failed(rt: HostRuntime) -> Result<(), Fail> {
    let alloc = rt.alloc();
    let long = pattern(alloc, 40000)?;
    let dtmc = b"dtmc".as_slice();
    // name, its bytes, the name that is read, the call that fails, the limit, the answer
    let rows = [
        ("model", dtmc, "model", 0, 4, Ok(4)),
        ("model", dtmc, "model", 0, u64::MAX, Ok(4)),
        ("model", dtmc, "model", 0, 3, Err(ReadAll::TooLong)),
        ("model", dtmc, "model", 0, 0, Err(ReadAll::TooLong)),
        ("model", dtmc, "empty", 0, 0, Ok(0)),
        ("model", dtmc, "absent", 0, 4, Err(ReadAll::Fault)),
        ("model", dtmc, "model", 1, 4, Err(ReadAll::Fault)),
        ("model", dtmc, "model", 2, 4, Err(ReadAll::Fault)),
        ("model", dtmc, "model", 3, 4, Err(ReadAll::Fault)),
        ("model", dtmc, "model", 4, 4, Ok(4)),
        ("long", long.as_slice(), "long", 0, 40000, Ok(40000)),
        (
            "long",
            long.as_slice(),
            "long",
            3,
            40000,
            Err(ReadAll::Fault),
        ),
        (
            "long",
            long.as_slice(),
            "long",
            0,
            39999,
            Err(ReadAll::TooLong),
        ),
    ];
    for (name, bytes, read, fail, limit, answer) in rows {
        let files = shelf(alloc, name, bytes)?;
        let mut source = MemFiles::new(files, vec![in alloc; fail]?);
        let result = read_all(alloc, &mut source, String::from_str(alloc, read)?, limit);
        match result {
            Ok(found) => {
                assert_eq!(rt; Ok(found.len()), answer, "{read} at {limit}, {fail} fails");
                assert!(rt; found.is_empty() || found.as_slice() == bytes, "{read}");
            }
            Err(fault) => assert_eq!(rt; Err(fault), answer, "{read} at {limit}, {fail} fails"),
        }
    }
    Ok(())
}

#[test]
fn an_absent_name_is_an_empty_file_where_no_call_fails(rt: HostRuntime) -> Result<(), Fail> {
    let alloc = rt.alloc();
    for (name, bytes) in [("model", b"dtmc".as_slice()), ("absent", b"".as_slice())] {
        let mut source = SureFiles::new(shelf(alloc, "model", b"dtmc")?);
        let whole = read_all(alloc, &mut source, String::from_str(alloc, name)?, 4)?;
        assert_eq!(rt; whole.as_slice(), bytes, "{name}");
    }
    Ok(())
}

#[test]
fn a_sink_in_memory_takes_what_its_room_and_its_failures_allow(
    rt: HostRuntime,
) -> Result<(), Fail> {
    let alloc = rt.alloc();
    let text = b"result: accepted\n".as_slice();
    // the room, the most of a call, the call that fails, the answer, what was written
    let rows = [
        (100, 10, 2, Err(WriteFault), b"result: ac".as_slice()),
        (100, 10, 1, Err(WriteFault), b"".as_slice()),
        (100, 10, 3, Ok(()), text),
        (17, 1, 0, Ok(()), text),
        (16, 10, 0, Err(WriteFault), b"result: accepted".as_slice()),
        (0, 10, 0, Err(WriteFault), b"".as_slice()),
    ];
    for (room, most, fail, answer, written) in rows {
        let mut sink = MemSink::new(alloc, room, most, vec![in alloc; fail]?)?;
        assert_eq!(rt;
            write_all(&mut sink, text),
            answer,
            "{room} of {most}, {fail} fails"
        );
        assert_eq!(rt; sink.bytes(), written, "{room} of {most}, {fail} fails");
    }
    Ok(())
}

#[test]
fn a_sink_that_never_fails_counts_the_bytes(rt: HostRuntime) -> Result<(), Fail> {
    let mut sink = SureSink::new();
    assert_eq!(rt; write_all(&mut sink, b"result: accepted\n"), Ok(()));
    assert_eq!(rt; sink.write(b"")?, 0);
    assert_eq!(rt; sink.write(b"samples")?, 7);
    assert_eq!(rt; sink.taken(), 24);
    Ok(())
}

#[test]
fn the_hosts_files_are_read_whole(rt: HostRuntime) -> Result<(), Fail> {
    let alloc = rt.alloc();
    let bytes = pattern(alloc, 40000)?;
    fs::write(&rt, "long", bytes.as_slice())?;
    fs::create_dir(&rt, "folder")?;
    let rows = [
        ("long", 40000, Ok(40000)),
        ("long", 39999, Err(ReadAll::TooLong)),
        ("absent", 40000, Err(ReadAll::Fault)),
        ("folder", 40000, Err(ReadAll::Fault)),
    ];
    for (name, limit, answer) in rows {
        let mut source = HostFiles::new(&rt);
        match read_all(alloc, &mut source, String::from_str(alloc, name)?, limit) {
            Ok(found) => {
                assert_eq!(rt; Ok(found.len()), answer, "{name} at {limit}");
                assert!(rt; found.as_slice() == bytes.as_slice(), "{name}");
            }
            Err(fault) => assert_eq!(rt; Err(fault), answer, "{name} at {limit}"),
        }
    }
    Ok(())
}

#[test]
fn a_text_is_written_to_the_hosts_output(rt: HostRuntime) -> Result<(), Fail> {
    let mut sink = HostOut::new(&rt);
    assert_eq!(rt; write_all(&mut sink, b"result: accepted\n"), Ok(()));
    assert_eq!(rt; sink.write(b""), Ok(0));
    Ok(())
}

#[test]
fn each_error_is_a_whole_phrase(rt: HostRuntime) -> Result<(), Fail> {
    let alloc = rt.alloc();
    let rows = [
        (Failed.to_string(alloc)?, "the call failed"),
        (
            WriteFault.to_string(alloc)?,
            "the text could not be written",
        ),
        (
            ReadAll::Fault.to_string(alloc)?,
            "the file could not be read",
        ),
        (
            ReadAll::TooLong.to_string(alloc)?,
            "the file is longer than the limit",
        ),
        (ReadAll::OutOfMemory.to_string(alloc)?, "out of memory"),
    ];
    for (shown, phrase) in rows {
        assert_eq!(rt; shown.as_str(), phrase);
    }
    Ok(())
}
