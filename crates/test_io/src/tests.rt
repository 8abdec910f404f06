use std::alloc::{AllocError, Global};
use std::fs;
use std::test::Fail;
use support_io::{
    FileInputs, Inputs, MemInputs, MemSink, ReadError, StdSink, SureSink, WriteFault, read_whole,
    write_whole,
};

// Bytes 0, 1, .. 250, and again from 0.
fn pattern(alloc: Global, length: usize) -> Result<Vec<u8>, AllocError> {
    let mut bytes = Vec::with_capacity(alloc, length)?;
    for index in 0..length {
        bytes.push((index % 251) as u8)?;
    }
    Ok(bytes)
}

// A file `a` of these bytes, of which the calls of these numbers fail.
fn held(alloc: Global, bytes: &[u8], fail: Vec<u32>) -> Result<MemInputs, AllocError> {
    let bytes = bytes.to_vec(alloc)?;
    let name = String::from_str(alloc, "a")?;
    let files = vec![in alloc; (name, bytes)]?;
    MemInputs::new(alloc, files, fail)
}

// Whether an input is read so.
fn is_read<I: Inputs>(
    alloc: Global,
    inputs: &mut I,
    name: &str,
    cap: u16,
    wanted: Result<&[u8], ReadError>,
) -> bool {
    match (read_whole(alloc, inputs, name, u32::from(cap)), wanted) {
        (Ok(bytes), Ok(wanted)) => bytes.as_slice() == wanted,
        (Err(error), Err(wanted)) => error == wanted,
        _ => false,
    }
}

// Whether a file of this length is read where it fits, and is else too long.
fn is_capped(alloc: Global, length: usize, cap: u16, fits: bool) -> Result<bool, AllocError> {
    let bytes = pattern(alloc, length)?;
    let mut inputs = held(alloc, bytes.as_slice(), Vec::new(alloc))?;
    let wanted = if fits {
        Ok(bytes.as_slice())
    } else {
        Err(ReadError::TooLong)
    };
    Ok(is_read(alloc, &mut inputs, "a", cap, wanted))
}

#[test]
fn reads_up_to_the_cap(rt: HostRuntime) -> Result<(), Fail> {
    let cases: [(usize, u16, bool); 10] = [
        (0, 0, true),
        (0, 9, true),
        (1, 0, false),
        (1, 1, true),
        (4096, 4095, false),
        (4096, 4096, true),
        (4097, 4096, false),
        (4097, 4097, true),
        (9000, 8999, false),
        (9000, 9000, true),
    ];
    for (length, cap, fits) in cases {
        assert!(rt; is_capped(rt.alloc(), length, cap, fits)?, "{length} bytes");
    }
    Ok(())
}

// Whether a file is not read where one call fails, and then is.
fn is_read_again(alloc: Global, call: u32) -> Result<bool, AllocError> {
    let bytes = pattern(alloc, 5000)?;
    let mut inputs = held(alloc, bytes.as_slice(), vec![in alloc; call]?)?;
    let fault = is_read(alloc, &mut inputs, "a", 5000, Err(ReadError::ReadFault));
    Ok(fault && is_read(alloc, &mut inputs, "a", 5000, Ok(bytes.as_slice())))
}

// A file of 5,000 bytes takes an open and reads of 4,096, 904 and 0 bytes. After a call that failed the others do not.
#[test]
fn reads_again_after_a_fault(rt: HostRuntime) -> Result<(), Fail> {
    for call in [0, 1, 2, 3] {
        assert!(rt; is_read_again(rt.alloc(), call)?, "call {call}");
    }
    Ok(())
}

// Whether a sink in memory takes 16 megabytes of a text that is one byte longer.
fn is_full(alloc: Global) -> Result<bool, AllocError> {
    let bytes = vec![in alloc; 7u8; 16_777_217]?;
    let mut sink = MemSink::new(alloc, Vec::new(alloc), 20_000_000)?;
    Ok(
        write_whole(&mut sink, bytes.as_slice()) == Err(WriteFault)
            && sink.bytes().len() == 16_777_216,
    )
}

// Whether a sink that is sure holds all that was written.
fn is_sure(alloc: Global) -> Result<bool, AllocError> {
    let mut sink = SureSink::new(alloc)?;
    let first = write_whole(&mut sink, b"one, ");
    let nothing = write_whole(&mut sink, b"");
    let last = write_whole(&mut sink, b"two");
    Ok(
        first == Ok(())
            && nothing == Ok(())
            && last == Ok(())
            && sink.bytes() == b"one, two".as_slice(),
    )
}

#[test]
fn a_sink_in_memory_has_a_last_byte(rt: HostRuntime) -> Result<(), Fail> {
    assert!(rt; is_full(rt.alloc())?);
    assert!(rt; is_sure(rt.alloc())?);
    Ok(())
}

#[test]
fn reads_a_file(rt: HostRuntime) -> Result<(), Fail> {
    let alloc = rt.alloc();
    let want = pattern(alloc, 5000)?;
    fs::write(&rt, "input", want.as_slice())?;
    let mut inputs = FileInputs::new(&rt);
    assert!(rt;
        is_read(
            alloc,
            &mut inputs,
            "missing",
            5000,
            Err(ReadError::ReadFault)
        )
    );
    assert!(rt; is_read(alloc, &mut inputs, "input", 5000, Ok(want.as_slice())));
    assert!(rt; is_read(alloc, &mut inputs, "input", 4999, Err(ReadError::TooLong)));
    Ok(())
}

#[test]
fn writes_to_standard_output(rt: HostRuntime) {
    let mut sink = StdSink::new(&rt);
    let nothing = write_whole(&mut sink, b"");
    let written = write_whole(&mut sink, b"written\n");
    assert!(rt; nothing == Ok(()) && written == Ok(()));
}
