use crate::{Listener, MemListener, MemSource, ReadError, SteadyListener, SteadySource, read_all};
use rnv_base::{Bytes, List};
use std::alloc::Global;
use std::collections::VecDeque;
use std::convert::AsSlice;
use std::test::Fail;

// What is read of a source, as a word.
fn word_of(end: &Result<Bytes, ReadError>) -> &[u8] {
    match end {
        Ok(all) => all.as_slice(),
        Err(ReadError::Fault) => b"fault",
        Err(ReadError::TooLong) => b"too long",
        Err(ReadError::Memory) => b"memory",
    }
}

fn bytes_of(alloc: Global, text: &str) -> Result<Bytes, Fail> {
    Ok(Bytes::new(Vec::from_slice(alloc, text.as_bytes())?))
}

#[test]
fn sources_to_their_end(rt: HostRuntime) -> Result<(), Fail> {
    // the bytes, the call that fails, the limit, and what is read
    let rows =
        "abc|9|3|abc\nabc|9|2|too long\n|9|0|\na|9|0|too long\nabc|0|10|fault\nabc|1|10|fault\nabc|2|10|abc";
    let alloc = rt.alloc();
    for row in rows.split('\n') {
        let mut cells = row.split('|');
        let bytes = cells.next().ok_or("no bytes")?;
        let call: u64 = cells.next().ok_or("no call")?.parse()?;
        let limit: usize = cells.next().ok_or("no limit")?.parse()?;
        let want = cells.next().ok_or("no end")?;
        let failing = List::new(vec![in alloc; call]?);
        let mut source = MemSource::new(bytes_of(alloc, bytes)?, failing);
        let end = read_all(alloc, &mut source, limit);
        assert!(rt; word_of(&end) == want.as_bytes(), "at {row}");
    }
    Ok(())
}

#[test]
fn a_long_source_by_pieces(rt: HostRuntime) -> Result<(), Fail> {
    let alloc = rt.alloc();
    for (limit, want) in [(9999, false), (10_000, true), (10_001, true)] {
        let bytes = Vec::from_elem(alloc, 7, 10_000)?;
        let mut source = SteadySource::new(Bytes::new(bytes));
        let end = read_all(alloc, &mut source, limit);
        assert_eq!(rt; end.is_ok(), want);
        if let Ok(all) = end {
            assert_eq!(rt; all.as_slice().len(), 10_000);
        }
    }
    Ok(())
}

// What the calls of one connection answer: whether it is accepted, and how many bytes are read and written.
fn one_connection<L: Listener>(listener: &mut L) -> (bool, Option<usize>, Option<usize>) {
    let mut place = [0; 8];
    let accepted = listener.accept().is_ok();
    let read = listener.read(&mut place).ok();
    let written = listener.write(b"yes").ok();
    listener.finish();
    (accepted, read, written)
}

#[test]
fn connections_one_after_another(rt: HostRuntime) -> Result<(), Fail> {
    let alloc = rt.alloc();
    let mut coming = VecDeque::new(alloc);
    coming.push_back(bytes_of(alloc, "ab")?)?;
    let mut steady = SteadyListener::new(alloc, coming);
    assert_eq!(rt; one_connection(&mut steady), (true, Some(2), Some(3)));
    assert_eq!(rt; one_connection(&mut steady), (true, Some(0), Some(3)));
    assert_eq!(rt; steady.given(), b"yes".as_slice());
    assert_eq!(rt; steady.earlier().len(), 1);
    for (call, first, second) in [
        (0, (false, Some(0), Some(3)), (true, Some(2), Some(3))),
        (1, (true, None, Some(3)), (true, Some(0), Some(3))),
        (2, (true, Some(2), None), (true, Some(0), Some(3))),
        (3, (true, Some(2), Some(3)), (false, Some(0), Some(3))),
        (5, (true, Some(2), Some(3)), (true, Some(0), None)),
    ] {
        let mut coming = VecDeque::new(alloc);
        coming.push_back(bytes_of(alloc, "ab")?)?;
        let failing = List::new(vec![in alloc; call]?);
        let mut listener = MemListener::new(alloc, coming, failing);
        assert_eq!(rt; one_connection(&mut listener), first);
        assert_eq!(rt; one_connection(&mut listener), second);
    }
    Ok(())
}
