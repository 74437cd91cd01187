// Sources and sinks in memory, with failing calls, and the adapters over faulty readers and writers.
use crate::{
    Failed, Gate, MemSink, MemSource, OpenGate, ReadSource, Sink, Source, SureSink, SureSource,
    WriteSink, write_all,
};
use std::alloc::{AllocError, Global};
use std::io::{self, Read, Write};
use std::test::Fail;

// The bytes that this many reads of four bytes give, with `!` where one fails.
fn read_parts<S: Source>(
    alloc: Global,
    source: &mut S,
    calls: usize,
) -> Result<Vec<u8>, AllocError> {
    let mut out = Vec::new(alloc);
    for _ in 0..calls {
        let mut into = [0; 4];
        match source.read(&mut into) {
            Ok(count) => out.extend_from_slice(&into[..count])?,
            Err(Failed) => out.push(b'!')?,
        }
        out.push(b'|')?;
    }
    Ok(out)
}

#[test]
fn sources_give_their_bytes(rt: HostRuntime) -> Result<(), Fail> {
    let alloc = rt.alloc();
    let cases: [(usize, &[u32], &[u8]); 5] = [
        (100, &[], b"abcd|efg|||"),
        (3, &[], b"abc|def|g||"),
        (3, &[1, 3], b"!|abc|!|def|"),
        (100, &[2, 2, 4], b"abcd|!|efg|!|"),
        (1, &[0, 9], b"a|b|c|d|"),
    ];
    for (most, fails, want) in cases {
        let bytes = b"abcdefg".to_vec(alloc)?;
        let mut source = MemSource::new(bytes, most, fails.to_vec(alloc)?);
        assert_eq!(rt; read_parts(alloc, &mut source, 4)?.as_slice(), want);
    }
    let mut sure = SureSource::new(b"abcdefg".to_vec(alloc)?, 3);
    assert_eq!(rt;
        read_parts(alloc, &mut sure, 4)?.as_slice(),
        b"abc|def|g||".as_slice()
    );
    let text: &[u8] = b"abcdefg";
    let mut adapted = ReadSource::new(text);
    assert_eq!(rt;
        read_parts(alloc, &mut adapted, 3)?.as_slice(),
        b"abcd|efg||".as_slice()
    );
    Ok(())
}

#[test]
fn sinks_take_what_fits(rt: HostRuntime) -> Result<(), Fail> {
    let alloc = rt.alloc();
    // The room, how many bytes a call takes, the calls that fail, whether all was written, and what was.
    let cases: [(usize, usize, &[u32], bool, &[u8]); 6] = [
        (7, 100, &[], true, b"abcdefg"),
        (7, 2, &[], true, b"abcdefg"),
        (6, 2, &[], false, b"abcdef"),
        (6, 100, &[], false, b""),
        (7, 2, &[3], false, b"abcd"),
        (0, 1, &[], false, b""),
    ];
    for (room, most, fails, all, want) in cases {
        let mut sink = MemSink::with_room(alloc, room, most, fails.to_vec(alloc)?)?;
        assert_eq!(rt; write_all(&mut sink, b"abcdefg").is_ok(), all);
        assert_eq!(rt; sink.into_bytes().as_slice(), want);
    }
    let mut none = MemSink::new(alloc, 1, Vec::new(alloc));
    assert_eq!(rt; none.write(b"a"), Err(Failed));
    assert_eq!(rt; none.into_bytes().len(), 0);
    Ok(())
}

#[test]
fn a_sink_that_drops_bytes_says_so(rt: HostRuntime) -> Result<(), Fail> {
    let alloc = rt.alloc();
    let mut sink = SureSink::with_room(alloc, 4, 3)?;
    assert_eq!(rt; write_all(&mut sink, b"abcd"), Ok(()));
    assert!(rt; sink.whole());
    assert_eq!(rt; write_all(&mut sink, b"e"), Ok(()));
    assert!(rt; !sink.whole());
    let mut whole = SureSink::with_room(alloc, 4, 3)?;
    assert_eq!(rt; write_all(&mut whole, b"abcd"), Ok(()));
    assert_eq!(rt; whole.into_bytes().as_slice(), b"abcd".as_slice());
    Ok(())
}

// A reader and a writer that fail once, at this call, with this error, or where there is none by a write that takes nothing.
#[derive(Drop)]
struct Broken {
    calls: u32,
    at: u32,
    kind: Option<io::ErrorKind>,
}

impl Broken {
    fn at_call(at: u32, kind: Option<io::ErrorKind>) -> Broken {
        Broken { calls: 0, at, kind }
    }

    fn next_fails(&mut self) -> bool {
        self.calls = self.calls.saturating_add(1);
        self.calls == self.at
    }
}

impl Read for Broken {
    fn read(&mut self, buf: &mut [u8]) -> io::Result<usize> {
        if self.next_fails() {
            return Err(io::Error::from(self.kind.unwrap_or(io::ErrorKind::WriteZero)));
        }
        buf.fill(b'x');
        Ok(buf.len())
    }
}

impl Write for Broken {
    fn write(&mut self, buf: &[u8]) -> io::Result<usize> {
        if self.next_fails() {
            return match self.kind {
                Some(kind) => Err(io::Error::from(kind)),
                None => Ok(0),
            };
        }
        Ok(buf.len())
    }

    fn flush(&mut self) -> io::Result<()> {
        Ok(())
    }
}

// Errors after which a reader or a writer might be called again.
const KINDS: [io::ErrorKind; 4] = [
    io::ErrorKind::Interrupted,
    io::ErrorKind::WouldBlock,
    io::ErrorKind::TimedOut,
    io::ErrorKind::Other,
];

#[test]
fn each_error_of_a_reader_is_handed_on_and_counted(rt: HostRuntime) -> Result<(), Fail> {
    for kind in KINDS {
        let mut source = ReadSource::new(Broken::at_call(2, Some(kind)));
        let given = read_parts(rt.alloc(), &mut source, 3)?;
        assert_eq!(rt; given.as_slice(), b"xxxx|!|xxxx|".as_slice());
        assert_eq!(rt; source.faults, 1);
        assert_eq!(rt; source.inner.calls, 3);
    }
    Ok(())
}

#[test]
fn each_error_of_a_writer_is_handed_on_and_counted(rt: HostRuntime) -> Result<(), Fail> {
    let kinds = [
        Some(KINDS[0]),
        Some(KINDS[1]),
        Some(KINDS[2]),
        Some(KINDS[3]),
        None,
    ];
    for kind in kinds {
        let mut sink = WriteSink::new(Broken::at_call(2, kind));
        assert_eq!(rt; sink.write(b"ab"), Ok(2));
        assert_eq!(rt; sink.write(b"ab"), Err(Failed));
        assert_eq!(rt; write_all(&mut sink, b"ab"), Ok(()));
        assert_eq!(rt; sink.faults, 1);
        assert_eq!(rt; sink.inner.calls, 3);
    }
    let mut kept = WriteSink::new(Vec::new(rt.alloc()));
    assert_eq!(rt; write_all(&mut kept, b"abcd"), Ok(()));
    assert_eq!(rt; kept.inner.as_slice(), b"abcd".as_slice());
    OpenGate.pass(1, 1);
    Ok(())
}
