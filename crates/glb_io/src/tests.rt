use super::{
    CalmSource, Failed, MemSink, MemSource, NullSink, Sink, Source, StdSink, StdSource, SteadyRead,
    SteadyWrite,
};
use std::io::{self, ErrorKind, Read, Write};
use std::test::Fail;

/// Takes two bytes at a call, after so many interruptions, and is full after so many bytes.
#[derive(Drop)]
struct Reluctant {
    interruptions: u32,
    room: usize,
}

impl Reluctant {
    fn is_interrupted(&mut self) -> bool {
        let interrupted = self.interruptions > 0;
        self.interruptions = self.interruptions.saturating_sub(1);
        interrupted
    }
}

impl Read for Reluctant {
    fn read(&mut self, buf: &mut [u8]) -> io::Result<usize> {
        if self.is_interrupted() {
            return Err(ErrorKind::Interrupted.into());
        }
        let count = buf.len().min(2);
        buf[..count].fill(b'x');
        Ok(count)
    }
}

impl SteadyRead for Reluctant {
    ghost steady = { λ _ _ h. h };
}

impl Write for Reluctant {
    fn write(&mut self, buf: &[u8]) -> io::Result<usize> {
        if self.is_interrupted() {
            return Err(ErrorKind::Interrupted.into());
        }
        let count = buf.len().min(2).min(self.room);
        self.room -= count;
        Ok(count)
    }

    fn flush(&mut self) -> io::Result<()> {
        Ok(())
    }
}

impl SteadyWrite for Reluctant {
    ghost steady = { λ _ _ h. h };
}

/// Is interrupted so often, takes two bytes, meets an error, and then takes all. A read meets the
/// error first, and then the end.
#[derive(Drop)]
struct Relapsing {
    interruptions: u32,
    taken: bool,
    error: Option<ErrorKind>,
}

impl Write for Relapsing {
    fn write(&mut self, buf: &[u8]) -> io::Result<usize> {
        if self.interruptions > 0 {
            self.interruptions = self.interruptions.saturating_sub(1);
            return Err(ErrorKind::Interrupted.into());
        }
        if !self.taken {
            self.taken = true;
            return Ok(buf.len().min(2));
        }
        match self.error.take() {
            Some(kind) => Err(kind.into()),
            None => Ok(buf.len()),
        }
    }

    fn flush(&mut self) -> io::Result<()> {
        Ok(())
    }
}

impl Read for Relapsing {
    fn read(&mut self, _buf: &mut [u8]) -> io::Result<usize> {
        match self.error.take() {
            Some(kind) => Err(kind.into()),
            None => Ok(0),
        }
    }
}

impl SteadyRead for Relapsing {
    ghost steady = { λ _ _ h. h };
}

impl SteadyWrite for Relapsing {
    ghost steady = { λ _ _ h. h };
}

#[test]
fn sources_give_their_bytes_in_order(rt: HostRuntime) -> Result<(), Fail> {
    let alloc = rt.alloc();
    let mut piece = [0; 4];
    let mut calm = CalmSource::new(vec![in alloc; 1, 2, 3, 4, 5]?);
    assert_eq!(rt; calm.read(&mut piece), Ok(4));
    assert_eq!(rt; piece, [1, 2, 3, 4]);
    assert_eq!(rt; calm.read(&mut piece), Ok(1));
    assert_eq!(rt; calm.read(&mut piece), Ok(0));
    let mut steps = MemSource::new(vec![in alloc; 1, 2, 3]?, 2, vec![in alloc; 1]?);
    assert_eq!(rt; steps.read(&mut piece), Ok(2));
    assert_eq!(rt; steps.read(&mut piece), Err(Failed));
    assert_eq!(rt; steps.read(&mut piece), Ok(1));
    assert_eq!(rt; piece[0], 3);
    let mut text = StdSource::new("ab".as_bytes());
    assert_eq!(rt; text.read(&mut piece), Ok(2));
    assert_eq!(rt; text.read(&mut piece), Ok(0));
    Ok(())
}

#[test]
fn sinks_keep_what_they_took(rt: HostRuntime) -> Result<(), Fail> {
    let alloc = rt.alloc();
    let mut sink = MemSink::new(vec![in alloc; (1, 2)]?, vec![in alloc; 0; 6]?);
    assert_eq!(rt; sink.write_all(b"abc"), Ok(()));
    assert_eq!(rt; sink.write_all(b"def"), Err((Failed, 2)));
    assert_eq!(rt; sink.write_all(b"gh"), Err((Failed, 1)));
    assert_eq!(rt; sink.bytes(), b"abcdeg".as_slice());
    assert_eq!(rt; NullSink.write_all(b"abc"), Ok(()));
    Ok(())
}

#[test]
fn streams_go_past_a_thousand_interruptions(rt: HostRuntime) -> Result<(), Fail> {
    let mut piece = [0; 4];
    for (interruptions, fails) in [(0, false), (1000, false), (1001, true)] {
        let inner = Reluctant {
            interruptions,
            room: 5,
        };
        let read = StdSource::new(inner).read(&mut piece);
        assert_eq!(rt; read, if fails { Err(Failed) } else { Ok(2) });
        let inner = Reluctant {
            interruptions,
            room: 5,
        };
        let written = StdSink::new(inner).write_all(b"abcde");
        assert_eq!(rt; written, if fails { Err((Failed, 0)) } else { Ok(()) });
    }
    let inner = Reluctant {
        interruptions: 0,
        room: 5,
    };
    assert_eq!(rt; StdSink::new(inner).write_all(b"abcdefg"), Err((Failed, 5)));
    Ok(())
}

#[test]
fn a_writer_that_fails_in_mid_stream_is_told(rt: HostRuntime) {
    for (interruptions, error, told) in [
        (999, ErrorKind::Interrupted, Ok(())),
        (1000, ErrorKind::Interrupted, Err((Failed, 2))),
        (0, ErrorKind::WouldBlock, Err((Failed, 2))),
    ] {
        let inner = Relapsing {
            interruptions,
            taken: false,
            error: Some(error),
        };
        assert_eq!(rt; StdSink::new(inner).write_all(b"abcde"), told);
    }
}

#[test]
fn a_reader_that_would_block_is_not_asked_again(rt: HostRuntime) {
    let mut piece = [0; 4];
    let inner = Relapsing {
        interruptions: 0,
        taken: false,
        error: Some(ErrorKind::WouldBlock),
    };
    assert_eq!(rt; StdSource::new(inner).read(&mut piece), Err(Failed));
}
