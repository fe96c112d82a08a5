//! The streams of the operating system over a reader and a writer that fail.
use pv_cli_host::cli_commands::Progress;
use pv_cli_host::{Input, Output, Screen, ScreenWriter, SearchOutput, Shown};
use pv_streams::{Failed, Sink, Source};
use std::io;
use std::io::{ErrorKind, Read, Write};

// A reader that gives one byte and then fails, and a writer that takes one byte and then none.
#[derive(Drop)]
struct Once {
    is_used: bool,
}

impl Read for Once {
    fn read(&mut self, buffer: &mut [u8]) -> io::Result<usize> {
        if self.is_used || buffer.is_empty() {
            return Err(io::Error::from(ErrorKind::Other));
        }
        self.is_used = true;
        buffer[0] = b'x';
        Ok(1)
    }
}

impl Write for Once {
    fn write(&mut self, buffer: &[u8]) -> io::Result<usize> {
        if self.is_used || buffer.is_empty() {
            return Ok(0);
        }
        self.is_used = true;
        Ok(1)
    }

    fn flush(&mut self) -> io::Result<()> {
        Ok(())
    }
}

#[test]
fn an_input_gives_what_its_reader_gives(rt: HostRuntime) {
    let mut input = Input::new(Once { is_used: false });
    let mut buffer = [0; 4];
    assert!(rt; input.read(&mut buffer) == Ok(1));
    assert!(rt; buffer[0] == b'x');
    assert!(rt; input.read(&mut buffer) == Err(Failed));
}

#[test]
fn an_output_takes_what_its_writer_takes(rt: HostRuntime) {
    let mut output = Output::new(Once { is_used: false });
    assert!(rt; output.write(b"xyz") == Ok(1));
    assert!(rt; output.write(b"yz") == Ok(0));
    assert!(rt; output.write(b"") == Ok(0));
    assert!(rt; output.flush() == Ok(()));
}

#[test]
fn a_screen_leaves_what_is_written_as_it_is(rt: HostRuntime) {
    let screen = Screen::new(&rt);
    let mut progress = Shown::new(&screen);
    let mut writer = ScreenWriter::new(&screen, Once { is_used: false });
    progress.show(2, 1);
    assert!(rt; writer.write(b"xyz").ok() == Some(1));
    progress.show(3, 1);
    progress.end();
    assert!(rt; writer.write(b"yz").ok() == Some(0));
}

#[test]
fn a_search_writes_at_once(rt: HostRuntime) {
    let screen = Screen::new(&rt);
    let mut progress = Shown::new(&screen);
    let (waiting, direct) = (Once { is_used: false }, Once { is_used: false });
    let mut output = SearchOutput::new(rt.alloc(), &screen, waiting, direct);
    progress.show(2, 1);
    assert!(rt; output.write(b"xyz") == Ok(1));
    assert!(rt; output.write(b"yz") == Ok(0));
    progress.end();
    assert!(rt; output.write(b"yz") == Ok(2));
    progress.show(3, 1);
    assert!(rt; output.write(b"xyz") == Err(Failed));
}
