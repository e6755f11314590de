//! The service over readers and writers that fail, and over what is no bundle.

use cedar_expr_functions::Extensions;
use cedar_gate_cases::{Made, ServeFault, Status, serve};
use cedar_test_exprs::{say, show};
use std::alloc::Global;
use std::io;
use std::io::{ErrorKind, Read, Write};
use std::process::Abort;

const BUNDLE: &str =
    r#"{"version":1,"level":0,"limit":16,"schema":[{"":{"entityTypes":{"User":{}},"actions":{"view":{"principals":["User"],"resources":["User"]}}}}],"policies":[{"id":"p","effect":"permit","principal":{"eq":["User","a"]},"when":["less",1,2]}],"request":{"principal":["User","a"],"action":["Action","view"],"resource":["User","b"]},"store":[]}"#;

const ANSWER: &str = "answer Allow\nreason \"p\"\n";

// Gives its bytes one by one, and fails after so many.
#[derive(Drop)]
struct Cut<'a> {
    bytes: &'a [u8],
    at: usize,
    fails_at: usize,
}

impl<'a> Read for Cut<'a> {
    fn read(&mut self, buf: &mut [u8]) -> io::Result<usize> {
        if self.at == self.fails_at {
            return Err(io::Error::from(ErrorKind::BrokenPipe));
        }
        match (self.bytes.get(self.at), buf.first_mut()) {
            (Some(byte), Some(place)) => {
                *place = *byte;
                self.at = self.at.saturating_add(1);
                Ok(1)
            }
            _ => Ok(0),
        }
    }
}

// Takes so many bytes, and then fails.
#[derive(Drop)]
struct Full {
    taken: Vec<u8>,
    room: usize,
}

impl Write for Full {
    fn write(&mut self, buf: &[u8]) -> io::Result<usize> {
        let count = buf.len().min(self.room.saturating_sub(self.taken.len()));
        if count == 0 {
            return Err(io::Error::from(ErrorKind::BrokenPipe));
        }
        self.taken.extend_from_slice(&buf[..count])?;
        Ok(count)
    }

    fn flush(&mut self) -> io::Result<()> {
        Ok(())
    }
}

// Says how the service ended: its status, or the number of its fault.
fn say_ended(alloc: Global, said: &mut String, ended: Result<Status, ServeFault>) -> Made<()> {
    match ended {
        Ok(Status::Answered) => say(said, "answered"),
        Ok(Status::Unreadable) => say(said, "unreadable"),
        Ok(_) => say(said, "another status"),
        Err(fault) => {
            say(said, "fault")?;
            show(alloc, said, &fault.number())
        }
    }
}

// Asserts what the service writes, and how it ends, on these bytes, of which the reader gives so many and then fails, into a writer that
// takes so many.
fn serves(
    rt: &impl Abort,
    alloc: Global,
    read: (&[u8], usize),
    room: usize,
    written: &[u8],
    wanted: &str,
) -> Made<()> {
    let table = Extensions::none(alloc);
    let (bytes, fails_at) = read;
    let reader = Cut {
        bytes,
        at: 0,
        fails_at,
    };
    let mut writer = Full {
        taken: Vec::new(alloc),
        room,
    };
    let mut said = String::new(alloc);
    say_ended(alloc, &mut said, serve(alloc, reader, &mut writer, &table))?;
    assert_eq!(rt;
        said.as_str(),
        wanted,
        "{} bytes, room for {room}",
        bytes.len()
    );
    assert_eq!(rt; writer.taken.as_slice(), written);
    Ok(())
}

#[test]
fn a_bundle_is_answered(rt: HostRuntime) -> Made<()> {
    let read = (BUNDLE.as_bytes(), usize::MAX);
    serves(&rt, rt.alloc(), read, 1000, ANSWER.as_bytes(), "answered")
}

#[test]
fn a_writer_that_fails_holds_a_beginning_of_the_lines(rt: HostRuntime) -> Made<()> {
    let read = (BUNDLE.as_bytes(), usize::MAX);
    for room in 0..ANSWER.len() {
        serves(
            &rt,
            rt.alloc(),
            read,
            room,
            &ANSWER.as_bytes()[..room],
            "fault 2",
        )?;
    }
    Ok(())
}

#[test]
fn nothing_is_written_where_the_reader_fails(rt: HostRuntime) -> Made<()> {
    for fails_at in [0, 10, BUNDLE.len()] {
        serves(
            &rt,
            rt.alloc(),
            (BUNDLE.as_bytes(), fails_at),
            1000,
            &[],
            "fault 1",
        )?;
    }
    Ok(())
}

#[test]
fn no_beginning_of_a_bundle_is_one(rt: HostRuntime) -> Made<()> {
    for length in 0..BUNDLE.len() {
        let read = (&BUNDLE.as_bytes()[..length], usize::MAX);
        serves(
            &rt,
            rt.alloc(),
            read,
            1000,
            "unreadable\n".as_bytes(),
            "unreadable",
        )?;
    }
    Ok(())
}
