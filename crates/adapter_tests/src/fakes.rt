//! A runtime whose input and output move bytes by script, and whose clock is told the time.
ghost use Rattle.std.specs.Prelude.{◌≤◌, IfOk};

use std::alloc::{Allocator, Global};
use std::fmt::Display;
use std::fs::{File, Metadata, OpenOptions};
use std::io;
use std::io::{BufRead, Empty, ErrorKind, Input, Lines, Read};
use std::net::{Net, SocketAddr, TcpListener, TcpStream};
use std::rt::{Clock, Files};
use std::sync::atomic::{AtomicU64, Ordering};
use std::time::Duration;

/// What a call of a scripted stream does: it moves so many bytes, or fails.
#[derive(Clone, Copy)]
pub enum Step {
    Moves(usize),
    Fails(ErrorKind),
}

/// The first calls of a stream; each later one moves nothing.
type Steps = [Step; 6];

/// How many bytes the step after so many moves, of so many at most.
fn moved(steps: &Steps, made: u64, most: usize) -> io::Result<usize>
    ensures { IfOk result (λ count. count ≤ most) }
{
    match steps.get(made as usize) {
        Some(Step::Moves(count)) => Ok(most.min(*count)),
        Some(Step::Fails(kind)) => Err(io::Error::from(*kind)),
        None => Ok(0),
    }
}

/// An input whose reads do these steps. What it gives are sevens.
#[derive(Drop)]
pub struct ScriptedInput {
    steps: Steps,
    made: u64,
}

impl Read for ScriptedInput {
    fn read(&mut self, buf: &mut [u8]) -> io::Result<usize> {
        let made = self.made;
        self.made = made.saturating_add(1);
        let count = moved(&self.steps, made, buf.len())?;
        buf[..count].fill(7);
        Ok(count)
    }
}

impl BufRead for ScriptedInput {
    fn fill_buf(&mut self) -> io::Result<&[u8]> {
        Ok(b"")
    }

    fn consume(&mut self, _amount: usize) {}
}

/// A runtime whose input's reads and whose writes do these steps, and whose clock goes on when it
/// is told to; its sleeps are counted and take no time. Its sockets are of the types of the
/// system's; it opens none itself, and no files.
#[derive(Drop)]
pub struct FakeRuntime {
    alloc: Global,
    steps: Steps,
    written: AtomicU64,
    seconds: AtomicU64,
    sleeps: AtomicU64,
}

impl FakeRuntime {
    /// These are the first steps, six at most.
    pub fn new(alloc: Global, first: &[Step]) -> FakeRuntime {
        let mut steps = [Step::Moves(0); 6];
        for (step, wanted) in steps.iter_mut().zip(first) {
            *step = *wanted;
        }
        FakeRuntime {
            alloc,
            steps,
            written: AtomicU64::new(0),
            seconds: AtomicU64::new(0),
            sleeps: AtomicU64::new(0),
        }
    }

    /// Tells the clock the time.
    pub fn tell(&self, seconds: u64) {
        self.seconds.store(seconds, Ordering::SeqCst);
    }

    /// How often it slept.
    pub fn sleeps(&self) -> u64 {
        self.sleeps.load(Ordering::SeqCst)
    }
}

impl Alloc for FakeRuntime {
    type A = Global;

    fn alloc(&self) -> Global {
        self.alloc
    }
}

impl Clock for FakeRuntime {
    fn monotonic(&self) -> io::Result<Duration> {
        Ok(Duration::from_secs(self.seconds.load(Ordering::SeqCst)))
    }

    fn since_1970(&self) -> io::Result<Duration> {
        Ok(Duration::from_secs(self.seconds.load(Ordering::SeqCst)))
    }

    fn sleep(&self, _duration: Duration) {
        self.sleeps.fetch_add(1, Ordering::SeqCst);
    }
}

impl Input for FakeRuntime {
    type Reader = ScriptedInput;

    fn read_line<A: Allocator + Clone>(&self, _buf: &mut String<A>) -> io::Result<usize> {
        Err(io::Error::from(ErrorKind::Unsupported))
    }

    fn lines<A: Allocator>(&self, alloc: A) -> Lines<ScriptedInput, A> {
        self.reader().lines(alloc)
    }

    fn reader(&self) -> ScriptedInput {
        ScriptedInput {
            steps: self.steps,
            made: 0,
        }
    }
}

impl Print for FakeRuntime {
    fn print<D: Display + Drop>(&self, _value: D) -> io::Result<()> {
        Err(io::Error::from(ErrorKind::Unsupported))
    }

    fn println<D: Display + Drop>(&self, _value: D) -> io::Result<()> {
        Err(io::Error::from(ErrorKind::Unsupported))
    }

    fn write_all(&self, _bytes: &[u8]) -> io::Result<()> {
        Err(io::Error::from(ErrorKind::Unsupported))
    }

    fn write_some(&self, bytes: &[u8]) -> io::Result<usize> {
        let made = self.written.fetch_add(1, Ordering::SeqCst);
        moved(&self.steps, made, bytes.len())
    }
}

impl Net for FakeRuntime {
    type Stream = TcpStream;

    type Listener = TcpListener;

    fn bind(&self, _addr: SocketAddr) -> io::Result<TcpListener> {
        Err(io::Error::from(ErrorKind::Unsupported))
    }

    fn connect(&self, _addr: SocketAddr) -> io::Result<TcpStream> {
        Err(io::Error::from(ErrorKind::Unsupported))
    }
}

impl Files for FakeRuntime {
    type File = File;

    type Dir = Empty;

    fn open_file(&self, _how: &OpenOptions, _path: &str) -> io::Result<File> {
        Err(io::Error::from(ErrorKind::Unsupported))
    }

    fn open_dir(&self, _path: &str) -> io::Result<Empty> {
        Err(io::Error::from(ErrorKind::Unsupported))
    }

    fn metadata(&self, _path: &str) -> io::Result<Metadata> {
        Err(io::Error::from(ErrorKind::Unsupported))
    }

    fn symlink_metadata(&self, _path: &str) -> io::Result<Metadata> {
        Err(io::Error::from(ErrorKind::Unsupported))
    }

    fn copy(&self, _from: &str, _to: &str) -> io::Result<u64> {
        Err(io::Error::from(ErrorKind::Unsupported))
    }

    fn rename(&self, _from: &str, _to: &str) -> io::Result<()> {
        Err(io::Error::from(ErrorKind::Unsupported))
    }

    fn remove_file(&self, _path: &str) -> io::Result<()> {
        Err(io::Error::from(ErrorKind::Unsupported))
    }

    fn create_dir(&self, _path: &str) -> io::Result<()> {
        Err(io::Error::from(ErrorKind::Unsupported))
    }

    fn remove_dir(&self, _path: &str) -> io::Result<()> {
        Err(io::Error::from(ErrorKind::Unsupported))
    }

    fn remove_dir_all<B: Allocator>(&self, _alloc: B, _path: &str) -> io::Result<()> {
        Err(io::Error::from(ErrorKind::Unsupported))
    }
}
