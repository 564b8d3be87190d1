// The standard streams, as a program has them.
ghost use Rattle.std.specs.Io.{ReadsAtMost};
ghost use Rattle.io.specs.Counts.{IsPrefixLen};

use std::io::Read;

// What a program reads and writes by; a test may have its own.
pub trait Streams {
    // Reads of standard input what comes at once, and answers how many bytes: none where it has ended.
    fn read(&self, buffer: &mut [u8]) -> std::io::Result<usize>
        ensures { ReadsAtMost result buffer.new };

    // Writes all bytes to standard output, or fails.
    fn write(&self, bytes: &[u8]) -> std::io::Result<()>;

    // Writes all bytes to standard error, or fails.
    fn write_error(&self, bytes: &[u8]) -> std::io::Result<()>;
}

impl Streams for HostRuntime {
    fn read(&self, buffer: &mut [u8]) -> std::io::Result<usize> {
        self.stdin().read(buffer)
    }

    fn write(&self, bytes: &[u8]) -> std::io::Result<()> {
        self.stdout().write_all(bytes)
    }

    fn write_error(&self, bytes: &[u8]) -> std::io::Result<()> {
        self.stderr().write_all(bytes)
    }
}

// Reads standard input until the buffer is full, the input ends or a read fails, and answers how many bytes stand at the start of the buffer.
pub fn read_full(rt: &impl Streams, buffer: &mut [u8]) -> usize
    ensures { IsPrefixLen result buffer.new }
{
    let mut done: usize = 0;
    // Not `read_exact`: where the input ends early, it does not say how many bytes came.
    while done < buffer.len() {
        let n = rt.read(&mut buffer[done..]).unwrap_or(0);
        if n == 0 {
            return done;
        }
        done += n;
    }
    done
}

// Says a text on standard error, as far as that takes it.
pub fn say(rt: &impl Streams, bytes: &[u8]) {
    let _ = rt.write_error(bytes);
}

// Writes to standard output, says so where the system does not take it, and answers whether it went out.
pub fn write_out(rt: &impl Streams, bytes: &[u8]) -> bool {
    if rt.write(bytes).is_ok() {
        return true;
    }
    say(rt, b"not written: standard output takes no more\n");
    false
}

// One read of standard input, as much as comes at once: how many bytes, or none where it has ended. Where it cannot be read, that is said, with the system's words.
pub fn read_some(rt: &(impl Streams + AllocGlobal), buffer: &mut [u8]) -> usize
    ensures { IsPrefixLen result buffer.new }
{
    match rt.read(buffer) {
        Ok(n) => n,
        Err(error) => {
            say_unread(rt, error);
            0
        }
    }
}

// Says that standard input cannot be read, and the system's words for why, without the number that stands behind them.
fn say_unread(rt: &(impl Streams + AllocGlobal), error: std::io::Error) {
    say(rt, b"read: ");
    if let Ok(text) = error.to_string(rt.alloc()) {
        match text.as_str().split_once(" (os error ") {
            Some((words, _)) => say(rt, words.as_bytes()),
            None => say(rt, text.as_bytes()),
        }
    }
    say(rt, b"\n");
}
