//! Readers and writers that keep whether they failed.
ghost use Rattle.std.specs.Prelude.{◌≡◌, ◌≤◌, ◌<◌, false, true, ◌||◌, is_err, take, length};
ghost use Rattle.std.specs.Io.{ReadsAtMost, WritesAtMost};
ghost use Rattle.std.specs.Io.KnownBytes.{ReadConsumes, WriteAppends, Appends};
ghost use Rattle.graphql_names.specs.Device.{device_inner, device_failed, write_failed};

use std::io;
use std::io::{Read, Write};

/// A reader or a writer, and whether it has failed. Contracts read it by `device_inner` and
/// `device_failed`.
#[derive(Drop)]
pub struct Device<D> {
    inner: D,
    failed: bool,
}

impl<D> Device<D> {
    /// A reader or a writer that has not failed.
    pub fn new(inner: D) -> Self
        ensures inner { device_inner result ≡ inner }
        ensures failed { device_failed result ≡ false }
    {
        Device {
            inner,
            failed: false,
        }
    }

    /// Whether a call of `read` or `write` has failed: it gave an error (an interruption is one too), or a write of
    /// some bytes took none. Once true it stays so.
    pub fn failed(&self) -> bool
        ensures { result ≡ device_failed self.now }
    {
        self.failed
    }
}

impl<R: Read> Device<R> {
    /// Calls the reader's `read` once. Answers how many bytes it put at the front of `buf`.
    pub fn read(&mut self, buf: &mut [u8]) -> io::Result<usize>
        ensures bound { ReadsAtMost result buf.new }
        ensures bytes { ReadConsumes (R.remaining (device_inner self.old))
            (R.remaining (device_inner self.new)) result buf.new }
        ensures failed { device_failed self.new ≡ (device_failed self.old || is_err result) }
    {
        let result = self.inner.read(buf);
        if result.is_err() {
            self.failed = true;
        }
        result
    }
}

impl<W: Write> Device<W> {
    /// Calls the writer's `write` once. Answers how many bytes of the front of `buf` it took.
    pub fn write(&mut self, buf: &[u8]) -> io::Result<usize>
        ensures bound { WritesAtMost result buf.now }
        ensures bytes { WriteAppends (W.contents (device_inner self.old))
            (W.contents (device_inner self.new)) result buf.now }
        ensures failed { device_failed self.new ≡ (device_failed self.old || write_failed result buf.now) }
    {
        let result = self.inner.write(buf);
        match result {
            Ok(n) if n > 0 || buf.is_empty() => {}
            _ => self.failed = true,
        }
        result
    }

    /// Calls `write` until all bytes are out, or until a call fails or takes none. Answers how many bytes are out. If
    /// these are not all, the device has failed.
    pub fn write_front(&mut self, bytes: &[u8]) -> usize
        ensures bound { result ≤ length bytes.now }
        ensures out { Appends (W.contents (device_inner self.old))
            (W.contents (device_inner self.new)) (take result bytes.now) }
        ensures short { result < length bytes.now → device_failed self.new ≡ true }
        ensures whole { result ≡ length bytes.now → device_failed self.new ≡ device_failed self.old }
    {
        let mut out = 0;
        while out < bytes.len() {
            match self.write(&bytes[out..]) {
                Ok(n) if n > 0 => out += n,
                _ => return out,
            }
        }
        out
    }
}
