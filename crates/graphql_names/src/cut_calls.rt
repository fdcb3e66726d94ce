//! What a `Cut` does.
ghost use Rattle.std.specs.Prelude.{◌≡◌, ◌≤◌, ◌<◌, ◌+◌, IfOk, OnErr, IsErrAnd};
ghost use Rattle.std.specs.Io.{ReadsAtMost, WritesAtMost};
ghost use Rattle.std.specs.IoError.{error_kind};
ghost use Rattle.std.specs.Io.KnownBytes.{ReadConsumes, WriteAppends};
ghost use Rattle.graphql_names.specs.Cut.{cut_inner, cut_most, cut_left, cut_ending, cut_calls, ending_kind, left_after, count_after, EndsWrite, KeepsCut};

use crate::cut::{Cut, Ending};
use std::io;
use std::io::{Error, ErrorKind, Read, Write};

impl<D> Cut<D> {
    /// Passes on at most `most` bytes a call, which is not 0, and `total` bytes in all.
    pub fn new(inner: D, most: usize, total: usize, ending: Ending) -> Self
        requires { 0 < most }
        ensures inner { cut_inner result ≡ inner }
        ensures most { cut_most result ≡ most }
        ensures left { cut_left result ≡ total }
        ensures ending { cut_ending result ≡ ending }
        ensures calls { cut_calls result ≡ 0 }
    {
        Cut {
            inner,
            most,
            left: total,
            ending,
            calls: 0,
        }
    }

    /// How many calls of `read` and `write` were made, up to the largest number.
    pub fn calls(&self) -> usize
        ensures { result ≡ cut_calls self.now }
    {
        self.calls
    }

    /// The error of its ending, once its bytes are used up. If the ending fails once, bytes are left again.
    fn fail(&mut self) -> Error
        requires { cut_left self.old ≡ 0 }
        ensures kind { error_kind result ≡ ending_kind (cut_ending self.old) }
        ensures inner { cut_inner self.new ≡ cut_inner self.old }
        ensures left { cut_left self.new ≡ left_after (cut_ending self.old) (cut_left self.old) }
        ensures calls { cut_calls self.new ≡ cut_calls self.old }
        ensures same { KeepsCut self.old self.new }
    {
        match self.ending {
            Ending::Fails(kind) => Error::new(kind, "cut"),
            Ending::FailsOnce(kind) => {
                self.left = usize::MAX;
                Error::new(kind, "cut")
            }
            Ending::TakesNothing => Error::new(ErrorKind::Other, "cut"),
        }
    }

    /// How many of `len` bytes a call passes on.
    fn share(&self, len: usize) -> usize
        ensures len { result ≤ len }
        ensures most { result ≤ cut_most self.now }
        ensures left { result ≤ cut_left self.now }
        ensures some { 0 < len → 0 < cut_left self.now → 0 < result }
    {
        len.min(self.most).min(self.left)
    }
}

impl<R: Read> Read for Cut<R> {
    ghost remaining = { λ s. R.remaining (cut_inner s) };

    /// Reads at most `most` bytes. With none left it fails.
    fn read(&mut self, buf: &mut [u8]) -> io::Result<usize>
        ensures bound { ReadsAtMost result buf.new }
        ensures bytes { ReadConsumes (R.remaining (cut_inner self.old))
            (R.remaining (cut_inner self.new)) result buf.new }
        ensures most { IfOk result (λ n. n ≤ cut_most self.old) }
        ensures counted { IfOk result (λ n. cut_left self.new + n ≡ cut_left self.old) }
        ensures kept { OnErr result (cut_left self.new ≡ left_after (cut_ending self.old) (cut_left self.old)) }
        ensures over { cut_left self.old ≡ 0
            → IsErrAnd result (λ e. error_kind e ≡ ending_kind (cut_ending self.old)) }
        ensures calls { cut_calls self.new ≡ count_after (cut_calls self.old) }
        ensures same { KeepsCut self.old self.new }
    {
        self.calls = self.calls.saturating_add(1);
        if self.left == 0 {
            return Err(self.fail());
        }
        let share = self.share(buf.len());
        let n = self.inner.read(&mut buf[..share])?;
        self.left -= n;
        Ok(n)
    }
}

impl<W: Write> Write for Cut<W> {
    ghost contents = { λ s. W.contents (cut_inner s) };

    /// Writes at most `most` bytes. With none left it ends as its [`Ending`] says.
    fn write(&mut self, buf: &[u8]) -> io::Result<usize>
        ensures bound { WritesAtMost result buf.now }
        ensures bytes { WriteAppends (W.contents (cut_inner self.old))
            (W.contents (cut_inner self.new)) result buf.now }
        ensures most { IfOk result (λ n. n ≤ cut_most self.old) }
        ensures counted { IfOk result (λ n. cut_left self.new + n ≡ cut_left self.old) }
        ensures kept { OnErr result (cut_left self.new ≡ left_after (cut_ending self.old) (cut_left self.old)) }
        ensures over { cut_left self.old ≡ 0 → EndsWrite (cut_ending self.old) result }
        ensures calls { cut_calls self.new ≡ count_after (cut_calls self.old) }
        ensures same { KeepsCut self.old self.new }
    {
        self.calls = self.calls.saturating_add(1);
        if self.left == 0 {
            return match self.ending {
                Ending::TakesNothing => Ok(0),
                Ending::Fails(_) | Ending::FailsOnce(_) => Err(self.fail()),
            };
        }
        let share = self.share(buf.len());
        let n = self.inner.write(&buf[..share])?;
        self.left -= n;
        Ok(n)
    }

    fn flush(&mut self) -> io::Result<()> {
        self.inner.flush()
    }
}
