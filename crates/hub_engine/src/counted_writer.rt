ghost use Rattle.std.specs.Prelude.{◌≡◌, ◌≤◌, ◌<◌, length, take, Ok, IfOk, IsOk, IsErr, OnOk};
ghost use Rattle.std.specs.Prelude.{OnErr};
ghost use Rattle.std.specs.Io.KnownBytes.{Appends, Keeps};
ghost use Rattle.hub_engine.specs.Failures.{CountsFailure, one_counted};
ghost use Rattle.hub_engine.specs.Counted.{inner_writer, writes_made, flushes_made, failed_writes};

use crate::status::Device;
use std::io;
use std::io::Write;

/// A writer, with the counts of its writes, of its flushes, and of those that failed. Each would
/// wrap at 2^64.
#[derive(Drop)]
pub struct CountedWriter<W> {
    writer: W,
    writes: u64,
    flushes: u64,
    failures: u64,
}

impl<W: Write> CountedWriter<W> {
    /// A writer to which nothing was written yet.
    pub fn new(writer: W) -> CountedWriter<W>
        ensures writer { inner_writer result ≡ writer }
        ensures writes { writes_made result ≡ 0 }
        ensures flushes { flushes_made result ≡ 0 }
        ensures failures { failed_writes result ≡ 0 }
    {
        CountedWriter {
            writer,
            writes: 0,
            flushes: 0,
            failures: 0,
        }
    }

    /// One write: how many of the bytes the writer took. `Device` comes where it fails, is
    /// interrupted or takes no byte.
    pub fn write_once(&mut self, bytes: &[u8]) -> Result<usize, Device>
        ensures bound { IfOk result (λ count. (0 < count) × (count ≤ length bytes.now)) }
        ensures bytes { IfOk result (λ count.
            Appends (W.contents (inner_writer self.old))
            (W.contents (inner_writer self.new)) (take count bytes.now)) }
        ensures kept { OnErr result (Keeps (W.contents (inner_writer self.old))
            (W.contents (inner_writer self.new))) }
        ensures failures { CountsFailure result (failed_writes self.old) (failed_writes self.new) }
        ensures asked { (writes_made self.new ≡ one_counted (writes_made self.old))
            × (flushes_made self.new ≡ flushes_made self.old) }
    {
        self.writes = self.writes.wrapping_add(1);
        let answer = self.writer.write(bytes);
        self.check_write_result_and_count_failure(answer)
    }

    /// Sees that what was written has gone out. `Device` comes where it may not have.
    pub fn flush(&mut self) -> Result<(), Device>
        ensures kept { Keeps (W.contents (inner_writer self.old))
            (W.contents (inner_writer self.new)) }
        ensures failures { CountsFailure result (failed_writes self.old) (failed_writes self.new) }
        ensures asked { (flushes_made self.new ≡ one_counted (flushes_made self.old))
            × (writes_made self.new ≡ writes_made self.old) }
    {
        self.flushes = self.flushes.wrapping_add(1);
        let answer = self.writer.flush();
        self.check_flush_result_and_count_failure(answer)
    }

    /// What the answer to a write means: an error, or that no byte was taken, is a failure.
    fn check_write_result_and_count_failure(
        &mut self,
        answer: io::Result<usize>,
    ) -> Result<usize, Device>
        ensures ok { IfOk answer (λ count. 0 < count → result ≡ Ok count) }
        ensures none_taken { IfOk answer (λ count. count ≡ 0 → IsErr result) }
        ensures err { OnErr answer (IsErr result) }
        ensures failures { CountsFailure result (failed_writes self.old) (failed_writes self.new) }
        ensures others { self.new ≡ record self.old { failures = failed_writes self.new } }
    {
        match answer {
            Ok(count) if count > 0 => Ok(count),
            _ => Err(self.count_failed_write()),
        }
    }

    /// What the answer to a flush means: an error is a failure.
    fn check_flush_result_and_count_failure(&mut self, answer: io::Result<()>) -> Result<(), Device>
        ensures ok { OnOk answer (IsOk result) }
        ensures err { OnErr answer (IsErr result) }
        ensures failures { CountsFailure result (failed_writes self.old) (failed_writes self.new) }
        ensures others { self.new ≡ record self.old { failures = failed_writes self.new } }
    {
        match answer {
            Ok(()) => Ok(()),
            Err(_) => Err(self.count_failed_write()),
        }
    }

    fn count_failed_write(&mut self) -> Device
        ensures { self.new ≡ record self.old { failures = one_counted self.old.failures } }
    {
        self.failures = self.failures.wrapping_add(1);
        Device
    }

    /// The writer, with what it took.
    pub fn into_inner(self) -> W
        ensures { result ≡ inner_writer self }
    {
        self.writer
    }
}
