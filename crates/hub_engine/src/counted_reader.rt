ghost use Rattle.std.specs.Prelude.{◌≡◌, ◌≢◌, ◌≤◌, ◌<◌, ◌+◌, length, Some, None, Ok, IfOk, IfErr};
ghost use Rattle.std.specs.Prelude.{IfSome, IsErr, OnOk};
ghost use Rattle.std.specs.IoError.{error_kind};
ghost use Rattle.hub_engine.specs.IsInput.{GivesBytes};
ghost use Rattle.hub_engine.specs.Failures.{CountsFailure, CountsInterruption, one_counted};
ghost use Rattle.hub_engine.specs.Counted.{inner_reader, reads_made, interrupted_reads};
ghost use Rattle.hub_engine.specs.Counted.{failed_reads};

use crate::status::Device;
use hub_envelope::MAX_READS;
use std::io;
use std::io::{ErrorKind, Read};

/// A reader of one input, with the counts of its reads, of those that were interrupted, and of
/// those that failed.
#[derive(Drop)]
pub struct CountedReader<R> {
    reader: R,
    reads: u32,
    /// It would wrap at 2^64, after more reads than there may be.
    interruptions: u64,
    /// It would wrap at 2^64; callers stop at the first failure.
    failures: u64,
}

impl<R: Read> CountedReader<R> {
    /// A reader of which nothing was read yet.
    pub fn new(reader: R) -> CountedReader<R>
        ensures reader { inner_reader result ≡ reader }
        ensures reads { reads_made result ≡ 0 }
        ensures interruptions { interrupted_reads result ≡ 0 }
        ensures failures { failed_reads result ≡ 0 }
    {
        CountedReader {
            reader,
            reads: 0,
            interruptions: 0,
            failures: 0,
        }
    }

    /// One read: the count of bytes that it gave, 0 at the end of the input, or `None` where it was
    /// interrupted. `Device` comes where the reader fails otherwise, and in place of a read after
    /// `MAX_READS` of them.
    pub fn read_once(&mut self, piece: &mut [u8]) -> Result<Option<usize>, Device>
        ensures bound { IfOk result (λ got. IfSome got (λ count. count ≤ length piece.new)) }
        ensures bytes { GivesBytes (R.remaining (inner_reader self.old))
            (R.remaining (inner_reader self.new)) result piece.new }
        ensures failures { CountsFailure result (failed_reads self.old) (failed_reads self.new) }
        ensures interruptions { CountsInterruption result (interrupted_reads self.old)
            (interrupted_reads self.new) }
        ensures reads { OnOk result ((reads_made self.old < MAX_READS)
            × (reads_made self.new ≡ reads_made self.old + 1)) }
        ensures asked { reads_made self.old < MAX_READS →
            reads_made self.new ≡ reads_made self.old + 1 }
        ensures no_more { MAX_READS ≤ reads_made self.old →
            IsErr result × (inner_reader self.new ≡ inner_reader self.old) }
    {
        if self.reads >= MAX_READS {
            return Err(self.count_failed_read());
        }
        // The count goes with the call that asks the reader, in one place.
        self.reads += 1;
        let answer = self.reader.read(piece);
        self.check_read_result_and_count_failure(answer)
    }

    /// What the reader's answer means: an interruption is counted, and is no failure.
    fn check_read_result_and_count_failure(
        &mut self,
        answer: io::Result<usize>,
    ) -> Result<Option<usize>, Device>
        ensures ok { IfOk answer (λ count. result ≡ Ok (Some count)) }
        ensures interrupted { IfErr answer (λ error.
            error_kind error ≡ ErrorKind.Interrupted → result ≡ Ok None) }
        ensures err { IfErr answer (λ error.
            error_kind error ≢ ErrorKind.Interrupted → IsErr result) }
        ensures failures { CountsFailure result (failed_reads self.old) (failed_reads self.new) }
        ensures interruptions { CountsInterruption result (interrupted_reads self.old)
            (interrupted_reads self.new) }
        ensures others { self.new ≡ record self.old {
          interruptions = interrupted_reads self.new;
          failures = failed_reads self.new;
        } }
    {
        match answer {
            Ok(count) => Ok(Some(count)),
            Err(error) if error.kind() == ErrorKind::Interrupted => {
                self.interruptions = self.interruptions.wrapping_add(1);
                Ok(None)
            }
            Err(_) => Err(self.count_failed_read()),
        }
    }

    fn count_failed_read(&mut self) -> Device
        ensures { self.new ≡ record self.old { failures = one_counted self.old.failures } }
    {
        self.failures = self.failures.wrapping_add(1);
        Device
    }
}
