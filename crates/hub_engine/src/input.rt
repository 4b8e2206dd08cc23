//! How a whole input is read.

ghost use Rattle.std.specs.Prelude.{◌≡◌, ◌<◌, ◌+◌, ◌⊎◌, false, IfOk, OnOk, length, vec_len};
ghost use Rattle.hub_engine.specs.IsInput.{IsInput, ReadsMore};
ghost use Rattle.hub_engine.specs.Failures.{CountsFailedRead, one_counted};
ghost use Rattle.hub_engine.specs.Counted.{inner_reader, reads_made, interrupted_reads};
ghost use Rattle.hub_engine.specs.Counted.{failed_reads};
ghost use Rattle.hub_envelope.specs.declared.limits.TheConstants.{MAX_READS};

use crate::counted_reader::CountedReader;
use crate::output::PIECE;
use crate::status::Device;
use hub_envelope::OutOfMemory;
use std::alloc::Global;
use std::io::Read;

/// Why an input wasn't read.
#[derive(Clone, Copy, Debug, PartialEq, Eq, Drop)]
pub enum InputError {
    Device,
    OutOfMemory,
}

impl From<OutOfMemory> for InputError {
    ghost use Rattle.hub_engine.specs.declared.input.InputError.TheVariants.{OutOfMemory};
    ghost use Rattle.std.specs.Prelude.{◌≡◌};

    ghost from_gives = { λ _ e. e ≡ OutOfMemory };

    fn from(_error: OutOfMemory) -> InputError {
        InputError::OutOfMemory
    }
}

impl From<Device> for InputError {
    ghost use Rattle.hub_engine.specs.declared.input.InputError.TheVariants as input;
    ghost use Rattle.std.specs.Prelude.{◌≡◌};

    ghost from_gives = { λ _ e. e ≡ input.Device };

    fn from(_error: Device) -> InputError {
        InputError::Device
    }
}

/// Reads the whole input, in large pieces. A read that is interrupted is made again.
/// `Device` comes where a read failed, or where the input hadn't ended after the most reads.
pub fn read_input<R: Read>(
    alloc: Global,
    reader: &mut CountedReader<R>,
) -> Result<Vec<u8>, InputError>
    ensures input { IfOk result (λ v. IsInput (R.remaining (inner_reader reader.old)) v.items) }
    ensures failures { CountsFailedRead result (failed_reads reader.old) (failed_reads reader.new) }
{
    let mut input = Vec::new(alloc);
    let mut piece = zero_bytes(alloc, PIECE)?;
    loop {
        if append_piece_or_detect_input_end(reader, &mut piece, &mut input)? {
            return Ok(input);
        }
    }
}

/// One read. It tells whether the input has ended; a read that is interrupted adds nothing. What
/// neither was interrupted nor gave a byte is the end.
fn append_piece_or_detect_input_end<R: Read>(
    reader: &mut CountedReader<R>,
    piece: &mut [u8],
    input: &mut Vec<u8>,
) -> Result<bool, InputError>
    requires { 0 < length piece.old }
    ensures bytes { IfOk result (λ has_ended. ReadsMore (R.remaining (inner_reader reader.old))
        (R.remaining (inner_reader reader.new)) input.old.items input.new.items has_ended) }
    ensures goes_on { IfOk result (λ has_ended. has_ended ≡ false →
        (length input.old.items < length input.new.items)
        ⊎ (interrupted_reads reader.new ≡ one_counted (interrupted_reads reader.old))) }
    ensures reads { OnOk result ((reads_made reader.old < MAX_READS)
        × (reads_made reader.new ≡ reads_made reader.old + 1)) }
    ensures failures { CountsFailedRead result (failed_reads reader.old) (failed_reads reader.new) }
{
    let Some(count) = reader.read_once(piece)? else {
        return Ok(false);
    };
    input.extend_from_slice(&piece[..count])?;
    Ok(count == 0)
}

fn zero_bytes(alloc: Global, len: usize) -> Result<Vec<u8>, OutOfMemory>
    ensures { IfOk result (λ v. vec_len v ≡ len) }
{
    vec![in alloc; 0u8; len]
}
