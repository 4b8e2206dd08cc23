//! That the mode runs that is named, and that its reader and writer are really asked, which no
//! clause can say of those that one is given.
use crate::devices::{ByteReader, CountingWriter};
use crate::failures::RUNS;
use hub_engine::{
    CountedReader, CountedWriter, Device, Ending, ExitStatus, InputError, read_input,
};
use hub_modes::{Mode, run_mode, run_with_arguments};
use std::alloc::Global;
use std::io::{Read, Write};
use std::sync::Wait;
use std::test::Fail;
use std::thread::Threads;

/// What the engine of the mode answers, and its writer after that.
pub fn run<R: Read + Drop, W: Write + Drop, T: Threads + Wait + Sync>(
    alloc: Global,
    rt: &T,
    mode: Mode,
    reader: R,
    writer: W,
) -> (Result<ExitStatus, Device>, W) {
    let mut reader = CountedReader::new(reader);
    let mut writer = CountedWriter::new(writer);
    let answer = run_mode(alloc, rt, mode, &mut reader, &mut writer);
    (answer, writer.into_inner())
}

/// The words as they are typed, what is read, what is written and how it is answered.
#[test]
fn runs_the_mode_that_is_named(rt: HostRuntime) -> Result<(), Fail> {
    let rows: [(&[&str], &[u8], ExitStatus); 6] = [
        (&[], b"", ExitStatus::Usage),
        (&["fly"], b"", ExitStatus::Usage),
        (&["steps", "steps"], b"", ExitStatus::Usage),
        (&["steps"], b"line 1: UnknownStep\n", ExitStatus::BadInput),
        (&["run"], b"line 1: Syntax\n", ExitStatus::BadInput),
        (&["check"], b"line 1: BadHeader\n", ExitStatus::BadInput),
    ];
    for (words, output, status) in rows {
        let mut typed = Vec::new(rt.alloc());
        for word in words {
            typed.push(String::from_str(rt.alloc(), word)?)?;
        }
        let input: &[u8] = b"hublog 9\n";
        let mut reader = CountedReader::new(input);
        let mut writer = CountedWriter::new(Vec::<u8>::new(rt.alloc()));
        let answer = run_with_arguments(rt.alloc(), &rt, &typed, &mut reader, &mut writer);
        assert_eq!(rt; answer, Ok(status));
        assert_eq!(rt; writer.into_inner().as_slice(), output);
    }
    Ok(())
}

#[test]
fn says_why_on_standard_error(rt: HostRuntime) {
    let usage = Ending::of(Ok(ExitStatus::Usage));
    assert_eq!(rt;
        (usage.status.number(), usage.message),
        (2, Some("usage: messagehub steps|run|check"))
    );
    let failed = Ending::of(Err(Device));
    assert_eq!(rt;
        (failed.status.number(), failed.message),
        (4, Some("input or output failed"))
    );
    let done = Ending::of(Ok(ExitStatus::Success));
    assert_eq!(rt; (done.status.number(), done.message), (0, None));
}

#[test]
fn the_last_of_the_most_reads_may_find_the_end(rt: HostRuntime) -> Result<(), Fail> {
    // 1,048,576 reads: one for each byte, and one that finds the end.
    let mut reader = CountedReader::new(ByteReader { left: 1_048_575 });
    let input = read_input(rt.alloc(), &mut reader)?;
    assert_eq!(rt; input.len(), 1_048_575);
    Ok(())
}

#[test]
fn one_read_more_fails(rt: HostRuntime) {
    let mut reader = CountedReader::new(ByteReader { left: 1_048_576 });
    let answer = read_input(rt.alloc(), &mut reader);
    assert!(rt; matches!(&answer, Err(InputError::Device)));
}

#[test]
fn each_write_and_each_flush_reaches_the_writer(rt: HostRuntime) -> Result<(), Fail> {
    let mut writer = CountedWriter::new(CountingWriter::new());
    for size in [1usize, 1_000, 1_048_576] {
        let bytes = vec![in rt.alloc(); b'a'; size]?;
        assert_eq!(rt; writer.write_once(&bytes), Ok(size));
    }
    for _ in 0..2 {
        assert_eq!(rt; writer.flush(), Ok(()));
    }
    let asked = writer.into_inner();
    assert_eq!(rt;
        (asked.writes, asked.flushes, asked.bytes),
        (3, 2, 1_049_577)
    );
    Ok(())
}

#[test]
fn each_mode_ends_with_one_flush(rt: HostRuntime) {
    for (mode, input, output, status) in RUNS {
        let (answer, asked) = run(rt.alloc(), &rt, mode, input, CountingWriter::new());
        assert_eq!(rt; answer, Ok(status));
        assert_eq!(rt; (asked.flushes, asked.bytes), (1, output.len()));
    }
}
