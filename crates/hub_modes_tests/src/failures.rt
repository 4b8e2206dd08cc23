// The readers and writers that fail, through the engines of all modes.
use crate::devices::{
    EndlessReader, FailingWriter, SlowReader, SlowWriter, StuckWriter, UnflushedWriter,
};
use crate::modes::run;
use hub_engine::{Device, ExitStatus};
use hub_modes::Mode;
use std::test::Fail;

/// For each mode an input, what is written for it, and the status.
pub const RUNS: [(Mode, &[u8], &[u8], ExitStatus); 4] = [
    (Mode::Steps, b"agent -\n", b"agent 0\n", ExitStatus::Success),
    (
        Mode::Steps,
        b"agent -\nfly",
        b"line 2: UnknownStep\n",
        ExitStatus::BadInput,
    ),
    (
        Mode::Run,
        b"{\"agent\":\"window\",\"origin\":\"https://a.test\"}\n",
        b"hublog 3\nagent 0\nclosed 0\ndeliveries\nclean\n",
        ExitStatus::Success,
    ),
    (
        Mode::Check,
        b"hublog 1\nagent 0\nput 1 0 0:0 - 1\nagent 1\ngot 1 0 0:0 - 1\n",
        b"clean\n",
        ExitStatus::Success,
    ),
];

#[test]
fn tells_that_a_write_failed(rt: HostRuntime) {
    for (mode, input, output, status) in RUNS {
        let size = output.len();
        let (done, _) = run(rt.alloc(), &rt, mode, input, FailingWriter::with_room(size));
        assert_eq!(rt; done, Ok(status));
        let (failed, _) = run(
            rt.alloc(),
            &rt,
            mode,
            input,
            FailingWriter::with_room(size - 1),
        );
        assert_eq!(rt; failed, Err(Device));
        let (unflushed, _) = run(rt.alloc(), &rt, mode, input, UnflushedWriter);
        assert_eq!(rt; unflushed, Err(Device));
        for is_interrupted in [false, true] {
            let (stuck, _) = run(rt.alloc(), &rt, mode, input, StuckWriter { is_interrupted });
            assert_eq!(rt; stuck, Err(Device));
        }
    }
}

#[test]
fn tells_that_the_last_of_several_writes_failed(rt: HostRuntime) -> Result<(), Fail> {
    let mut steps = String::new(rt.alloc());
    for _ in 0..20_000 {
        steps.push_str("take 0\n")?;
    }
    let input = steps.as_bytes();
    let size = 20_000 * "not-now\n".len();
    let (done, writer) = run(
        rt.alloc(),
        &rt,
        Mode::Steps,
        input,
        FailingWriter::with_room(size),
    );
    assert_eq!(rt; done, Ok(ExitStatus::Success));
    assert_eq!(rt; (writer.room, writer.writes), (0, 3));
    let small = FailingWriter::with_room(size - 1);
    let (failed, writer) = run(rt.alloc(), &rt, Mode::Steps, input, small);
    assert_eq!(rt; failed, Err(Device));
    assert_eq!(rt; (writer.room, writer.writes), (size - 1 - 2 * 65_536, 2));
    Ok(())
}

#[test]
fn reads_and_writes_a_byte_at_a_time(rt: HostRuntime) -> Result<(), Fail> {
    for (mode, input, output, status) in RUNS {
        let reader = SlowReader::new(rt.alloc(), input)?;
        let taken = Vec::new(rt.alloc());
        let (answer, writer) = run(rt.alloc(), &rt, mode, reader, SlowWriter { taken });
        assert_eq!(rt; answer, Ok(status));
        assert_eq!(rt; writer.taken.as_slice(), output);
    }
    Ok(())
}

#[test]
fn writes_nothing_after_a_failed_read(rt: HostRuntime) -> Result<(), Fail> {
    for (mode, input, _, _) in RUNS {
        for fails_at in [0, 7, input.len()] {
            let reader = SlowReader::failing_at(rt.alloc(), input, fails_at)?;
            let (answer, written) = run(rt.alloc(), &rt, mode, reader, Vec::<u8>::new(rt.alloc()));
            assert_eq!(rt; answer, Err(Device));
            assert_eq!(rt; written.len(), 0);
        }
    }
    Ok(())
}

#[test]
fn an_input_that_never_ends_is_a_failed_read(rt: HostRuntime) {
    for is_interrupted in [false, true] {
        let reader = EndlessReader { is_interrupted };
        let (answer, written) = run(
            rt.alloc(),
            &rt,
            Mode::Steps,
            reader,
            Vec::<u8>::new(rt.alloc()),
        );
        assert_eq!(rt; answer, Err(Device));
        assert_eq!(rt; written.len(), 0);
    }
}
