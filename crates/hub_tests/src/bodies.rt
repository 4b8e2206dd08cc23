// The texts that `Body::read` takes and refuses.
use hub_envelope::{Body, BodyError, MAX_BODY_BYTES, MAX_NESTING, MAX_PORTS};
use std::alloc::{AllocError, Global};
use std::process::Abort;
use std::test::Fail;

/// A string in quotes, of that many letters `a`.
fn quoted(alloc: Global, letters: usize) -> Result<String, AllocError> {
    let inner = "a".repeat(alloc, letters)?;
    format!(in alloc; "\"{inner}\"")
}

/// Empty arrays, so many inside each other.
fn nested(alloc: Global, levels: usize) -> Result<String, AllocError> {
    let front = "[".repeat(alloc, levels)?;
    let back = "]".repeat(alloc, levels)?;
    format!(in alloc; "{front}{back}")
}

fn assert_reads(rt: &(impl Abort + AllocGlobal), text: &str, want: Result<&str, BodyError>) {
    match (Body::read(rt.alloc(), text), want) {
        (Ok(found), Ok(want)) => assert_eq!(rt; found.text(), want, "of {text}"),
        (Err(found), Err(want)) => assert_eq!(rt; found, want, "of {text}"),
        (found, want) => panic!(rt; "{text}: {found:?} in place of {want:?}"),
    }
}

/// The row `bodies`; of what else is read and refused the rows are in tests/rows/steps.
const BODIES: &[(&str, Result<&str, BodyError>)] = &[
    ("{\"b\":1,\"a\":2}", Ok("{\"a\":2,\"b\":1}")),
    ("18446744073709551615", Ok("18446744073709551615")),
    ("18446744073709551616", Err(BodyError::NotWhole)),
    ("1.5", Err(BodyError::NotWhole)),
    ("1e2", Err(BodyError::NotWhole)),
    ("[1,", Err(BodyError::NotJson)),
];

#[test]
fn bodies(rt: HostRuntime) -> Result<(), Fail> {
    for (text, want) in BODIES {
        assert_reads(&rt, *text, *want);
    }
    assert_eq!(rt; (MAX_NESTING, MAX_BODY_BYTES, MAX_PORTS), (64, 262_144, 16));
    let (deepest, longest) = (nested(rt.alloc(), 64)?, quoted(rt.alloc(), 262_142)?);
    assert_reads(&rt, deepest.as_str(), Ok(deepest.as_str()));
    assert_reads(&rt, longest.as_str(), Ok(longest.as_str()));
    Ok(())
}

#[test]
fn refuses_one_level_and_one_letter_more(rt: HostRuntime) -> Result<(), Fail> {
    let (deeper, longer) = (nested(rt.alloc(), 65)?, quoted(rt.alloc(), 262_143)?);
    assert_reads(&rt, deeper.as_str(), Err(BodyError::TooDeep));
    assert_reads(&rt, longer.as_str(), Err(BodyError::TooLong));
    Ok(())
}

/// It passes whichever allocation is refused: then no other answer but want of memory is right.
#[test]
fn answers_right_whichever_allocation_is_refused(rt: HostRuntime) {
    for (text, want) in [
        (
            "{\"b\":[\"x\",-1,{\"c\":null}],\"a\":\"\\u00e9\"}",
            Ok("{\"a\":\"é\",\"b\":[\"x\",-1,{\"c\":null}]}"),
        ),
        (
            "[\"long enough for a buffer\",1.5]",
            Err(BodyError::NotWhole),
        ),
        ("[1,", Err(BodyError::NotJson)),
    ] {
        match (Body::read(rt.alloc(), text), want) {
            (Ok(body), Ok(want)) => assert_eq!(rt; body.text(), want),
            (Err(BodyError::OutOfMemory), _) => (),
            (Err(error), Err(want)) => assert_eq!(rt; error, want),
            (found, _) => panic!(rt; "{found:?} of {text}"),
        }
    }
}

#[test]
fn refusals_have_a_message(rt: HostRuntime) -> Result<(), Fail> {
    for (error, want) in [
        (BodyError::NotJson, "not JSON"),
        (BodyError::NotWhole, "a number that is not whole"),
        (BodyError::TooDeep, "nested too deep"),
        (BodyError::TooLong, "too long"),
        (BodyError::OutOfMemory, "out of memory"),
    ] {
        assert_eq!(rt; error.to_string(rt.alloc())?.as_str(), want);
    }
    Ok(())
}
