//! Scripts, and the text lines that an input is cut into.
use hub_script::{Script, ScriptError};
use hub_text::split_off_first_text_line;
use std::test::Fail;

/// Each form of script line once. The ends are the queues 0 and 1, the ports 2 to 5, the member 6.
const EACH_FORM: &str = r#"{"agent":"window","origin":"https://a.test:443/x"}
{"origin":"https://b.test","agent":"worker"}
{"channel":["p","q"],"at":0}
{"member":"m","at":0,"on":"news"}
{"channel":["r","s"],"at":1}
{"at":0,"post":"p","body":{"b":1,"a":2},"transfer":["q"]}
{"at":1,"send":0,"body":null,"transfer":["s","r"]}
{"at":0,"cast":"m","body":1}
{"at":0,"start":"p"}
{"at":0,"start":"queue"}
{"at":0,"loaded":"queue"}
{"at":0,"receive":"r"}
{"at":0,"start":"r"}
{"at":0,"close":"m"}
{"at":0,"close":"r"}
{"at":0,"wait":4294967295}
{"at":0,"order":0}
{"at":1,"event":"install"}
{"at":1,"hand":0}
{"at":0,"fetch":1}"#;

#[test]
fn each_form_is_read(rt: HostRuntime) -> Result<(), Fail> {
    let script = Script::read(rt.alloc(), EACH_FORM.as_bytes())?;
    assert_eq!(rt; (script.agents().len(), script.channels().len()), (2, 2));
    assert_eq!(rt;
        (script.broadcast_members().len(), script.actions().len()),
        (1, 15)
    );
    Ok(())
}

/// It passes whichever allocation is refused.
#[test]
fn nothing_is_read_whichever_allocation_is_refused(rt: HostRuntime) -> Result<(), Fail> {
    match Script::read(rt.alloc(), EACH_FORM.as_bytes()) {
        Ok(script) => assert_eq!(rt; script.actions().len(), 15),
        Err((_, error)) => assert_eq!(rt; error, ScriptError::OutOfMemory),
    }
    Ok(())
}

#[test]
fn cuts_an_input_into_text_lines(rt: HostRuntime) {
    let (first, rest) = split_off_first_text_line(b"take 1\n\nlast");
    assert_eq!(rt; (first, rest), (b"take 1".as_slice(), b"\nlast".as_slice()));
    let (second, rest) = split_off_first_text_line(rest);
    assert_eq!(rt; (second, rest), (b"".as_slice(), b"last".as_slice()));
    let (third, rest) = split_off_first_text_line(rest);
    assert_eq!(rt; (third, rest), (b"last".as_slice(), b"".as_slice()));
}
