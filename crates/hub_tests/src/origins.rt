use hub_origin::{Origin, OriginError, origin_of};
use std::alloc::Global;
use std::process::Abort;
use std::test::Fail;

fn check_origin(rt: &impl Abort, alloc: Global, url: &str, want: &str) -> Result<(), Fail> {
    let origin: Origin = origin_of(alloc, url)?;
    assert_eq!(rt; origin.as_str(), want, "{url}");
    let copy = origin.clone()?;
    assert!(rt; copy == origin, "the clone of {url}");
    Ok(())
}

#[test]
fn origins_are_given_as_ascii_text(rt: HostRuntime) -> Result<(), Fail> {
    let alloc = rt.alloc();
    check_origin(&rt, alloc, "https://a.test:443", "https://a.test")?;
    check_origin(&rt, alloc, "HTTP://A.test:8080/x", "http://a.test:8080")?;
    check_origin(&rt, alloc, "blob:https://a.test/1", "https://a.test")?;
    Ok(())
}

#[test]
fn texts_with_no_origin_are_refused(rt: HostRuntime) -> Result<(), Fail> {
    let alloc = rt.alloc();
    let refused = [
        ("nonsense", OriginError::BadUrl),
        ("", OriginError::BadUrl),
        ("https://", OriginError::BadUrl),
        ("data:text/plain,x", OriginError::OpaqueOrigin),
        ("file:///x", OriginError::OpaqueOrigin),
    ];
    for (url, want) in refused {
        assert_eq!(rt;
            origin_of(alloc, url).err().ok_or("an origin")?,
            want,
            "{url}"
        );
    }
    Ok(())
}

#[test]
fn no_wrong_origin_is_given_whichever_allocation_is_refused(rt: HostRuntime) -> Result<(), Fail> {
    match origin_of(rt.alloc(), "https://b\u{fc}cher.test:8080/x") {
        Ok(origin) => assert_eq!(rt; origin.as_str(), "https://xn--bcher-kva.test:8080"),
        Err(error) => assert_eq!(rt; error, OriginError::OutOfMemory),
    }
    Ok(())
}
