//! Configurations with a member that is missing or unknown. The expected values come from the format, by
//! hand.
use crate::texts::{ONE_CENTRE, is_refused, joined};
use mdcc_config::{ConfigFault, MemberName, Name, read_config};
use std::alloc::Global;
use std::process::Abort;
use std::test::Fail;

// Whether each text that begins so is refused for the member of this name.
fn check(rt: &impl Abort, alloc: Global, front: &str, rows: &[(&str, &str)]) -> Result<(), Fail> {
    for (rest, name) in rows {
        let text = joined(alloc, front, rest)?;
        let expected = ConfigFault::Member(Name::new(alloc, name)?);
        assert!(rt; is_refused(alloc, text.as_bytes(), &expected), "{rest}");
    }
    Ok(())
}

#[test]
fn missing(rt: HostRuntime) -> Result<(), Fail> {
    check(
        &rt,
        rt.alloc(),
        "",
        &[
            ("{}", "bounds"),
            (r#"{"bounds":[]}"#, "centres"),
            (r#"{"bounds":[],"centres":1}"#, "classic"),
            (r#"{"bounds":[],"centres":1,"classic":1}"#, "fast"),
            (r#"{"bounds":[],"centres":1,"classic":1,"fast":1}"#, "gamma"),
            (
                r#"{"bounds":0,"centres":1,"classic":1,"fast":1,"gamma":"x"}"#,
                "hosts",
            ),
            (
                r#"{"bounds":0,"centres":1,"classic":1,"fast":1,"gamma":1,"hosts":0}"#,
                "port",
            ),
            (
                r#"{"bounds":0,"centres":1,"classic":1,"fast":1,"gamma":1,"hosts":0,"cells":1,"limit":"safe"}"#,
                "port",
            ),
            (r#"{"Bounds":[],"centres":1}"#, "Bounds"),
        ],
    )
}

#[test]
fn unknown(rt: HostRuntime) -> Result<(), Fail> {
    check(
        &rt,
        rt.alloc(),
        ONE_CENTRE,
        &[
            (r#","ports":1}"#, "ports"),
            (r#","z":1,"y":1,"x":1}"#, "x"),
            (r#","":1}"#, ""),
            (r#","centre":1}"#, "centre"),
            (r#","Limit":"safe"}"#, "Limit"),
            (r#","limit ":"safe"}"#, "limit "),
            (r#","é":1,"zz":1}"#, "zz"),
            (r#","\u00e9":1}"#, "é"),
            (r#","port":"x","gamma":-1,"q":1}"#, "q"),
        ],
    )
}

// The least name counts, whether it is missing or unknown.
#[test]
fn least_name(rt: HostRuntime) -> Result<(), Fail> {
    check(
        &rt,
        rt.alloc(),
        "",
        &[
            (r#"{"a":1}"#, "a"),
            (r#"{"c":1}"#, "bounds"),
            (r#"{"bounds":1,"c":1}"#, "c"),
            (r#"{"bounds":1,"centres":1,"classic":1,"d":1}"#, "d"),
            (r#"{"bounds":1,"centres":1,"classic":1,"g":1}"#, "fast"),
            (r#"{"z":1,"B":1,"bounds":1}"#, "B"),
        ],
    )
}

// Whether a member that is missing is refused by the text of its name.
fn is_refused_for(alloc: Global, text: &str, member: MemberName) -> bool {
    match read_config(alloc, text.as_bytes()) {
        Err(ConfigFault::Member(name)) => name.as_str() == member.text(),
        _ => false,
    }
}

#[test]
fn names(rt: HostRuntime) {
    assert!(rt; is_refused_for(rt.alloc(), "{}", MemberName::Bounds));
    assert!(rt; is_refused_for(rt.alloc(), r#"{"bounds":0}"#, MemberName::Centres));
}
