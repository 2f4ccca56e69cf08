//! Texts of configurations, and how they are refused.
use mdcc_config::{ConfigFault, MemberName, read_config};
use std::alloc::Global;
use std::process::Abort;
use std::test::Fail;

/// A configuration of one centre without its end. Of a member that is repeated the last value counts, so
/// that a row may end it with another value.
pub const ONE_CENTRE: &str =
    r#"{"centres":1,"classic":1,"fast":1,"gamma":100,"bounds":[[0,1000]],"hosts":["127.0.0.1"],"port":9000"#;

/// How that configuration goes on, and why it is refused.
pub type Row<'a> = (&'a str, ConfigFault);

/// The text with these parts.
pub fn joined(alloc: Global, front: &str, rest: &str) -> Result<String, Fail> {
    let mut text = String::new(alloc);
    text.push_str(front)?;
    text.push_str(rest)?;
    Ok(text)
}

/// Whether the bytes are refused so.
pub fn is_refused(alloc: Global, text: &[u8], expected: &ConfigFault) -> bool {
    match read_config(alloc, text) {
        Ok(_) => false,
        Err(fault) => fault == *expected,
    }
}

/// Whether each row is refused as it says.
pub fn check(rt: &impl Abort, alloc: Global, front: &str, rows: &[Row]) -> Result<(), Fail> {
    for (rest, expected) in rows {
        let text = joined(alloc, front, rest)?;
        assert!(rt; is_refused(alloc, text.as_bytes(), expected), "{rest}");
    }
    Ok(())
}

/// Whether each row is refused for the kind of this member.
pub fn check_kind(
    rt: &impl Abort,
    alloc: Global,
    name: MemberName,
    rows: &[&str],
) -> Result<(), Fail> {
    for rest in rows {
        let text = joined(alloc, ONE_CENTRE, rest)?;
        assert!(rt;
            is_refused(alloc, text.as_bytes(), &ConfigFault::Kind(name)),
            "{rest}"
        );
    }
    Ok(())
}

/// Whether each row is refused for the range of this member.
pub fn check_range(
    rt: &impl Abort,
    alloc: Global,
    name: MemberName,
    rows: &[&str],
) -> Result<(), Fail> {
    for rest in rows {
        let text = joined(alloc, ONE_CENTRE, rest)?;
        assert!(rt;
            is_refused(alloc, text.as_bytes(), &ConfigFault::Range(name)),
            "{rest}"
        );
    }
    Ok(())
}
