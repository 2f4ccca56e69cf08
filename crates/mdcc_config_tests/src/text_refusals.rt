//! Texts that are no JSON object. The expected values come from RFC 8259 and the format, by hand.
use crate::texts::{ONE_CENTRE, is_refused, joined};
use mdcc_config::{ConfigFault, Name};
use std::alloc::Global;
use std::process::Abort;
use std::test::Fail;

#[test]
fn no_object(rt: HostRuntime) {
    let rows = [
        "",
        " ",
        "null",
        "true",
        "1",
        "\"centres\"",
        "[]",
        "[{}]",
        "{",
        "}",
        "{}x",
        "{} {}",
        "{\"port\"}",
        "{\"port\":1,}",
        "{\"port\":01}",
        "{\"port\":1e999}",
        "{port:1}",
        "{'port':1}",
        "{\"port\":+1}",
        "{\"port\":1 \"gamma\":1}",
        "{\"port\":\"\n\"}",
        "// x\n{}",
        "\u{feff}{}",
    ];
    for text in &rows {
        assert!(rt;
            is_refused(rt.alloc(), text.as_bytes(), &ConfigFault::Json),
            "{text}"
        );
    }
}

#[test]
fn no_text(rt: HostRuntime) {
    assert!(rt; is_refused(rt.alloc(), b"{\"\xff\":1}", &ConfigFault::Json));
    assert!(rt; is_refused(rt.alloc(), b"{}\xc3", &ConfigFault::Json));
    assert!(rt; is_refused(rt.alloc(), b"{\"\xed\xa0\x80\":1}", &ConfigFault::Json));
}

// A configuration with the member `a` that nests so deep, with the object itself.
fn nested(alloc: Global, levels: usize) -> Result<String, Fail> {
    let mut text = joined(alloc, ONE_CENTRE, ",\"a\":")?;
    for _ in 1..levels {
        text.push_str("[")?;
    }
    for _ in 1..levels {
        text.push_str("]")?;
    }
    text.push_str("}")?;
    Ok(text)
}

#[test]
fn nesting(rt: HostRuntime) -> Result<(), Fail> {
    let read = nested(rt.alloc(), 127)?;
    let unknown = ConfigFault::Member(Name::new(rt.alloc(), "a")?);
    assert!(rt; is_refused(rt.alloc(), read.as_bytes(), &unknown));
    let too_deep = nested(rt.alloc(), 128)?;
    assert!(rt; is_refused(rt.alloc(), too_deep.as_bytes(), &ConfigFault::Json));
    Ok(())
}
