use solid_model::{Name, NameFault};
use std::alloc::Global;
use std::process::Abort;
use std::test::Fail;

// Whether bytes are a name, which gives them back.
fn is_name(alloc: Global, bytes: &[u8]) -> Result<bool, Fail> {
    match Name::new(alloc, bytes) {
        Ok(name) => Ok(name.bytes() == bytes),
        Err(NameFault::BadName) => Ok(false),
        Err(fault) => Err(Fail::from(fault)),
    }
}

const TOKENS: [(&[u8], bool); 10] = [
    (b"a", true),
    (b"a#", true),
    (b"disc-1", true),
    (b"\xff\x00", true),
    (b"", false),
    (b"#a", false),
    (b"a b", false),
    (b"a\t", false),
    (b"\ra", false),
    (b"a\nb", false),
];

fn expect_names(rt: &impl Abort, alloc: Global, rows: &[(&[u8], bool)]) -> Result<(), Fail> {
    for (bytes, good) in rows {
        assert!(rt; is_name(alloc, bytes)? == *good, "at {bytes:?}");
    }
    Ok(())
}

#[test]
fn takes_tokens_that_begin_no_comment(rt: HostRuntime) -> Result<(), Fail> {
    expect_names(&rt, rt.alloc(), &TOKENS)
}
