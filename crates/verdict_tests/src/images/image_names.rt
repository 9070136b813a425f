//! Texts that name an image, and texts that don't.

use std::alloc::AllocError;
use std::test::Fail;
use text::ImageName;

/// What the text's name is written as, and None where it is no name.
fn written(rt: &HostRuntime, text: &str) -> Result<Option<String>, AllocError> {
    match ImageName::read(rt.alloc(), text)? {
        Some(name) => Ok(Some(format!(in rt.alloc(); "{name}")?)),
        None => Ok(None),
    }
}

#[test]
fn names_are_read_and_written(rt: HostRuntime) -> Result<(), Fail> {
    let names = [
        ("0", "0"),
        ("4294967295", "4294967295"),
        ("007", "7"),
        ("floor", "floor"),
        ("l1:1", "l1:1"),
        ("l1:1,l300:1", "l1:1,l300:1"),
        (
            "l0:0,l01:02,l4294967295:4294967295",
            "l0:0,l1:2,l4294967295:4294967295",
        ),
    ];
    for (text, name) in names {
        assert_eq!(rt; written(&rt, text)?.as_deref(), Some(name), "{text}");
    }
    Ok(())
}

#[test]
fn other_texts_are_no_names(rt: HostRuntime) -> Result<(), Fail> {
    let texts = [
        "",
        " ",
        "+1",
        "-1",
        "1 ",
        "0x1",
        "4294967296",
        "Floor",
        "floor ",
        "floor,l1:1",
        "l1:1,floor",
        ",",
        "l1:1,",
        ",l1:1",
        "l1:1,,l2:1",
        "l1:1, l2:1",
        "L1:1",
        "l1:",
        "l:1",
        ":1",
        "l1",
        "l",
        "l1=1",
        "l1:1:1",
        "l1:+1",
        "l1:-1",
        "l4294967296:1",
        "l1:4294967296",
        "l2:1,l1:1",
        "l1:1,l1:2",
        "1,l1:1",
    ];
    for text in texts {
        assert_eq!(rt; written(&rt, text)?, None, "{text}");
    }
    Ok(())
}
