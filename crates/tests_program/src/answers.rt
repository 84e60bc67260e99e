//! Finds answers of classes in two files: checks them, the files afterwards, and the printed lines.

use crate::known::TwoFiles;
use bpf_decode::RuleSet;
use class_tool::{Action, Packing, RawMethod, find};
use std::process::Abort;

/// A method of two instructions.
const TEXT: &[u8] = b".method f r 0 0\nmov r0, 0\nexit\n";

/// Its code.
const CODE: &[u8] = b"\xb7\0\0\0\0\0\0\0\x95\0\0\0\0\0\0\0";

/// The image of its class.
const IMAGE: &[u8] = b"RCL1\x01\0\0\0\x01f\x01\0\0\0\0\x02\0\xb7\0\0\0\0\0\0\0\x95\0\0\0\0\0\0\0";

/// A class of two methods.
const BOTH: &[u8] = b".method e r 0 0\nmov r0, 0\nexit\n.method f r 0 0\nmov r0, 0\nexit\n";

/// A text and a file that holds something else.
fn files_of<R: Abort + AllocGlobal>(rt: &R, text: &[u8], takes: bool) -> TwoFiles {
    TwoFiles {
        text: Vec::from_slice(rt.alloc(), text).expect(rt, "memory"),
        image: Vec::from_slice(rt.alloc(), b"before").expect(rt, "memory"),
        takes,
        has_failed: false,
    }
}

/// True if the files hold that, and a write failed as told.
fn hold(files: &TwoFiles, text: &[u8], image: &[u8], has_failed: bool) -> bool {
    files.text.as_slice() == text
        && files.image.as_slice() == image
        && files.has_failed == has_failed
}

/// The lines that an action prints.
fn printed<R: Abort + AllocGlobal>(rt: &R, files: &mut TwoFiles, asked: &Action<'_>) -> String {
    let text = match find(rt.alloc(), files, asked) {
        Ok(answer) => format!(in rt.alloc(); "{answer}"),
        Err(failed) => format!(in rt.alloc(); "{}", failed.failure),
    };
    text.expect(rt, "memory")
}

#[test]
fn an_image_is_written_and_read_back(rt: HostRuntime) {
    let mut files = files_of(&rt, TEXT, true);
    let asked = Action::Assemble {
        text: "text",
        image: "image",
    };
    let said = printed(&rt, &mut files, &asked);
    assert!(rt; said.is_empty() && hold(&files, TEXT, IMAGE, false));
    let said = printed(&rt, &mut files, &Action::Verify { image: "image" });
    assert!(rt; said.as_str() == "f ok 2\n" && hold(&files, TEXT, IMAGE, false));
    let asked = Action::Disassemble {
        image: "image",
        has_slots: false,
    };
    let said = printed(&rt, &mut files, &asked);
    assert!(rt; said.as_bytes() == TEXT && hold(&files, TEXT, IMAGE, false));
}

/// A text is a class as its image is.
#[test]
fn each_method_is_shown(rt: HostRuntime) {
    let mut files = files_of(&rt, BOTH, true);
    let asked = Action::Disassemble {
        image: "text",
        has_slots: false,
    };
    let said = printed(&rt, &mut files, &asked);
    assert!(rt; said.as_bytes() == BOTH && hold(&files, BOTH, b"before", false));
}

#[test]
fn raw_code_becomes_an_image(rt: HostRuntime) {
    let mut files = files_of(&rt, CODE, true);
    let method = RawMethod {
        name: "f",
        flags: 1,
        in_cap: 0,
        out_cap: 0,
        code: "text",
    };
    let asked = Action::Pack(Packing {
        image: "image",
        rules: RuleSet::One,
        methods: vec![in rt.alloc(); method].expect(&rt, "memory"),
    });
    let said = printed(&rt, &mut files, &asked);
    assert!(rt; said.is_empty() && hold(&files, CODE, IMAGE, false));
}

/// Files that can't be written, which stay, and one that isn't there.
#[test]
fn a_failed_write_leaves_the_files(rt: HostRuntime) {
    for (takes, image) in [(false, "image"), (true, "other")] {
        let mut files = files_of(&rt, TEXT, takes);
        let asked = Action::Assemble {
            text: "text",
            image,
        };
        let said = printed(&rt, &mut files, &asked);
        assert!(rt; said.as_str() == "cannot write" && hold(&files, TEXT, b"before", true));
    }
}

#[test]
fn an_absent_file_is_not_read(rt: HostRuntime) {
    let mut files = files_of(&rt, TEXT, true);
    let said = printed(&rt, &mut files, &Action::Verify { image: "other" });
    assert!(rt; said.as_str() == "cannot read" && hold(&files, TEXT, b"before", false));
}
