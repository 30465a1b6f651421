//! Comments that are made blank, or taken out of a text and put back.

use std::alloc::Global;
use std::test::Fail;
use vg_patch::take_comments;
use vg_scan::{Comments, skip_comments};

/// Texts, and what they are without comments.
static SPEF: [(&[u8], &[u8]); 22] = [
    (b"", b""),
    (b"a/b:c\n", b"a/b:c\n"),
    (b"a // b\nc", b"a     \nc"),
    (b"a /* b\n*/ c // d", b"a     \n   c     "),
    (b"\"// no\" // yes", b"\"// no\"       "),
    (b"\"open // no\n// yes\n", b"\"open // no\n      \n"),
    (b"\\// no", b"\\// no"),
    (b"/*/ a */ b", b"         b"),
    (b"a /* b\n", b"a     \n"),
    (b"//", b"  "),
    (b"a /*/ b\n*/ c", b"a      \n   c"),
    (b"a /* b", b"a     "),
    (b"\"// \" // \"", b"\"// \"     "),
    (b"\"/* \n/**/b", b"\"/* \n    b"),
    (b"a\\// /b", b"a\\// /b"),
    // The last piece of a text, of each kind.
    (b"a\\", b"a\\"),
    (b"a \"b", b"a \"b"),
    (b"a \"b\"", b"a \"b\""),
    (b"a //", b"a   "),
    (b"a /*/", b"a    "),
    (b"a /**/", b"a     "),
    (b"a /", b"a /"),
];

static LIBERTY: [(&[u8], &[u8]); 3] = [
    (b"a // b\n", b"a // b\n"),
    (b"a /* b */ c", b"a         c"),
    (b"\"a\\\n/* no */\" /* yes", b"\"a\\\n/* no */\"       "),
];

fn is_cleared(alloc: Global, text: &[u8], clear: &[u8], kind: Comments) -> Result<bool, Fail> {
    Ok(skip_comments(alloc, text, kind)?.as_slice() == clear)
}

/// Whether a text is the clear one without its comments, and is the same again when they are put back.
fn comes_back(alloc: Global, text: &[u8], clear: &[u8], kind: Comments) -> Result<bool, Fail> {
    let bytes = Vec::from_slice(alloc, text)?;
    let (mut taken, comments) = take_comments(alloc, bytes, kind)?;
    let is_clear = taken.as_slice() == clear;
    comments.restore(&mut taken);
    Ok(is_clear && taken.as_slice() == text)
}

/// Whether both calls find these comments.
fn has_comments(alloc: Global, text: &[u8], clear: &[u8], kind: Comments) -> Result<bool, Fail> {
    Ok(is_cleared(alloc, text, clear, kind)? && comes_back(alloc, text, clear, kind)?)
}

#[test]
fn comments(rt: HostRuntime) -> Result<(), Fail> {
    for (text, clear) in &SPEF {
        assert!(rt;
            has_comments(rt.alloc(), text, clear, Comments::Spef)?,
            "{text:?}"
        );
    }
    for (text, clear) in &LIBERTY {
        assert!(rt;
            has_comments(rt.alloc(), text, clear, Comments::Liberty)?,
            "{text:?}"
        );
    }
    Ok(())
}
