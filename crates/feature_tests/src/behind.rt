//! What stands behind a module of small objects that say something of features.

use debug_out::DebugError;
use link_plan::FeatureWords;
use object_features::feature_tail;
use object_file::{Object, ObjectError, read_object};
use std::alloc::Global;
use wl_base::{Fault, FeatureRule, FileSpan, InputId, Name, OutOfMemory, Part, Seq, Span};

/// An object without anything: its head, and that it is an object.
const EMPTY: [u8; 19] = *b"\0asm\x01\0\0\0\0\x09\x07linking\x02";

/// The section of an object that uses `abc`.
const USES: [u8; 24] = *b"\0\x16\x0ftarget_features\x01+\x03abc";

/// It uses it, and each other object is to use it.
const REQUIRES: [u8; 24] = *b"\0\x16\x0ftarget_features\x01=\x03abc";

/// No object may use it.
const DISALLOWS: [u8; 24] = *b"\0\x16\x0ftarget_features\x01-\x03abc";

/// No list of features.
const BROKEN: [u8; 24] = *b"\0\x16\x0ftarget_features\x01*\x03abc";

/// The section of a module that says `abc` and `xy`.
const BOTH: [u8; 28] = *b"\0\x1a\x0ftarget_features\x02+\x03abc+\x02xy";

/// The section of a module that says `xy` alone.
const OTHER: [u8; 23] = *b"\0\x15\x0ftarget_features\x01+\x02xy";

/// What is asked.
#[derive(Clone, Copy)]
struct Asked {
    /// Words tell that no feature is allowed.
    none_allowed: bool,
    checked: bool,
    kept: bool,
}

const CHECKED: Asked = Asked {
    none_allowed: false,
    checked: true,
    kept: true,
};

/// The words of that, which add the feature `xy`.
fn words_of(alloc: Global, asked: Asked) -> Result<Option<FeatureWords>, OutOfMemory> {
    let mut extra = Seq::new(alloc);
    extra.push(Seq::from_slice(alloc, b"xy".as_slice())?)?;
    let allowed: Option<Seq<Name>> = if asked.none_allowed {
        Some(Seq::new(alloc))
    } else {
        None
    };
    Ok(Some(FeatureWords {
        allowed,
        extra,
        checked: asked.checked,
        kept: asked.kept,
    }))
}

fn file_of(alloc: Global, section: &[u8]) -> Result<Seq<u8>, OutOfMemory> {
    let mut file = Seq::from_slice(alloc, EMPTY.as_slice())?;
    file.extend_from_slice(section)?;
    Ok(file)
}

fn files_of(alloc: Global, sections: &[&[u8]]) -> Result<Seq<Seq<u8>>, OutOfMemory> {
    let mut files = Seq::new(alloc);
    for section in sections {
        files.push(file_of(alloc, section)?)?;
    }
    Ok(files)
}

fn object_of(alloc: Global, input: InputId, bytes: &[u8]) -> Result<Object, OutOfMemory> {
    match read_object(alloc, input, bytes) {
        Ok(object) => Ok(object),
        Err(ObjectError::Refused(_) | ObjectError::OutOfMemory) => Err(OutOfMemory),
    }
}

/// The objects of files, which are the inputs from 1 on.
fn objects_of(alloc: Global, files: &[Seq<u8>]) -> Result<Seq<Object>, OutOfMemory> {
    let mut objects = Seq::new(alloc);
    for file in files {
        let input = (objects.len() % 1000) as u32 + 1;
        objects.push(object_of(alloc, input, file.as_slice())?)?;
    }
    Ok(objects)
}

fn spans_of(alloc: Global, files: &[Seq<u8>]) -> Result<Seq<FileSpan>, OutOfMemory> {
    let mut spans = Seq::new(alloc);
    for file in files {
        let span = Span {
            start: 0,
            len: file.len() as u64,
        };
        let file = (spans.len() % 1000) as u32;
        spans.push(FileSpan { file, span })?;
    }
    Ok(spans)
}

/// What is to be answered.
#[derive(Clone, Copy)]
enum Wanted<'a> {
    /// This section.
    Bytes(&'a [u8]),
    /// The section of this number of this input is broken.
    Broken(InputId, u32),
    /// The input goes against what another one says of `abc`.
    Against(InputId, InputId, FeatureRule),
}

fn is_fault(fault: &Fault, wanted: Wanted<'_>) -> bool {
    match (fault, wanted) {
        (Fault::Malformed { input, part }, Wanted::Broken(object, at)) => {
            *input == object && *part == Part::Section(at)
        }
        (
            Fault::Feature {
                name,
                input,
                by,
                rule,
            },
            Wanted::Against(object, other, forbids),
        ) => {
            name.as_slice() == b"abc".as_slice()
                && *input == object
                && *by == other
                && *rule == forbids
        }
        _ => false,
    }
}

fn are_bytes(bytes: &[u8], wanted: Wanted<'_>) -> bool {
    match wanted {
        Wanted::Bytes(others) => bytes == others,
        _ => false,
    }
}

fn is_refused_so(error: DebugError, wanted: Wanted<'_>) -> bool {
    match error {
        DebugError::Refused(fault) => is_fault(&fault, wanted),
        DebugError::OutOfMemory => false,
    }
}

fn is_wanted(answer: Result<Seq<u8>, DebugError>, wanted: Wanted<'_>) -> bool {
    match answer {
        Ok(bytes) => are_bytes(bytes.as_slice(), wanted),
        Err(error) => is_refused_so(error, wanted),
    }
}

/// Whether objects with these sections are answered so.
fn answers(
    alloc: Global,
    asked: Asked,
    sections: &[&[u8]],
    wanted: Wanted<'_>,
) -> Result<bool, OutOfMemory> {
    let files = files_of(alloc, sections)?;
    let objects = objects_of(alloc, files.as_slice())?;
    let spans = spans_of(alloc, files.as_slice())?;
    let words = words_of(alloc, asked)?;
    let answer = feature_tail(
        alloc,
        &words,
        objects.as_slice(),
        files.as_slice(),
        spans.as_slice(),
    );
    Ok(is_wanted(answer, wanted))
}

fn gives(alloc: Global, asked: Asked, a: &[u8], b: &[u8], wanted: Wanted<'_>) -> bool {
    match answers(alloc, asked, &[a, b], wanted) {
        Ok(holds) => holds,
        Err(_) => false,
    }
}

/// What two objects use is said, and what words add; or nothing of it.
fn said_or_not(alloc: Global) -> bool {
    let uses = USES.as_slice();
    let silent = Asked {
        kept: false,
        ..CHECKED
    };
    gives(alloc, CHECKED, uses, uses, Wanted::Bytes(BOTH.as_slice()))
        && gives(alloc, CHECKED, &[], uses, Wanted::Bytes(BOTH.as_slice()))
        && gives(alloc, silent, uses, uses, Wanted::Bytes(&[]))
}

fn broken_is_refused(alloc: Global) -> bool {
    let uses = USES.as_slice();
    gives(
        alloc,
        CHECKED,
        uses,
        BROKEN.as_slice(),
        Wanted::Broken(2, 1),
    )
}

/// What isn't allowed is refused, unless nothing is checked.
fn allowed_alone(alloc: Global) -> bool {
    let uses = USES.as_slice();
    let only = Asked {
        none_allowed: true,
        ..CHECKED
    };
    let unchecked = Asked {
        checked: false,
        ..only
    };
    let refused = Wanted::Against(2, 0, FeatureRule::NotAllowed);
    gives(alloc, only, &[], uses, refused)
        && gives(alloc, unchecked, &[], uses, Wanted::Bytes(OTHER.as_slice()))
}

/// Objects that go against one another are refused, unless nothing is checked.
fn they_agree(alloc: Global) -> bool {
    let uses = USES.as_slice();
    let disallows = DISALLOWS.as_slice();
    let demands = REQUIRES.as_slice();
    let unchecked = Asked {
        checked: false,
        ..CHECKED
    };
    let disallowed = Wanted::Against(1, 2, FeatureRule::Disallowed);
    let required = Wanted::Against(2, 1, FeatureRule::Required);
    gives(alloc, CHECKED, uses, disallows, disallowed)
        && gives(alloc, CHECKED, demands, &[], required)
        && gives(
            alloc,
            CHECKED,
            demands,
            uses,
            Wanted::Bytes(BOTH.as_slice()),
        )
        && gives(
            alloc,
            unchecked,
            uses,
            disallows,
            Wanted::Bytes(BOTH.as_slice()),
        )
}

#[test]
fn features_stand_behind_a_module(rt: HostRuntime) {
    assert!(rt; said_or_not(rt.alloc()));
    assert!(rt; broken_is_refused(rt.alloc()));
}

#[test]
fn objects_are_checked(rt: HostRuntime) {
    assert!(rt; allowed_alone(rt.alloc()));
    assert!(rt; they_agree(rt.alloc()));
}
