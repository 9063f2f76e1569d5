//! The section is read and written, and objects are asked what they use and whether they agree.

use feature_section::{
    Conflict, Feature, FeatureMark, FeaturesError, Saying, first_conflict, read_features, union_of,
    write_features, write_payload,
};
use std::alloc::Global;
use wl_base::{Name, Seq};

/// As clang writes it: two features that are used.
const ATOMICS: [u8; 23] = *b"\x02+\x07atomics+\x0bbulk-memory";

/// As clang writes it for thread-local data without atomics: a feature that is disallowed.
const LOCAL: [u8; 13] = *b"\x01-\x0ashared-mem";

/// A feature that is required, and one that is disallowed.
const OLDER: [u8; 15] = *b"\x02=\x03abc-\x07atomics";

/// One that is used.
const PLAIN: [u8; 6] = *b"\x01+\x03abc";

/// No feature.
const NONE: [u8; 1] = [0];

/// The whole section of the features in `ATOMICS`.
const SECTION: [u8; 41] = *b"\x00\x27\x0ftarget_features\x02+\x07atomics+\x0bbulk-memory";

fn is(feature: &Feature, mark: FeatureMark, name: &[u8]) -> bool {
    feature.mark == mark && feature.name.as_slice() == name
}

fn are_older(features: &[Feature]) -> bool {
    match features {
        [a, b] => {
            is(a, FeatureMark::Required, b"abc".as_slice())
                && is(b, FeatureMark::Disallowed, b"atomics".as_slice())
        }
        _ => false,
    }
}

/// Whether the features of `OLDER` are read.
fn older_is_read(alloc: Global) -> Option<bool> {
    let features = read_features(alloc, OLDER.as_slice()).ok()?;
    Some(are_older(features.as_slice()))
}

fn refusal(alloc: Global, payload: &[u8]) -> Option<FeaturesError> {
    match read_features(alloc, payload) {
        Ok(_) => None,
        Err(refusal) => Some(refusal),
    }
}

fn add(alloc: Global, objects: &mut Seq<Seq<Feature>>, payload: &[u8]) -> Option<()> {
    let features = read_features(alloc, payload).ok()?;
    objects.push(features).ok()
}

/// Three objects.
fn objects(alloc: Global, a: &[u8], b: &[u8], c: &[u8]) -> Option<Seq<Seq<Feature>>> {
    let mut objects = Seq::new(alloc);
    add(alloc, &mut objects, a)?;
    add(alloc, &mut objects, b)?;
    add(alloc, &mut objects, c)?;
    Some(objects)
}

/// What three objects use.
fn union(alloc: Global, a: &[u8], b: &[u8], c: &[u8]) -> Option<Seq<Name>> {
    let objects = objects(alloc, a, b, c)?;
    union_of(alloc, objects.as_slice()).ok()
}

/// The first conflict of three objects.
fn conflict(alloc: Global, a: &[u8], b: &[u8], c: &[u8]) -> Option<Option<Conflict>> {
    let objects = objects(alloc, a, b, c)?;
    first_conflict(alloc, objects.as_slice()).ok()
}

fn are_all(names: &[Name]) -> bool {
    match names {
        [a, b, c] => {
            a.as_slice() == b"abc".as_slice()
                && b.as_slice() == b"atomics".as_slice()
                && c.as_slice() == b"bulk-memory".as_slice()
        }
        _ => false,
    }
}

/// Whether objects use together what they use.
fn all_are_used(alloc: Global) -> Option<bool> {
    let names = union(
        alloc,
        ATOMICS.as_slice(),
        LOCAL.as_slice(),
        OLDER.as_slice(),
    )?;
    Some(are_all(names.as_slice()))
}

/// Whether what an object uses is written as its section.
fn section_is_written(alloc: Global) -> Option<bool> {
    let names = union(
        alloc,
        NONE.as_slice(),
        ATOMICS.as_slice(),
        ATOMICS.as_slice(),
    )?;
    let section = write_features(alloc, names.as_slice()).ok()?;
    Some(section.as_slice() == SECTION.as_slice())
}

/// Whether it is written as its payload.
fn payload_is_written(alloc: Global) -> Option<bool> {
    let names = union(
        alloc,
        NONE.as_slice(),
        ATOMICS.as_slice(),
        ATOMICS.as_slice(),
    )?;
    let payload = write_payload(alloc, names.as_slice()).ok()?;
    Some(payload.as_slice() == ATOMICS.as_slice())
}

/// How long the section of no name is.
fn empty_len(alloc: Global) -> Option<usize> {
    let section = write_features(alloc, &[]).ok()?;
    Some(section.len())
}

/// The conflict of an object with what stands at a place.
fn against(object: usize, other: usize, place: usize) -> Option<Option<Conflict>> {
    let against = Saying {
        object: other,
        place,
    };
    Some(Some(Conflict { object, against }))
}

#[test]
fn features_are_read(rt: HostRuntime) {
    assert_eq!(rt; older_is_read(rt.alloc()), Some(true));
    assert_eq!(rt; refusal(rt.alloc(), NONE.as_slice()), None);
}

#[test]
fn other_bytes_are_refused(rt: HostRuntime) {
    assert_eq!(rt; refusal(rt.alloc(), &[]), Some(FeaturesError::NotFeatures));
    assert_eq!(rt;
        refusal(rt.alloc(), &[0, 0]),
        Some(FeaturesError::NotFeatures)
    );
    assert_eq!(rt;
        refusal(rt.alloc(), &[1, 0x2a, 0]),
        Some(FeaturesError::NotFeatures)
    );
    assert_eq!(rt;
        refusal(rt.alloc(), &[1, 0x2b, 1, 0xff]),
        Some(FeaturesError::NotFeatures)
    );
}

#[test]
fn what_is_used_is_written(rt: HostRuntime) {
    assert_eq!(rt; all_are_used(rt.alloc()), Some(true));
    assert_eq!(rt; section_is_written(rt.alloc()), Some(true));
    assert_eq!(rt; payload_is_written(rt.alloc()), Some(true));
    assert_eq!(rt; empty_len(rt.alloc()), Some(0));
}

#[test]
fn objects_agree_or_one_goes_against_another(rt: HostRuntime) {
    let alloc = rt.alloc();
    let plain = PLAIN.as_slice();
    let older = OLDER.as_slice();
    assert_eq!(rt;
        conflict(alloc, plain, LOCAL.as_slice(), ATOMICS.as_slice()),
        Some(None)
    );
    assert_eq!(rt; conflict(alloc, plain, older, plain), Some(None));
    assert_eq!(rt;
        conflict(alloc, plain, ATOMICS.as_slice(), older),
        against(1, 2, 1)
    );
    assert_eq!(rt;
        conflict(alloc, older, plain, LOCAL.as_slice()),
        against(2, 0, 0)
    );
}
