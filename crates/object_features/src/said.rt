//! What loaded objects say of features, read section by section. Objects of one compilation say the same, so where only what they say together
//! is asked, a payload that is equal to the one before it isn't read again.
ghost use Rattle.std.specs.Prelude.{◌≡◌, [], OnOk, IfOk, map};
ghost use Rattle.debug_rules.specs.Sections.{customs as customs_of};
ghost use Rattle.debug_out.specs.Answers.{Answers, Puts};
ghost use Rattle.debug_out.specs.Refs.{custom_seen};
ghost use Rattle.debug_out.specs.Inputs.{inputs_of};
ghost use Rattle.object_features.specs.Said.{is_features, section_said, said};
ghost use Rattle.object_features.specs.Check.{numbers_of};
ghost use Rattle.object_features.specs.Onto.{is_plain, are_plain, none_noted, noted_with, with_section, with_sections, noted_onto, noted_in, behind, said_onto, is_last, Has};
ghost use Rattle.object_features.specs.Used.{last_seen};

use debug_out::{CustomRef, DebugError, bytes_in, customs};
use feature_section::laws::used_twice_is_used_once;
use feature_section::{Feature, FeatureMark, FeatureNames, FeaturesError, read_features};
use object_file::Object;
use std::alloc::Global;
use std::marker::Model;
use wl_base::{Fault, FileSpan, InputId, OutOfMemory, Part, Seq};

const SECTION_NAME: [u8; 15] = *b"target_features";

fn is_features(c: &CustomRef<'_>) -> bool
    ensures { result ≡ is_features (custom_seen c.now) }
{
    c.name == SECTION_NAME.as_slice()
}

/// The features that a section of this name tells.
fn read_section(
    alloc: Global,
    input: InputId,
    c: &CustomRef<'_>,
) -> Result<Seq<Feature>, DebugError>
    ensures { Answers result (section_said input (custom_seen c.now)) }
{
    match read_features(alloc, c.content) {
        Ok(features) => Ok(features),
        Err(FeaturesError::NotFeatures) => Err(DebugError::Refused(Fault::Malformed {
            input,
            part: Part::Section(c.at),
        })),
        Err(FeaturesError::OutOfMemory) => Err(DebugError::OutOfMemory),
    }
}

// ---- what they say together

/// Whether nothing is asked of other objects.
fn is_plain(mark: FeatureMark) -> bool
    ensures { result ≡ is_plain mark }
{
    match mark {
        FeatureMark::Used => true,
        FeatureMark::Required | FeatureMark::Disallowed => false,
    }
}

fn are_plain(features: &[Feature]) -> bool
    ensures { result ≡ are_plain features.now }
{
    features.iter().all(|f| is_plain(f.mark))
}

/// What objects say together.
#[derive(Drop)]
pub(crate) struct Together {
    /// The names of the features that they use, in their order.
    pub names: FeatureNames,
    /// Nothing is asked of other objects.
    pub plain: bool,
}

impl Model for Together {
    ghost use Rattle.object_features.specs.Onto.{Noted};

    ghost Value = { Noted };

    ghost view = { λ t. record { names = t.names; plain = t.plain } };
}

impl Together {
    /// Of no object.
    fn new(alloc: Global) -> Together
        ensures { result ≡ none_noted }
    {
        Together {
            names: FeatureNames::new(alloc),
            plain: true,
        }
    }

    /// Adds these features.
    fn add(&mut self, alloc: Global, features: &[Feature]) -> Result<(), OutOfMemory>
        ensures { OnOk result (self.new ≡ noted_with self.old features.now) }
    {
        self.names.add_used(alloc, features)?;
        self.plain = self.plain && are_plain(features);
        Ok(())
    }
}

/// What was read until now.
#[derive(Drop)]
struct Used<'a> {
    together: Together,
    /// The payload that was read last.
    last: Option<&'a [u8]>,
}

/// Whether this payload was read last.
fn is_last(used: &Used<'_>, payload: &[u8]) -> bool
    ensures { result ≡ is_last (last_seen used.now) payload.now }
{
    match used.last {
        Some(last) => last == payload,
        None => false,
    }
}

/// Adds what a section says.
#[tactic(auto, using(crate::proofs::Joining::has_now))]
fn add_section<'a>(
    alloc: Global,
    used: &mut Used<'a>,
    input: InputId,
    c: &CustomRef<'a>,
) -> Result<(), DebugError>
    requires { Has used.old.together (last_seen used.old) }
    ensures says { Puts result used.new.together (with_section noted_with input used.old.together (custom_seen c.now)) }
    ensures has { OnOk result (Has used.new.together (last_seen used.new)) }
{
    if !is_features(c) || is_last(used, c.content) {
        return Ok(());
    }
    let features = read_section(alloc, input, c)?;
    used_twice_is_used_once();
    used.together.add(alloc, features.as_slice())?;
    used.last = Some(c.content);
    Ok(())
}

/// Adds what these sections of an object say.
fn add_sections<'a>(
    alloc: Global,
    used: &mut Used<'a>,
    input: InputId,
    sections: &[CustomRef<'a>],
) -> Result<(), DebugError>
    requires { Has used.old.together (last_seen used.old) }
    ensures says { Puts result used.new.together (with_sections noted_with input used.old.together (map custom_seen sections.now)) }
    ensures has { OnOk result (Has used.new.together (last_seen used.new)) }
{
    for c in sections {
        add_section(alloc, used, input, c)?;
    }
    Ok(())
}

/// Adds what an object says.
fn add_object<'a>(
    alloc: Global,
    used: &mut Used<'a>,
    input: InputId,
    bytes: &'a [u8],
) -> Result<(), DebugError>
    requires { Has used.old.together (last_seen used.old) }
    ensures says { Puts result used.new.together (with_sections noted_with input used.old.together (customs_of bytes.now)) }
    ensures has { OnOk result (Has used.new.together (last_seen used.new)) }
{
    let sections = customs(alloc, bytes)?;
    add_sections(alloc, used, input, sections.as_slice())
}

/// Adds what each object says.
fn added(
    alloc: Global,
    objects: &[Object],
    files: &[Seq<u8>],
    spans: &[FileSpan],
) -> Result<Together, DebugError>
    ensures { Answers result (noted_onto none_noted (inputs_of files.now objects.now spans.now)) }
{
    let mut used = Used {
        together: Together::new(alloc),
        last: None,
    };
    let mut os = objects;
    let mut ss = spans;
    while let [o, others @ ..] = os {
        let [s, more @ ..] = ss else {
            return Ok(used.together);
        };
        add_object(alloc, &mut used, o.input, bytes_in(files, *s))?;
        os = others;
        ss = more;
    }
    Ok(used.together)
}

/// What the objects say together, or the first section that is broken.
#[tactic(auto, using(crate::proofs::Joining::as_noted))]
pub(crate) fn said_together(
    alloc: Global,
    objects: &[Object],
    files: &[Seq<u8>],
    spans: &[FileSpan],
) -> Result<Together, DebugError>
    ensures { Answers result (noted_in (inputs_of files.now objects.now spans.now)) }
{
    let answer = added(alloc, objects, files, spans);
    answer
}

// ---- what each says

/// Puts features behind others.
fn put_behind(front: &mut Seq<Feature>, features: Seq<Feature>) -> Result<(), OutOfMemory>
    ensures { OnOk result (front.new ≡ behind front.old features) }
{
    for feature in features.into_vec() {
        front.push(feature)?;
    }
    Ok(())
}

/// Puts what these sections of an object say behind other features.
fn put_sections(
    alloc: Global,
    front: &mut Seq<Feature>,
    input: InputId,
    sections: &[CustomRef<'_>],
) -> Result<(), DebugError>
    ensures { Puts result front.new (with_sections behind input front.old (map custom_seen sections.now)) }
{
    for c in sections {
        if is_features(c) {
            let features = read_section(alloc, input, c)?;
            put_behind(front, features)?;
        }
    }
    Ok(())
}

/// What an object says.
fn object_said(alloc: Global, input: InputId, bytes: &[u8]) -> Result<Seq<Feature>, DebugError>
    ensures { Answers result (with_sections behind input [] (customs_of bytes.now)) }
{
    let sections = customs(alloc, bytes)?;
    let mut features = Seq::new(alloc);
    put_sections(alloc, &mut features, input, sections.as_slice())?;
    Ok(features)
}

/// What each object says, one after another.
fn listed(
    alloc: Global,
    objects: &[Object],
    files: &[Seq<u8>],
    spans: &[FileSpan],
) -> Result<Seq<Seq<Feature>>, DebugError>
    ensures { Answers result (said_onto [] (inputs_of files.now objects.now spans.now)) }
{
    let mut lists = Seq::new(alloc);
    let mut os = objects;
    let mut ss = spans;
    while let [o, others @ ..] = os {
        let [s, more @ ..] = ss else {
            return Ok(lists);
        };
        let features = object_said(alloc, o.input, bytes_in(files, *s))?;
        lists.push(features)?;
        os = others;
        ss = more;
    }
    Ok(lists)
}

/// What each object says, or the first section that is broken.
#[tactic(auto, using(crate::proofs::Joining::as_said))]
pub(crate) fn each_said(
    alloc: Global,
    objects: &[Object],
    files: &[Seq<u8>],
    spans: &[FileSpan],
) -> Result<Seq<Seq<Feature>>, DebugError>
    ensures { Answers result (said (inputs_of files.now objects.now spans.now)) }
{
    let lists = listed(alloc, objects, files, spans);
    lists
}

/// The precedence numbers of the objects.
pub(crate) fn numbers(
    alloc: Global,
    objects: &[Object],
    files: &[Seq<u8>],
    spans: &[FileSpan],
) -> Result<Seq<InputId>, OutOfMemory>
    ensures { IfOk result (λ numbers. numbers ≡ numbers_of (inputs_of files.now objects.now spans.now)) }
{
    let mut numbers = Seq::new(alloc);
    let mut os = objects;
    let mut ss = spans;
    while let [o, others @ ..] = os {
        let [_, more @ ..] = ss else {
            return Ok(numbers);
        };
        numbers.push(o.input)?;
        os = others;
        ss = more;
    }
    Ok(numbers)
}
