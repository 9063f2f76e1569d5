//! The first rule that an object breaks.
ghost use Rattle.std.specs.Prelude.{◌≡◌, IfOk};
ghost use Rattle.object_rules.specs.Spaces.{counts_of, ArePlaces};
ghost use Rattle.object_rules.specs.Rules.{reloc_rule, linking_rule, rule_of, broken_rule};

use crate::indexes::{are_counted, are_in_range};
use crate::metadata::{groups_stand, infos_stand, inits_stand};
use crate::names::names_differ;
use crate::placed::{indexes_are_covered, windows_stand};
use crate::relocs::{entries_stand, targets_stand};
use crate::spaces::{Counts, ImportPlaces};
use crate::symbols::symbols_stand;
use object_parts::{Linking, Parts, SectionSpan};
use std::alloc::Global;
use wl_base::OutOfMemory;

/// The first broken rule of 9 to 12.
#[tactic(auto, unfolding(crate::specs::Rules::reloc_rule))]
fn reloc_rule(
    alloc: Global,
    all: &[SectionSpan],
    bytes: &[u8],
    parts: &Parts,
    linking: &Linking,
    counts: &Counts,
    places: &ImportPlaces,
) -> Result<Option<u8>, OutOfMemory>
    requires counted { counts.now ≡ counts_of all.now parts.now }
    requires placed { ArePlaces parts.now.imports places.now }
    ensures { IfOk result (λ rule. rule ≡ reloc_rule all.now bytes.now parts.now linking.now) }
{
    let imports = parts.imports.as_slice();
    let symbols = linking.symbols.as_slice();
    let relocs = parts.relocs.as_slice();
    if !targets_stand(alloc, all, relocs)? {
        Ok(Some(9))
    } else if !entries_stand(counts, imports, places, symbols, relocs) {
        Ok(Some(10))
    } else if !windows_stand(all, bytes, parts, symbols) {
        Ok(Some(11))
    } else if !indexes_are_covered(parts) {
        Ok(Some(12))
    } else {
        Ok(None)
    }
}

/// The first broken rule of 5 to 12.
#[tactic(auto, unfolding(crate::specs::Rules::linking_rule))]
fn linking_rule(
    alloc: Global,
    all: &[SectionSpan],
    bytes: &[u8],
    parts: &Parts,
    linking: &Linking,
    counts: &Counts,
) -> Result<Option<u8>, OutOfMemory>
    requires { counts.now ≡ counts_of all.now parts.now }
    ensures { IfOk result (λ rule. rule ≡ linking_rule all.now bytes.now parts.now linking.now) }
{
    let imports = parts.imports.as_slice();
    let symbols = linking.symbols.as_slice();
    let places = ImportPlaces::of(alloc, imports)?;
    if !names_differ(alloc, imports, &places, symbols)? {
        Ok(Some(5))
    } else if !infos_stand(counts, linking.segments.as_slice()) {
        Ok(Some(6))
    } else if !inits_stand(alloc, parts, symbols, linking.inits.as_slice())? {
        Ok(Some(7))
    } else if !groups_stand(alloc, counts, linking.groups.as_slice())? {
        Ok(Some(8))
    } else {
        reloc_rule(alloc, all, bytes, parts, linking, counts, &places)
    }
}

/// The first broken rule of those on an object with linking metadata.
#[tactic(auto, unfolding(crate::specs::Rules::rule_of))]
fn rule_of(
    alloc: Global,
    all: &[SectionSpan],
    bytes: &[u8],
    parts: &Parts,
    linking: &Linking,
) -> Result<Option<u8>, OutOfMemory>
    ensures { IfOk result (λ rule. rule ≡ rule_of all.now bytes.now parts.now linking.now) }
{
    let counts = Counts::of(all, parts);
    if !parts.in_order {
        Ok(Some(1))
    } else if !are_counted(parts) {
        Ok(Some(2))
    } else if !are_in_range(&counts, parts) {
        Ok(Some(3))
    } else if !symbols_stand(&counts, parts, linking.symbols.as_slice()) {
        Ok(Some(4))
    } else {
        linking_rule(alloc, all, bytes, parts, linking, &counts)
    }
}

/// The first rule that an object breaks, by its number from 1 to 12; `None` where it breaks none.
/// `all` are its sections and `parts` what they tell.
///
/// The rules: 1, there is one section `linking`, and each section `reloc.` stands behind it. 2,
/// what is counted twice is counted alike. 3, indexes of imports, functions, exports, element and
/// data segments are in range. 4, symbols name what is there. 5, names that other objects see
/// differ. 6, segment infos are of segments, and alignments below 2^32. 7, init functions take and
/// give nothing. 8, groups have names of their own and members that are there, each once. 9,
/// relocations are for the code, the data or a custom section, and their windows lie in it and
/// apart. 10, relocations name what their types name. 11, windows stand on immediates of their
/// types' kinds, or in a segment's bytes. 12, what names an index in code has a window.
pub fn broken_rule(
    alloc: Global,
    all: &[SectionSpan],
    bytes: &[u8],
    parts: &Parts,
) -> Result<Option<u8>, OutOfMemory>
    ensures { IfOk result (λ rule. rule ≡ broken_rule all.now bytes.now parts.now) }
{
    match &parts.linking {
        None => Ok(Some(1)),
        Some(linking) => rule_of(alloc, all, bytes, parts, linking),
    }
}
