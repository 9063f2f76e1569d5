//! Writing the section.
ghost use Rattle.std.specs.Prelude.{◌≡◌, ◌++◌, length, map, OnOk, IfOk};
ghost use Rattle.std.specs.List.{All};
ghost use Rattle.leb_codec.specs.Shortest.{u32 as shortest_u32};
ghost use Rattle.image_emit.specs.Bytes.{sized, vector};
ghost use Rattle.feature_section.specs.Fits.{IsU32, IsShort, NamesAreShort, NamesAreUtf8};
ghost use Rattle.feature_section.specs.Payload.{SpellsFeatures};
ghost use Rattle.feature_section.specs.Section.{used, used_feature, features_payload, features_section};

use crate::codes::{CUSTOM, SECTION_NAME, USED};
use leb_codec::write_u32;
use std::alloc::Global;
use wl_base::{Name, OutOfMemory, Seq};

/// Puts a number at the end.
fn put_u32(to: &mut Seq<u8>, n: u32) -> Result<(), OutOfMemory>
    ensures { OnOk result (to.new ≡ to.old ++ shortest_u32 n) }
{
    let mut text = [0; 10];
    let len = write_u32(n, &mut text);
    to.extend_from_slice(&text[..len])
}

/// Puts a count at the end. One that is no u32 has no spelling: it is answered as want of memory is.
fn put_count(to: &mut Seq<u8>, n: usize) -> Result<(), OutOfMemory>
    ensures bytes { OnOk result (to.new ≡ to.old ++ shortest_u32 n) }
    ensures fits { OnOk result (IsU32 n) }
{
    match u32::try_from(n) {
        Ok(n) => put_u32(to, n),
        Err(_) => Err(OutOfMemory),
    }
}

/// Puts bytes behind their length at the end.
fn put_sized(to: &mut Seq<u8>, text: &[u8]) -> Result<(), OutOfMemory>
    ensures bytes { OnOk result (to.new ≡ to.old ++ sized text.now) }
    ensures fits { OnOk result (IsU32 (length text.now)) }
{
    put_count(to, text.len())?;
    to.extend_from_slice(text)
}

/// Puts a feature that is used at the end.
#[tactic(auto, unfolding(crate::specs::Section::used_feature, crate::specs::Fits::IsShort))]
fn put_used(to: &mut Seq<u8>, name: &Name) -> Result<(), OutOfMemory>
    ensures bytes { OnOk result (to.new ≡ to.old ++ used_feature name.now) }
    ensures fits { OnOk result (IsShort name.now) }
{
    to.push(USED)?;
    put_sized(to, name.as_slice())
}

/// Puts the features that are used at the end.
fn put_names(to: &mut Seq<u8>, names: &[Name]) -> Result<(), OutOfMemory>
    ensures bytes { OnOk result (to.new ≡ to.old ++ vector used_feature names.now) }
    ensures each { OnOk result (All IsShort names.now) }
    ensures count { OnOk result (IsU32 (length names.now)) }
{
    put_count(to, names.len())?;
    for name in names {
        put_used(to, name)?;
    }
    Ok(())
}

/// Writes a payload, what follows the section's name (Linking.md, "Target Features Section"): these names, each marked as used.
///
/// # Errors
///
/// Memory is refused, or there are 2^32 names or a name of 2^32 bytes: such have no spelling.
#[tactic(auto, unfolding(crate::specs::Section::features_payload))]
pub fn write_payload(alloc: Global, names: &[Name]) -> Result<Seq<u8>, OutOfMemory>
    ensures is { IfOk result (λ bytes. bytes ≡ features_payload names.now) }
    ensures fits { IfOk result (λ bytes. NamesAreShort names.now) }
    // Where the names are UTF-8, the payload spells them, and so is read again.
    ensures spells { IfOk result (λ bytes. NamesAreUtf8 names.now → SpellsFeatures (map used names.now) bytes) }
{
    let mut to = Seq::new(alloc);
    put_names(&mut to, names)?;
    Ok(to)
}

/// Writes the whole custom section of the output (Core 5.5.3), which is no byte where there are no names.
///
/// # Errors
///
/// Memory is refused, or the section has 2^32 bytes: such a one has no spelling.
#[tactic(auto, unfolding(crate::specs::Section::features_section))]
pub fn write_features(alloc: Global, names: &[Name]) -> Result<Seq<u8>, OutOfMemory>
    ensures { IfOk result (λ bytes. bytes ≡ features_section names.now) }
{
    let mut to = Seq::new(alloc);
    if names.is_empty() {
        return Ok(to);
    }
    let mut body = Seq::new(alloc);
    put_sized(&mut body, SECTION_NAME.as_slice())?;
    let payload = write_payload(alloc, names)?;
    body.extend_from_slice(payload.as_slice())?;
    to.push(CUSTOM)?;
    put_sized(&mut to, body.as_slice())?;
    Ok(to)
}
