//! Names that may be absent, beside lists of names that all are there.
ghost use Rattle.std.specs.Prelude.{◌≡◌, option_copied};
ghost use Rattle.object_columns.specs.Columns.{maybe};

/// The name, if there is one.
pub fn maybe(is_named: bool, name: &[u8]) -> Option<&[u8]>
    ensures { option_copied result ≡ maybe is_named name.now }
{
    if is_named { Some(name) } else { None }
}

/// Whether there is a name, and the name, or else the empty one.
pub fn split(name: Option<&[u8]>) -> (bool, &[u8])
    ensures { maybe result.0 result.1.now ≡ option_copied name.entry }
{
    match name {
        Some(name) => (true, name),
        None => (false, &[]),
    }
}
