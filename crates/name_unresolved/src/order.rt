//! The least symbol.
ghost use Rattle.std.specs.Prelude.{◌≡◌};
ghost use Rattle.name_unresolved.specs.Least.{is_before, lesser};

use wl_base::InputId;

/// Whether a symbol comes before another one, by input and then by place.
fn is_before(a: (InputId, u32), b: (InputId, u32)) -> bool
    ensures { result ≡ is_before a b }
{
    a.0 < b.0 || a.0 == b.0 && a.1 < b.1
}

/// The lesser of two symbols, as far as there are any.
pub fn lesser(a: Option<(InputId, u32)>, b: Option<(InputId, u32)>) -> Option<(InputId, u32)>
    ensures { result ≡ lesser a b }
{
    match (a, b) {
        (None, _) => b,
        (Some(_), None) => a,
        (Some(x), Some(y)) => { if is_before(y, x) { b } else { a } }
    }
}
