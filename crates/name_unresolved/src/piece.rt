//! The least unresolved symbol of a piece of an object.
ghost use Rattle.std.specs.Prelude.{◌≡◌, slice_get};
ghost use Rattle.name_meanings.specs.name_entries.body_windows.Operands.{operand_of};
ghost use Rattle.name_unresolved.specs.Refers.{function_names, segment_names, names_in, open_inits, is_undefined_one};
ghost use Rattle.name_unresolved.specs.Least.{least_by};
ghost use Rattle.name_unresolved.specs.Search.{rows_in, IsMeant, opened_in, opened_by, opened_init, least_open, object_least};

use crate::order::lesser;
use mark_bits::Chunk;
use name_meanings::{InitFunc, Meaning, Object, Operand, Reference, Reloc, Resolution};
use wl_base::InputId;

/// An object, and what its symbols mean.
#[derive(Clone, Copy)]
pub struct Piece<'a> {
    pub object: &'a Object,
    pub resolution: &'a Resolution,
}

impl Piece<'_> {
    /// A symbol of the object, where it is there and means nothing.
    #[tactic(auto, using(crate::proofs::Meant::answered))]
    fn opened(&self, symbol: u32) -> Option<(InputId, u32)>
        requires { IsMeant self.now }
        ensures { result ≡ opened_in self.now symbol }
    {
        let input = self.object.input;
        if (symbol as usize) >= self.object.symbols.len() {
            return None;
        }
        match self.resolution.meaning(input, symbol) {
            Meaning::Nothing => Some((input, symbol)),
            _ => None,
        }
    }

    /// The symbol that an operand names, where it means nothing.
    fn opened_by(&self, operand: Operand) -> Option<(InputId, u32)>
        requires { IsMeant self.now }
        ensures { result ≡ opened_by self.now operand }
    {
        match operand {
            Operand::Symbol { symbol, .. } => self.opened(symbol),
            _ => None,
        }
    }

    /// The least of those that references name.
    #[tactic(auto, using(crate::proofs::Least::goes_on, crate::proofs::Least::ends))]
    fn in_references(&self, references: &[Reference]) -> Option<(InputId, u32)>
        requires { IsMeant self.now }
        ensures { result ≡ least_by (λ r. opened_by self.now (operand_of r)) references.now }
    {
        let mut least = None;
        for reference in references {
            least = lesser(least, self.opened_by(reference.operand()));
        }
        least
    }

    /// The least of those that windows name.
    #[tactic(auto, using(crate::proofs::Least::goes_on, crate::proofs::Least::ends))]
    fn in_windows(&self, windows: &[Reloc]) -> Option<(InputId, u32)>
        requires { IsMeant self.now }
        ensures { result ≡ least_by (λ w. opened_in self.now w.index) windows.now }
    {
        let mut least = None;
        for window in windows {
            least = lesser(least, self.opened(window.index));
        }
        least
    }

    /// The least of those that a function names.
    #[tactic(auto, using(crate::proofs::Pieces::references_are))]
    fn in_function(&self, index: u32) -> Option<(InputId, u32)>
        requires { IsMeant self.now }
        ensures { result ≡ object_least self.now (function_names (slice_get self.now.object.now.functions index)) }
    {
        match self.object.functions.get(index as usize) {
            Some(function) => self.in_references(function.operands.references),
            None => None,
        }
    }

    /// The least of those that a data segment names.
    fn in_segment(&self, index: u32) -> Option<(InputId, u32)>
        requires { IsMeant self.now }
        ensures { result ≡ object_least self.now (segment_names (slice_get self.now.object.now.segments index)) }
    {
        match self.object.segments.get(index as usize) {
            Some(segment) => self.in_windows(segment.windows),
            None => None,
        }
    }

    /// The least of those that a chunk of the object names.
    pub fn in_chunk(&self, chunk: Chunk) -> Option<(InputId, u32)>
        requires { IsMeant self.now }
        ensures { result ≡ object_least self.now (names_in self.now.object.now chunk) }
    {
        match chunk.kind {
            0 => self.in_function(chunk.index),
            1 => self.in_segment(chunk.index),
            _ => None,
        }
    }

    /// Whether a symbol of the object is undefined.
    fn is_undefined(&self, symbol: u32) -> bool
        ensures { result ≡ is_undefined_one (slice_get self.now.object.now.symbols symbol) }
    {
        match self.object.symbols.get(symbol as usize) {
            Some(s) => s.is_undefined(),
            None => false,
        }
    }

    /// The init function, where the object doesn't define it and it means nothing.
    fn opened_init(&self, init: InitFunc) -> Option<(InputId, u32)>
        requires { IsMeant self.now }
        ensures { result ≡ opened_init self.now init }
    {
        if self.is_undefined(init.symbol) {
            self.opened(init.symbol)
        } else {
            None
        }
    }

    /// The least of the init functions.
    #[tactic(auto, using(crate::proofs::Least::goes_on, crate::proofs::Least::ends))]
    pub fn in_inits(&self) -> Option<(InputId, u32)>
        requires { IsMeant self.now }
        ensures { result ≡ least_open (rows_in self.now) (open_inits self.now.object.now) }
    {
        let mut least = None;
        for init in self.object.inits.as_slice() {
            least = lesser(least, self.opened_init(*init));
        }
        least
    }
}
