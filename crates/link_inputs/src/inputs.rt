//! What is loaded.
ghost use Rattle.std.specs.Prelude.{◌≡◌};

use lib_rounds::Loaded;
use link_program::Home;
use object_file::Object;
use wl_base::Seq;

/// The loaded objects of a link, and where each input's bytes stand.
#[derive(Debug, Drop)]
pub struct Inputs {
    pub(crate) loaded: Loaded,
    pub(crate) homes: Seq<Home>,
}

impl Inputs {
    /// The loaded objects, by rising input.
    pub fn objects(&self) -> &[Object]
        ensures { result.now ≡ self.now.loaded }
    {
        self.loaded.objects()
    }

    /// Where the bytes of each input stand, loaded or not; those of input 1 first.
    pub fn homes(&self) -> &[Home]
        ensures { result.now ≡ self.now.homes }
    {
        self.homes.as_slice()
    }
}
