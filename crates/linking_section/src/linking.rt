//! What the section says.
use crate::group::Group;
use crate::init::InitFunc;
use crate::segment::SegmentInfo;
use crate::symbol::Symbol;
use wl_base::Seq;

/// What the section `linking` says (Linking.md, 'Linking Metadata Section'). A list whose
/// subsection isn't there is empty.
#[derive(Debug, PartialEq, Eq, Drop)]
pub struct Linking {
    /// What is said of the data segments, by their numbers.
    pub segments: Seq<SegmentInfo>,
    /// The functions that run at the start.
    pub inits: Seq<InitFunc>,
    /// The groups.
    pub groups: Seq<Group>,
    /// The symbols, which other sections name by their numbers.
    pub symbols: Seq<Symbol>,
}

/// The subsections that were read so far, of those that are read at all.
#[derive(Drop)]
pub(crate) struct Found {
    pub(crate) segments: Option<Seq<SegmentInfo>>,
    pub(crate) inits: Option<Seq<InitFunc>>,
    pub(crate) groups: Option<Seq<Group>>,
    pub(crate) symbols: Option<Seq<Symbol>>,
}
