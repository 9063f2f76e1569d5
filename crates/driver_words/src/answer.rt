//! What drivers' words stand for.

use link_plan::FeatureWords;
use wl_base::{Seq, Text};

/// What is said in place of a link.
#[derive(Clone, Copy, Debug, PartialEq, Eq)]
pub enum What {
    /// The version, in one line that has `LLD`.
    Version,
    /// The help.
    Help,
}

/// What drivers' words stand for.
#[derive(Debug, Drop)]
pub enum Answer {
    /// The linker's own words; what is told before it links, a line each; whether warnings are errors; and, since no own word
    /// asks for these, whether the module has a section `name`, and what is done with the features that objects use.
    Links {
        own: Seq<Text>,
        warnings: Seq<Text>,
        fatal: bool,
        names: bool,
        features: Option<FeatureWords>,
    },
    /// A text on standard output, and no link.
    Says(What),
    /// The line that refuses the words.
    Refuses(Text),
}
