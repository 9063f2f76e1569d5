//! How a call by drivers' words ended.

ghost use Rattle.std.specs.Prelude.{◌≡◌};
ghost use Rattle.driver_command.specs.Ends.{code_of};

use driver_words::{Stop, What};
use link_command::Status;
use wl_base::Text;

/// How a call by drivers' words ended.
#[derive(Drop)]
pub enum Outcome {
    /// This text stands on the output of texts. Nothing is linked.
    Said(What),
    /// This text could not be written there whole. Nothing is linked.
    Unsaid(What),
    /// This line refuses the words. Nothing is linked.
    Refused(Text),
    /// There is no answer to the words. Nothing is linked.
    Stopped(Stop),
    /// The link ended so.
    Linked(Status),
}

impl Outcome {
    /// The exit status: 0 where what was asked for is done, else 1, as drivers expect.
    pub fn code(&self) -> u8
        ensures { result ≡ code_of self.now }
    {
        match self {
            Outcome::Said(_) => 0,
            Outcome::Unsaid(_) | Outcome::Refused(_) | Outcome::Stopped(_) => 1,
            Outcome::Linked(status) => status.code().min(1),
        }
    }
}
