//! What stands behind a module, where the words ask for it. It is made while the module is laid out, and put behind it once its bytes are
//! judged; so a fault of it is kept until then.
ghost use Rattle.std.specs.Prelude.{ℕ, List, Result, IfOk};
ghost use Rattle.link_output.specs.link_program.wl_base.declared.fault.Fault.{Fault as Refusal};
ghost use Rattle.link_output.specs.link_program.Answers.{Answers as Joins};
ghost use Rattle.link_core.specs.Answers.{Answers};
ghost use Rattle.link_core.specs.Tails.{behind, TellsTail};

use link_output::LinkError;
use wl_base::{Fault, OutOfMemory, Seq};

/// The sections, or the fault that refuses them.
#[derive(Drop)]
pub enum Tail {
    Bytes(Seq<u8>),
    Refused(Fault),
}

/// A module, and what is to stand behind it.
#[derive(Drop)]
pub struct Whole {
    pub bytes: Seq<u8>,
    pub tail: Tail,
}

/// How many bytes will stand behind the module.
pub(crate) fn room_for(tail: &Tail) -> usize {
    match tail {
        Tail::Bytes(bytes) => bytes.len(),
        Tail::Refused(_) => 0,
    }
}

/// What was made, to be told later.
pub(crate) fn kept(joined: Result<Seq<u8>, LinkError>) -> Result<Tail, OutOfMemory>
    ensures { (said : Result (List ℕ) Refusal) → Joins (λ bytes. bytes) joined said → IfOk result (λ tail. TellsTail tail said) }
{
    match joined {
        Ok(bytes) => Ok(Tail::Bytes(bytes)),
        Err(LinkError::Refused(fault)) => Ok(Tail::Refused(fault)),
        Err(LinkError::OutOfMemory) => Err(OutOfMemory),
    }
}

/// The module with its sections, or their fault.
pub(crate) fn with_tail(whole: Whole) -> Result<Seq<u8>, LinkError>
    ensures { (said : Result (List ℕ) Refusal) → TellsTail whole.tail said → Answers result (behind whole.bytes said) }
{
    let Whole { mut bytes, tail } = whole;
    match tail {
        Tail::Bytes(sections) => {
            bytes.extend_from_slice(sections.as_slice())?;
            Ok(bytes)
        }
        Tail::Refused(fault) => Err(LinkError::Refused(fault)),
    }
}
