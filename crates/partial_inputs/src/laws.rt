//! What holds of the inputs of partial links, as calls that do nothing: their contracts are the laws.
ghost use Rattle.partial_inputs.specs.Refused.{RefusedFirst, ThenJoined, BareIsBare};

/// Inputs that are refused before any is read are the first fault of a partial link, and others are joined by the bare plan,
/// which asks for nothing but its inputs.
pub fn inputs_come_first()
    ensures refused { RefusedFirst }
    ensures joined { ThenJoined }
    ensures bare { BareIsBare }
{}
