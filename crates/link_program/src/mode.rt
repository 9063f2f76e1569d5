//! Which output is made.
ghost use Rattle.std.specs.Prelude.{◌≡◌};
ghost use Rattle.link_rules.specs.ModeOf.{mode_of};

use link_plan::Plan;
use made_symbols::Mode;

/// The mode that the words ask for.
#[tactic(auto, unfolding(link_rules::specs::ModeOf::mode_of))]
pub fn mode_of(plan: &Plan) -> Mode
    ensures { result ≡ mode_of plan.now }
{
    if plan.shared {
        Mode::Shared
    } else {
        Mode::Plain
    }
}
