//! What holds of which segments fit, as a call that does nothing: its contract is the law.
ghost use Rattle.std.specs.Prelude.{◌≡◌, ◌↔◌, true, None};
ghost use Rattle.wasm_module.specs.declared.structure.Module.{Module};
ghost use Rattle.run_rules.specs.declared.session.Session.{Session};
ghost use Rattle.run_rules.specs.Modules.{fits_session};
ghost use Rattle.run_modules.specs.Fits.{first_outside};

/// No segment lies outside exactly where the session fits the module, as `run_rules` has it.
#[tactic(auto, using(crate::proofs::Fitting::fits_law))]
pub fn fitting_sessions()
    ensures { (s : Session) (m : Module) → (first_outside s m ≡ None) ↔ (fits_session s m ≡ true) }
{}
