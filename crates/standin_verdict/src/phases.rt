// The phase that a refused command frame leaves (01, row by row of the status table: what silences in Speed and Ident).
ghost use Rattle.std.specs.Prelude.{◌≡◌};
ghost use Rattle.rules.specs.Faults.{Parameter, Ident};
ghost use Rattle.rules.specs.StandIn.{silences, phase_after};

use rules::{Fault, Phase};

// Whether a fault in Speed or Ident silences the chip: LEN, parameter, ID.
fn silences(v: Result<(), Fault>) -> bool
    ensures { result ≡ silences v }
{
    matches!(
        v,
        Err(Fault::Length(_, _) | Fault::Parameter | Fault::Ident)
    )
}

// The phase after a parameter or ID fault, both of which silence in Speed and Ident.
pub fn silenced(phase: Phase) -> Phase
    ensures { (result ≡ phase_after phase Parameter) × (result ≡ phase_after phase Ident) }
{
    match phase {
        Phase::Speed | Phase::Ident => Phase::Silent,
        Phase::Mode | Phase::Command | Phase::Silent => phase,
    }
}

// A fault that does not silence leaves the phase, which is then not asked for.
pub fn phase_after(phase: Phase, v: Result<(), Fault>) -> Phase
    ensures { result ≡ phase_after phase v }
{
    if silences(v) {
        return silenced(phase);
    }
    phase
}
