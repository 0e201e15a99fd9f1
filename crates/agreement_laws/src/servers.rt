//! Laws of the servers: what each of their events keeps of the machine beside the flat machine.
ghost use Rattle.agreement_laws.specs.Servers.{ControlStepFollows};

/// A law of every run: where the control server serves a request, serving it is a legal action of the flat machine, and
/// all is kept of the state that it gives.
pub fn control_step_follows()
    ensures { ControlStepFollows }
{}
