ghost use Rattle.std.specs.Prelude.{◌≡◌};
ghost use Rattle.rules.specs.Phases.{phase_rules};

// The parts of a trading day, in their order.
#[derive(Clone, Copy, PartialEq, Eq, Debug)]
pub enum Phase {
    OpeningCall,
    OpeningCallNoCancel,
    Continuous,
    ClosingCall,
    AfterHours,
}

impl Phase {
    // Whether a balance of 0 or less shuts buying in this phase.
    pub fn shuts(self) -> bool
        ensures { result ≡ (phase_rules self).shuts }
    {
        matches!(self, Phase::Continuous | Phase::ClosingCall)
    }

    // The phase that a step leads to: none after hours.
    pub fn next(self) -> Option<Phase>
        ensures { result ≡ (phase_rules self).next }
    {
        match self {
            Phase::OpeningCall => Some(Phase::OpeningCallNoCancel),
            Phase::OpeningCallNoCancel => Some(Phase::Continuous),
            Phase::Continuous => Some(Phase::ClosingCall),
            Phase::ClosingCall => Some(Phase::AfterHours),
            Phase::AfterHours => None,
        }
    }

    // Whether orders are taken in this phase.
    pub fn takes_orders(self) -> bool
        ensures { result ≡ (phase_rules self).orders }
    {
        self != Phase::AfterHours
    }

    // Whether a cancel may be asked in this phase.
    pub fn cancels(self) -> bool
        ensures { result ≡ (phase_rules self).cancels }
    {
        matches!(self, Phase::OpeningCall | Phase::Continuous)
    }

    // Whether the day may close in this phase.
    pub fn closes(self) -> bool
        ensures { result ≡ (phase_rules self).closes }
    {
        self == Phase::AfterHours
    }
}
