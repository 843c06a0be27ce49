// The kinds of messages that are sent back to back, and what is answered of a run of them. The definitions stand in specs/, what follows from them in proofs/.
#![tactic(auto)]

ghost use Rattle.std.specs.Prelude.{◌≡◌};
ghost use Rattle.message_runs.specs.Refusals.{number, need};

// Each is read by one entry; what association control says has no direction.
#[derive(Clone, Copy)]
pub enum Kind {
    Cpdlc,
    Cm,
    Acse,
}

// All: every message of the run is clean. UpTo: the message at this byte is not, and the starts are those before it.
#[derive(Clone, Copy)]
pub enum Starts {
    All { count: usize },
    UpTo { count: usize, byte: usize },
}

// A run longer than the longest frame, tables that do not fit, a direction that there is not, or fewer numbers lent than there are starts.
#[derive(Clone, Copy)]
pub enum Refusal {
    TooLong,
    UnfitTables,
    UnknownDirection,
    TooFewNumbers { need: usize },
}

impl Refusal {
    pub fn number(self) -> u64
        ensures { result ≡ number self }
    {
        match self {
            Refusal::TooLong => 1,
            Refusal::UnfitTables => 2,
            Refusal::UnknownDirection => 3,
            Refusal::TooFewNumbers { need: _ } => 20,
        }
    }

    // The numbers needed, which only 20 has.
    pub fn need(self) -> usize
        ensures { result ≡ need self }
    {
        match self {
            Refusal::TooFewNumbers { need } => need,
            _ => 0,
        }
    }
}
