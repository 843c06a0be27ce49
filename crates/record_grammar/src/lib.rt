// Whether lent words are records that a reading gives: their order, their element numbers, and what each can hold.
#![tactic(auto)]

ghost use Rattle.std.specs.Prelude.{◌≡◌, ◌==◌};
ghost use Rattle.record_grammar.specs.Kinds.{number_of, Numbered};

pub mod octets; // octets.rt: the octets of a word as characters
pub mod rows; // rows.rt: rows, and which records one takes
pub mod table; // table.rt: the rows
pub mod hearing; // hearing.rt: from record to record

// What a row's record may hold.
#[derive(Clone, Copy)]
pub enum Kind {
    Number,
    Reason,
    Release,
    Text,
    Span,
    Index,
    Clearance,
    Place,
    Channel,
    Digits,
    Spaced,
    Note,
}

impl Kind {
    // The number that the table has for it.
    fn number(self) -> u64
        ensures { result ≡ number_of self }
    {
        match self {
            Kind::Number => 0,
            Kind::Reason => 1,
            Kind::Release => 2,
            Kind::Text => 3,
            Kind::Span => 4,
            Kind::Index => 5,
            Kind::Clearance => 6,
            Kind::Place => 7,
            Kind::Channel => 8,
            Kind::Digits => 9,
            Kind::Spaced => 10,
            Kind::Note => 11,
        }
    }
}

// A row: a tag, what its record may hold, and where the walk goes.
#[derive(Clone, Copy)]
pub struct Row {
    pub tag: u64,
    pub kind: u64,
    pub low: u64,
    pub size: u64,
    pub next: u64,
    pub otherwise: u64,
    pub back: u64,
    pub last: u64,
}

impl Row {
    // Its kind, if the number is one.
    fn kind(self) -> Option<Kind>
        ensures { Numbered self.kind result }
    {
        match self.kind {
            0 => Some(Kind::Number),
            1 => Some(Kind::Reason),
            2 => Some(Kind::Release),
            3 => Some(Kind::Text),
            4 => Some(Kind::Span),
            5 => Some(Kind::Index),
            6 => Some(Kind::Clearance),
            7 => Some(Kind::Place),
            8 => Some(Kind::Channel),
            9 => Some(Kind::Digits),
            10 => Some(Kind::Spaced),
            11 => Some(Kind::Note),
            _ => None,
        }
    }

    fn is(self, kind: Kind) -> bool
        ensures { result ≡ (self.kind == number_of kind) }
    {
        self.kind == kind.number()
    }
}

// Where a walk stands: its row, the rows behind its part and its message, the numbers of element, clearance and place that it has come to,
// the length of a text with the characters that are still to come, and the values of the last two records.
#[derive(Clone, Copy)]
pub struct Walk {
    pub at: u64,
    pub back: u64,
    pub last: u64,
    pub element: u64,
    pub clearance: u64,
    pub place: u64,
    pub whole: u64,
    pub left: u64,
    pub before: u64,
    pub earlier: u64,
}
