// What an entry answers.
#![tactic(auto)]

ghost use Rattle.std.specs.Prelude.{false, ◌≡◌};
ghost use Rattle.answers.specs.declared.Answer.TheVariants.{Accepted, Refused};

// The bytes of the longest frame: a longer one is refused before it is read, with 1.
pub const LONGEST_FRAME: usize = 65536;

// Accepted: whether the frame ended where the reading carried on without the missing part, the reach, the set of marks and the number of records. Refused: document 01's number, the reach, the words needed, which only 7 has, and the bits lacked, which only 4 has.
#[derive(Clone, Copy)]
pub enum Answer {
    Accepted {
        cut: bool,
        reach: usize,
        marks: u64,
        count: usize,
    },
    Refused {
        number: u64,
        reach: usize,
        need: usize,
        lacked: usize,
    },
}

// A whole answer.
pub fn accepted(reach: usize, marks: u64, count: usize) -> Answer
    ensures { result ≡ Accepted false reach marks count }
{
    Answer::Accepted {
        cut: false,
        reach: reach,
        marks: marks,
        count: count,
    }
}

pub fn refused(number: u64, reach: usize, need: usize, lacked: usize) -> Answer
    ensures { result ≡ Refused number reach need lacked }
{
    Answer::Refused {
        number: number,
        reach: reach,
        need: need,
        lacked: lacked,
    }
}
