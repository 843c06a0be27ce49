// The records of a message, in lent words.
ghost use Rattle.std.specs.Prelude.{◌≡◌, ◌+◌, ◌<◌, ◌≤◌, ◌^◌, length, ◌∷◌, ◌++◌};
ghost use Rattle.atn.specs.Entries.{settle};
ghost use Rattle.atn.specs.Reading.{rec};
ghost use Rattle.atn.specs.Tags.{acse_pdu};
ghost use Rattle.records.specs.Space.{space};
ghost use Rattle.records.specs.Told.{Told};
ghost use Rattle.answers.specs.Says.{Says};
ghost use Rattle.acse_reasons.specs.Notes.{note_recs};
ghost use Rattle.acse_apdus.specs.Apdus.{message_reply};

use acse_apdus::Message;
use acse_reasons::notes::Note;
use acse_reasons::tags;
use answers::Answer;
use records::space::words_for;
use records::store;

fn count(n: Note) -> usize
    ensures { (result ≡ length (note_recs n)) × (result ≤ 1) }
{
    match n {
        Note::Untold => 0,
        Note::Told(_, _, _, _) => 1,
    }
}

// The note's record, with n before it, and how many there are then.
fn tell(words: &mut [u64], n: usize, note: Note) -> usize
    requires { (n < 2 ^ 32) × (space (n + length (note_recs note)) ≤ length words.old) }
    ensures { Told 1 words.old words.new n result (note_recs note) }
{
    match note {
        Note::Untold => n,
        Note::Told(tag, value, second, at) => store(words, n, tag, 0, value, second, at),
    }
}

// All records of a message, from the front on.
fn tell_all(words: &mut [u64], message: Message) -> usize
    requires { space (1 + length (note_recs message.first) + length (note_recs message.next)) ≤ length words.old }
    ensures { Told 3 words.old words.new 0 result (rec acse_pdu 0 message.pdu message.second message.at ∷ note_recs message.first ++ note_recs message.next) }
{
    let first = message.first;
    let next = message.next;
    let at = message.at;
    let n = store(words, 0, tags::ACSE_PDU, 0, message.pdu, message.second, at);
    let m = tell(words, n, first);
    tell(words, m, next)
}

// Without room for all its records a message is refused, and the words stay.
pub fn settle_message(message: Message, words: &mut [u64]) -> Answer
    ensures { Says result words.new (settle (message_reply message) words.old) }
{
    let first = message.first;
    let next = message.next;
    let told = 1 + count(first) + count(next);
    let need = words_for(told);
    if words.len() < need {
        return Answer::Refused {
            number: 7,
            reach: message.reach,
            need: need,
            lacked: 0,
        };
    }
    // no more words than the records need, so that those behind them stay
    tell_all(&mut words[..need], message);
    Answer::Accepted {
        cut: message.cut,
        reach: message.reach,
        marks: message.marks,
        count: told,
    }
}
