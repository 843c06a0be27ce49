// What the lent words hold before a call, so that a word that should have stayed is known afterwards. Each place has another number.
#![tactic(auto)]

ghost use Rattle.std.specs.Prelude.{true, ◌≡◌, ◌*◌, ◌≤◌, length};
ghost use Rattle.word_pattern.specs.Pattern.{Patterned};

const FIRST: u64 = 0x5A5A_0000_0000_0000;

pub fn fill(words: &mut [u64])
    ensures { Patterned words.new 0 }
{
    for (i, word) in words.iter_mut().enumerate() {
        *word = FIRST + i as u64;
    }
}

// Whether the words behind the records are as they were; they are not where the records would need more words than there are.
pub fn stayed(words: &[u64], records: usize) -> bool
    ensures { (result ≡ true → (records * 5 ≤ length words.now) × Patterned words.now (records * 5)) × (records * 5 ≤ length words.now → Patterned words.now (records * 5) → result ≡ true) }
{
    if words.len() / 5 < records {
        return false;
    }
    for i in records * 5..words.len() {
        if words[i] != FIRST + i as u64 {
            return false;
        }
    }
    true
}
