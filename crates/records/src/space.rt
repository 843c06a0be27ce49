// How many words records take.
ghost use Rattle.std.specs.Prelude.{◌≡◌, ◌^◌, ◌<◌};
ghost use Rattle.records.specs.Space.{space};

use super::WORDS;

// The words of n records.
pub fn words_for(n: usize) -> usize
    requires { n < 2 ^ 32 }
    ensures { result ≡ space n }
{
    n * WORDS
}
