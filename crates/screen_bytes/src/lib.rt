// Bytes of the screen's text, put one behind the other into lent bytes. All text goes through here: what has no room is left out, and counts.
#![tactic(auto)]

ghost use Rattle.std.specs.Prelude.{[], ◌∷◌, ◌^◌, ◌<◌, length};
ghost use Rattle.screen_bytes.specs.Put.{Put};

pub fn put_byte(out: &mut [u8], at: usize, b: u8) -> usize
    requires { at < 2 ^ 63 }
    ensures { Put 1 out.old out.new at result (b ∷ []) }
{
    if at < out.len() {
        out[at] = b;
    }
    at + 1
}

pub fn put_text(out: &mut [u8], at: usize, text: &[u8]) -> usize
    requires { (at < 2 ^ 62) × (length text.now < 2 ^ 62) }
    ensures { Put (length text.now) out.old out.new at result text.now }
{
    let mut m = at;
    for b in text {
        m = put_byte(out, m, *b);
    }
    m
}
