// Whether the bits to read are there.
ghost use Rattle.std.specs.Prelude.{◌≡◌, ◌*◌, length, nat_le};

// Whether all the places below `end` are in the slice. The octets that they take are counted, since
// eight times the length may wrap.
pub fn holds(s: &[u8], end: usize) -> bool
    ensures { result ≡ nat_le end (length s.now * 8) }
{
    end / 8 + (end % 8 + 7) / 8 <= s.len()
}
