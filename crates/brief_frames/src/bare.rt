// Whether the first octet names no message.
ghost use Rattle.std.specs.Prelude.{◌≡◌, true, ◌≤◌};
ghost use Rattle.brief_frames.specs.Bare.{Bare};

// The extension bit is its first; then two bits are the index of the downlink, or three that of the uplink.
pub fn is_bare(frame: &[u8], direction: u64) -> bool
    requires { direction ≤ 1 }
    ensures { result ≡ true → Bare direction frame.now }
{
    if frame.len() == 0 {
        return true;
    }
    let first = frame[0];
    if direction == 0 {
        return first < 0x40 || 0x80 <= first;
    }
    first < 0x20 || 0x50 <= first
}
