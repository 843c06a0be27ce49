// The parts of a line, a space between two of them.
ghost use Rattle.std.specs.Prelude.{◌≡◌, ◌+◌, ◌≤◌, length, take, drop, IfSome, IfNone};

// The line's first part, and what comes behind the space after it; nothing where there is no space.
pub fn field(line: &[u8]) -> (&[u8], Option<&[u8]>)
    ensures part { result.0.now ≡ take (length result.0.now) line.now }
    ensures rest { IfSome result.1 (λ r. r.now ≡ drop (length result.0.now + 1) line.now) }
    ensures last { IfNone result.1 (result.0.now ≡ line.now) }
{
    match line.iter().position(|b| *b == b' ') {
        Some(n) => (&line[..n], Some(&line[n + 1..])),
        None => (line, None),
    }
}

// Hexadecimal that fits in out, or `-` for none.
pub fn octets<'a>(text: &[u8], out: &'a mut [u8]) -> Option<&'a [u8]>
    ensures { IfSome result (λ o. length o.now ≤ length out.old) }
{
    let n = match text {
        [] => return None,
        b"-" => 0,
        _ if out.len() * 2 < text.len() => return None,
        _ => hexadecimal::decode(text, out).ok()?,
    };
    Some(&out[..n])
}
