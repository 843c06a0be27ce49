// The longest frame; what is refused before reading, and for want of room.
use acse::parse_acse_apdu;
use cm::parse_cm;
use listing::print_case;

// 65,536 bytes, of which the first is printed.
pub fn longest() {
    let frame = [0u8; 65536];
    let mut words = [0u64; 160];
    let ground = parse_cm(&frame, 1, &mut words);
    print_case(
        b"cm 1, 65536 bytes that begin with",
        &frame[..1],
        &words,
        ground,
    );
    let association = parse_acse_apdu(&frame, &mut words);
    print_case(
        b"acse, 65536 bytes that begin with",
        &frame[..1],
        &words,
        association,
    );
}

// 65,537 bytes, of which the first is printed.
pub fn too_long() {
    let frame = [0u8; 65537];
    let mut words = [0u64; 160];
    let ground = parse_cm(&frame, 1, &mut words);
    print_case(
        b"cm 1, 65537 bytes that begin with",
        &frame[..1],
        &words,
        ground,
    );
    let aircraft = parse_cm(&frame, 0, &mut words);
    print_case(
        b"cm 0, 65537 bytes that begin with",
        &frame[..1],
        &words,
        aircraft,
    );
    let association = parse_acse_apdu(&frame, &mut words);
    print_case(
        b"acse, 65537 bytes that begin with",
        &frame[..1],
        &words,
        association,
    );
}

// Four words are lent: a record has five.
pub fn no_room() {
    acse_in_four(&[0x80]);
    cm_from_aircraft_in_four(&[0x40]);
}

fn acse_in_four(frame: &[u8]) {
    let mut words = [0u64; 160];
    let answer = parse_acse_apdu(frame, &mut words[..4]);
    print_case(b"acse, four words,", frame, &words, answer);
}

fn cm_from_aircraft_in_four(frame: &[u8]) {
    let mut words = [0u64; 160];
    let answer = parse_cm(frame, 0, &mut words[..4]);
    print_case(b"cm 0, four words,", frame, &words, answer);
}
