// A case of each entry, with room for all its records.
use acse::parse_acse_apdu;
use cm::parse_cm;
use listing::print_case;

pub fn cm_from_ground(frame: &[u8]) {
    let mut words = [0u64; 160];
    let answer = parse_cm(frame, 1, &mut words);
    print_case(b"cm 1", frame, &words, answer);
}

pub fn cm_from_aircraft(frame: &[u8]) {
    let mut words = [0u64; 160];
    let answer = parse_cm(frame, 0, &mut words);
    print_case(b"cm 0", frame, &words, answer);
}

pub fn acse(frame: &[u8]) {
    let mut words = [0u64; 160];
    let answer = parse_acse_apdu(frame, &mut words);
    print_case(b"acse", frame, &words, answer);
}
