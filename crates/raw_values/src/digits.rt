// Codes, satellite channels and runways.
use super::sweep::sweep;

pub fn all() {
    codes();
    channels();
    sweep(14, 0, 0, 6, 1); // runway's direction
    sweep(14, 0, 6, 2, 2); // runway's side
}

fn codes() {
    sweep(8, 0, 0, 3, 1);
    sweep(8, 0, 3, 3, 2);
    sweep(8, 0, 6, 3, 3);
    sweep(8, 0, 9, 3, 4);
}

// Behind the kind, 3: twelve digits of four bits, told as a text.
fn channels() {
    for digit in 0..12u64 {
        let before = digit * 4;
        sweep(7, 3 << before, before + 2, 4, 0);
    }
}
