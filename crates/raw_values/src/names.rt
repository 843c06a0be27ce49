// Enumerations: the extension bit, and the index behind one that is not set.
use super::sweep::sweep;

pub fn all() {
    name(3, 4); // speed type
    speed_types();
    name(9, 3); // traffic type
    name(10, 4); // clearance type
    name(11, 3); // error information
    name(12, 4); // facility function
}

fn name(byte: u8, bits: u64) {
    sweep(byte, 0, 0, 1, 0);
    sweep(byte, 0, 1, bits, 1);
}

// Each of three, behind zeros.
fn speed_types() {
    sweep(4, 0, 0, 1, 0);
    sweep(4, 0, 1, 4, 1);
    sweep(4, 0, 5, 1, 0);
    sweep(4, 0, 6, 4, 2);
    sweep(4, 0, 10, 1, 0);
    sweep(4, 0, 11, 4, 3);
}
