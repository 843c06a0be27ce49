// Speeds, levels, degrees and frequencies: the index of the kind, and the number of each kind.
use super::sweep::sweep;

pub fn all() {
    speeds();
    levels();
    degrees();
    frequencies();
}

fn speeds() {
    sweep(2, 0, 0, 3, 1); // kind
    sweep(2, 0, 3, 9, 2); // indicated, knots
    sweep(2, 1, 3, 10, 2); // indicated, km/h
    sweep(2, 2, 3, 11, 2); // true, knots
    sweep(2, 3, 3, 12, 2); // true, km/h
    sweep(2, 4, 3, 12, 2); // ground, knots
    sweep(2, 5, 3, 13, 2); // ground, km/h
    sweep(2, 6, 3, 12, 2); // Mach
}

fn levels() {
    sweep(5, 0, 0, 2, 1); // kind
    sweep(5, 0, 2, 13, 2); // feet
    sweep(5, 1, 2, 15, 2); // metres
    sweep(5, 2, 2, 10, 2); // flight level
    sweep(5, 3, 2, 12, 2); // metric flight level
}

fn degrees() {
    sweep(6, 0, 0, 1, 1); // kind
    sweep(6, 0, 1, 9, 2); // magnetic
    sweep(6, 1, 1, 9, 2); // true
}

fn frequencies() {
    sweep(7, 0, 0, 2, 1); // kind
    sweep(7, 0, 2, 15, 2); // HF
    sweep(7, 1, 2, 12, 2); // VHF
    sweep(7, 2, 2, 13, 2); // UHF
}
