// Kinds, presence bits and sizes around names. The characters are zeros.
use super::sweep::sweep;

pub fn all() {
    positions();
    procedures();
    departures();
}

fn positions() {
    sweep(1, 0, 0, 3, 1); // kind
    sweep(1, 0b000, 3, 1, 0); // a fix: whether with coordinates
    sweep(1, 0b0000, 4, 3, 0); // its size
    sweep(1, 0b001, 3, 1, 0); // a navaid: whether with coordinates
    sweep(1, 0b0010, 4, 2, 0); // its size
}

fn procedures() {
    sweep(13, 0, 0, 1, 0); // whether with a transition
    sweep(13, 0, 1, 2, 1); // kind
    sweep(13, 0, 3, 5, 0); // size of the name
    sweep(13, 0x4000, 15, 3, 0); // size of the transition, behind a name of one character
}

fn departures() {
    sweep(16, 0, 0, 2, 0); // the parts that are not read
    sweep(16, 0, 2, 3, 0); // size of the flight's name
    sweep(16, 0, 19, 3, 2); // kind of the position, behind a name of two characters
}
