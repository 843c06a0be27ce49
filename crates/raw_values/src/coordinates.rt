// Latitude and longitude: alone, as a position, behind a fix or a navaid, and as the position of a departure clearance.
use super::sweep::sweep;

// Where an angle begins: the table's byte, the bits before it as a number and how many they are, and the place of its first record.
#[derive(Clone, Copy)]
struct Spot {
    byte: u8,
    head: u64,
    before: u64,
    place: usize,
}

pub fn all() {
    sweep(15, 0, 0, 2, 0); // presence
    sweep(15, 0b1000, 4, 17, 3); // thousandths of the latitude
    sweep(15, 0b0100, 4, 18, 3); // thousandths of the longitude
    latitudes();
    longitudes();
}

// Their presence bits are 10.
fn latitudes() {
    latitude(from(15, 0b10, 2, 2)); // alone
    latitude(from(1, 0b01110, 5, 3)); // a position
    latitude(from(1, 0b0001000000000010, 16, 4)); // behind a fix
    latitude(from(1, 0b001100000000010, 15, 4)); // behind a navaid
    latitude(from(16, 0b01110, 24, 4)); // of a departure clearance
}

// Their presence bits are 01.
fn longitudes() {
    longitude(from(15, 0b01, 2, 2)); // alone
    longitude(from(1, 0b01101, 5, 3)); // a position
    longitude(from(1, 0b0001000000000001, 16, 4)); // behind a fix
    longitude(from(1, 0b001100000000001, 15, 4)); // behind a navaid
    longitude(from(16, 0b01101, 24, 4)); // of a departure clearance
}

fn from(byte: u8, head: u64, before: u64, place: usize) -> Spot {
    Spot {
        byte: byte,
        head: head,
        before: before,
        place: place,
    }
}

// The first eight bits of the thousandths are those of 89,600.
fn latitude(spot: Spot) {
    thousandths(spot, 0b10101111, 8);
    degrees(spot, 7);
}

// The first nine bits of the thousandths are those of 179,712.
fn longitude(spot: Spot) {
    thousandths(spot, 0b101011111, 9);
    degrees(spot, 8);
}

// The form; thousandths near the highest, whose first k bits are `near`; the side behind thousandths.
fn thousandths(spot: Spot, near: u64, k: u64) {
    if 9 < k {
        return;
    }
    let middle = k + 2;
    let end = k + 11;
    part(spot, 0, 0, 2, 0); // form
    part(spot, near, middle, 9, 1); // thousandths near the highest
    part(spot, 0, end, 1, 2); // side
}

// Degrees of so many bits and hundredths of a minute; degrees, minutes, seconds.
fn degrees(spot: Spot, bits: u64) {
    if 9 < bits {
        return;
    }
    let minutes = bits + 2;
    let seconds = bits + 8;
    part(spot, 1, 2, bits, 1); // degrees
    part(spot, 1 << bits, minutes, 13, 2); // hundredths
    part(spot, 2, 2, bits, 1); // degrees before minutes
    part(spot, 2 << bits, minutes, 6, 2); // minutes
    part(spot, 128 << bits, seconds, 6, 3); // seconds
}

// A field of `bits` bits behind k bits of the angle, which are `head`; its number stands in the record `behind` after the angle's first.
fn part(spot: Spot, head: u64, k: u64, bits: u64, behind: usize) {
    if 20 < k {
        return;
    }
    if 26 < spot.before {
        return;
    }
    if 9 < spot.place {
        return;
    }
    if 9 < behind {
        return;
    }
    let all = spot.head << k | head;
    sweep(spot.byte, all, spot.before + k, bits, spot.place + behind);
}
