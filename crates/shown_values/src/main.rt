// The text of every value that a number in an argument can have, a line each. With nothing on standard input these are the first two and the last two values of each field; with anything there they are all.
// The file `stdout` is made by tools/screen from the readers of the Rust, which that tool also holds to all the lines.
#![tactic(auto)]

use element_kinds::Kind;

mod sweep; // sweep.rt: all values of a field

fn main() {
    let mut asked = [0u8; 1];
    let all = io::read_full(0, &mut asked) == 1;
    speeds(all);
    levels(all);
    others(all);
    latitudes(all);
    longitudes(all);
}

fn speeds(all: bool) {
    let tags = [cpdlc_tags::SPEED, cpdlc_tags::SPEED_NUMBER, 0, 0, 0, 0];
    sweep::sweep(all, Kind::Speed, &tags, [0, 0, 0, 0, 0, 0], 1, 0, 512);
    sweep::sweep(all, Kind::Speed, &tags, [1, 0, 0, 0, 0, 0], 1, 0, 1024);
    sweep::sweep(all, Kind::Speed, &tags, [2, 0, 0, 0, 0, 0], 1, 0, 2048);
    sweep::sweep(all, Kind::Speed, &tags, [3, 0, 0, 0, 0, 0], 1, 0, 4096);
    sweep::sweep(
        all,
        Kind::Speed,
        &tags,
        [4, 0, 0, 0, 0, 0],
        1,
        18446744073709551566,
        4096,
    );
    sweep::sweep(
        all,
        Kind::Speed,
        &tags,
        [5, 0, 0, 0, 0, 0],
        1,
        18446744073709551516,
        8192,
    );
    sweep::sweep(all, Kind::Speed, &tags, [6, 0, 0, 0, 0, 0], 1, 500, 4096);
}

fn levels(all: bool) {
    let tags = [cpdlc_tags::LEVEL, cpdlc_tags::LEVEL_NUMBER, 0, 0, 0, 0];
    sweep::sweep(
        all,
        Kind::Level,
        &tags,
        [0, 0, 0, 0, 0, 0],
        1,
        18446744073709551556,
        8192,
    );
    sweep::sweep(
        all,
        Kind::Level,
        &tags,
        [1, 0, 0, 0, 0, 0],
        1,
        18446744073709551586,
        32768,
    );
    sweep::sweep(all, Kind::Level, &tags, [2, 0, 0, 0, 0, 0], 1, 30, 1024);
    sweep::sweep(all, Kind::Level, &tags, [3, 0, 0, 0, 0, 0], 1, 100, 4096);
}

// Degrees, frequencies and runways.
fn others(all: bool) {
    let degrees = [cpdlc_tags::DEGREES, cpdlc_tags::DEGREES_NUMBER, 0, 0, 0, 0];
    sweep::sweep(all, Kind::Degrees, &degrees, [0, 0, 0, 0, 0, 0], 1, 1, 512);
    sweep::sweep(all, Kind::Degrees, &degrees, [1, 0, 0, 0, 0, 0], 1, 1, 512);
    let frequency = [
        cpdlc_tags::FREQUENCY,
        cpdlc_tags::FREQUENCY_NUMBER,
        0,
        0,
        0,
        0,
    ];
    sweep::sweep(
        all,
        Kind::Frequency,
        &frequency,
        [0, 0, 0, 0, 0, 0],
        1,
        2850,
        32768,
    );
    sweep::sweep(
        all,
        Kind::Frequency,
        &frequency,
        [1, 0, 0, 0, 0, 0],
        1,
        23600,
        4096,
    );
    sweep::sweep(
        all,
        Kind::Frequency,
        &frequency,
        [2, 0, 0, 0, 0, 0],
        1,
        9000,
        8192,
    );
    let runway = [cpdlc_tags::RUNWAY, cpdlc_tags::RUNWAY_SIDE, 0, 0, 0, 0];
    sweep::sweep(all, Kind::Runway, &runway, [0, 0, 0, 0, 0, 0], 0, 1, 64);
    sweep::sweep(all, Kind::Runway, &runway, [0, 1, 0, 0, 0, 0], 0, 1, 64);
    sweep::sweep(all, Kind::Runway, &runway, [0, 2, 0, 0, 0, 0], 0, 1, 64);
    sweep::sweep(all, Kind::Runway, &runway, [0, 3, 0, 0, 0, 0], 0, 1, 64);
}

fn latitudes(all: bool) {
    let thousandths = [
        cpdlc_tags::COORDINATES,
        cpdlc_tags::LATITUDE,
        cpdlc_tags::LATITUDE_THOUSANDTHS,
        cpdlc_tags::LATITUDE_SIDE,
        0,
        0,
    ];
    sweep::sweep(
        all,
        Kind::Coordinates,
        &thousandths,
        [0, 0, 0, 0, 0, 0],
        2,
        0,
        131072,
    );
    let hundredths = [
        cpdlc_tags::COORDINATES,
        cpdlc_tags::LATITUDE,
        cpdlc_tags::LATITUDE_DEGREES,
        cpdlc_tags::LATITUDE_HUNDREDTHS,
        cpdlc_tags::LATITUDE_SIDE,
        0,
    ];
    sweep::sweep(
        all,
        Kind::Coordinates,
        &hundredths,
        [0, 1, 0, 0, 1, 0],
        2,
        0,
        128,
    );
    sweep::sweep(
        all,
        Kind::Coordinates,
        &hundredths,
        [0, 1, 45, 0, 1, 0],
        3,
        0,
        8192,
    );
    let seconds = [
        cpdlc_tags::COORDINATES,
        cpdlc_tags::LATITUDE,
        cpdlc_tags::LATITUDE_DEGREES,
        cpdlc_tags::LATITUDE_MINUTES,
        cpdlc_tags::LATITUDE_SECONDS,
        cpdlc_tags::LATITUDE_SIDE,
    ];
    sweep::sweep(
        all,
        Kind::Coordinates,
        &seconds,
        [0, 2, 0, 0, 0, 0],
        2,
        0,
        128,
    );
    sweep::sweep(
        all,
        Kind::Coordinates,
        &seconds,
        [0, 2, 45, 0, 0, 0],
        3,
        0,
        64,
    );
    sweep::sweep(
        all,
        Kind::Coordinates,
        &seconds,
        [0, 2, 45, 30, 0, 0],
        4,
        0,
        64,
    );
}

fn longitudes(all: bool) {
    let thousandths = [
        cpdlc_tags::COORDINATES,
        cpdlc_tags::LONGITUDE,
        cpdlc_tags::LONGITUDE_THOUSANDTHS,
        cpdlc_tags::LONGITUDE_SIDE,
        0,
        0,
    ];
    sweep::sweep(
        all,
        Kind::Coordinates,
        &thousandths,
        [0, 0, 0, 0, 0, 0],
        2,
        0,
        262144,
    );
    let hundredths = [
        cpdlc_tags::COORDINATES,
        cpdlc_tags::LONGITUDE,
        cpdlc_tags::LONGITUDE_DEGREES,
        cpdlc_tags::LONGITUDE_HUNDREDTHS,
        cpdlc_tags::LONGITUDE_SIDE,
        0,
    ];
    sweep::sweep(
        all,
        Kind::Coordinates,
        &hundredths,
        [0, 1, 0, 0, 1, 0],
        2,
        0,
        256,
    );
    sweep::sweep(
        all,
        Kind::Coordinates,
        &hundredths,
        [0, 1, 45, 0, 1, 0],
        3,
        0,
        8192,
    );
    let seconds = [
        cpdlc_tags::COORDINATES,
        cpdlc_tags::LONGITUDE,
        cpdlc_tags::LONGITUDE_DEGREES,
        cpdlc_tags::LONGITUDE_MINUTES,
        cpdlc_tags::LONGITUDE_SECONDS,
        cpdlc_tags::LONGITUDE_SIDE,
    ];
    sweep::sweep(
        all,
        Kind::Coordinates,
        &seconds,
        [0, 2, 0, 0, 0, 0],
        2,
        0,
        256,
    );
    sweep::sweep(
        all,
        Kind::Coordinates,
        &seconds,
        [0, 2, 45, 0, 0, 0],
        3,
        0,
        64,
    );
    sweep::sweep(
        all,
        Kind::Coordinates,
        &seconds,
        [0, 2, 45, 30, 0, 0],
        4,
        0,
        64,
    );
}
