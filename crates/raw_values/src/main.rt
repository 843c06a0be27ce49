// Every raw value of every number and enumeration of the arguments. A sweep puts each raw value of one field into a frame, behind chosen bits and before zeros, and has the frame read as the argument of a table's byte.
// A line is the table's byte, the bits before the field, the raw values that follow each other and read alike, and how they read: `ok`, the bits taken, the mark sum, the number of records and the records; or `no`, why, bits, marks.
// Where the line says `record K less raw` the raw value is taken away from the value of the record K, so that one line tells of many raw values.
// The file `stdout` is made from the answers of the Rust, by tools/differential/raw-list.
#![tactic(auto)]

mod frame; // frame.rt: the frame of a raw value
mod reading; // reading.rt: how a frame reads
mod sweep; // sweep.rt: all raw values of a field
mod kinds; // kinds.rt: speeds, levels, degrees, frequencies
mod names; // names.rt: enumerations
mod digits; // digits.rt: codes, channels, runways
mod texts; // texts.rt: kinds and sizes of names and procedures
mod coordinates; // coordinates.rt: latitude and longitude, wherever they stand

fn main() {
    kinds::all();
    names::all();
    digits::all();
    texts::all();
    coordinates::all();
}
