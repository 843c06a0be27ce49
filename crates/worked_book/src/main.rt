// A day of the name book: lines of four digits loaded, written back with five, names withdrawn, and each refusal. Every line has the number of free places.
// The file `stdout` is written by hand from document 02.
#![tactic(auto)]

mod calls; // calls.rt: a call with its line
mod said; // said.rt: what a line says of an answer

fn main() {
    two_places();
    no_number();
    no_place();
}

fn two_places() {
    let mut book = [7u32; 10];
    calls::empty(&mut book);
    calls::load(&mut book, b"41420000000900FF\n4141000000070010\n");
    calls::save(&book);
    calls::withdraw(&mut book, 7);
    calls::withdraw(&mut book, 7);
    calls::save(&book);
    calls::load(&mut book, b"41410000000712345\n414243000000080000F\n");
    calls::save(&book);
    refused(&mut book);
    calls::load(&mut book, b"");
    calls::save(&book);
    calls::miscount(&mut book, 1);
    calls::save(&book);
    calls::miscount(&mut book, 3);
}

// Three names, a name twice, a number twice, no line feed, a digit in lower case.
fn refused(book: &mut [u32; 10]) {
    calls::load(
        book,
        b"4141000000070010\n4142000000080010\n4143000000090010\n",
    );
    calls::load(book, b"4141000000070010\n41410000000800010\n");
    calls::load(book, b"4141000000070010\n41420000000700010\n");
    calls::load(book, b"4141000000070010");
    calls::load(book, b"41410000000700f0\n");
    calls::save_short(book);
}

// A slice too short for a number.
fn no_number() {
    let mut book = [7u32; 1];
    calls::short(&mut book);
}

// A number of free places where there is no place.
fn no_place() {
    let book = [5u32, 7];
    calls::number_alone(&book);
}
