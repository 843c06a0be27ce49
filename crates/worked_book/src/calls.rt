// A call with its line.
use crate::said::{end, put_loaded, put_saved, put_withdrawn};
use counted_books::empty_book;
use listing::Line;

pub fn empty(book: &mut [u32; 10]) {
    empty_book(book);
    let mut line = Line::new();
    line.put_text(b"emptied");
    end(line, book);
}

pub fn load(book: &mut [u32; 10], text: &[u8]) {
    let answer = loaded_books::load(book, text);
    let mut line = Line::new();
    put_loaded(&mut line, answer);
    end(line, book);
}

pub fn withdraw(book: &mut [u32; 10], number: u32) {
    let answer = name_book::withdraw(book, number);
    let mut line = Line::new();
    put_withdrawn(&mut line, answer);
    end(line, book);
}

pub fn save(book: &[u32; 10]) {
    let mut out = [0u8; 64];
    let answer = saved_books::save(book, &mut out);
    let mut line = Line::new();
    put_saved(&mut line, answer, &out);
    end(line, book);
}

// Three bytes to save into.
pub fn save_short(book: &[u32; 10]) {
    let mut out = [0u8; 3];
    let answer = saved_books::save(book, &mut out);
    let mut line = Line::new();
    put_saved(&mut line, answer, &out);
    end(line, book);
}

// Another number of free places than there are.
pub fn miscount(book: &mut [u32; 10], number: u32) {
    book[1] = number;
    let mut line = Line::new();
    line.put_text(b"miscounted");
    end(line, book);
}

// One word, emptied.
pub fn short(book: &mut [u32; 1]) {
    empty_book(book);
    let mut line = Line::new();
    line.put_text(b"one word");
    end(line, book);
}

// Two words, without a place.
pub fn number_alone(book: &[u32; 2]) {
    let mut line = Line::new();
    line.put_text(b"two words");
    end(line, book);
}
