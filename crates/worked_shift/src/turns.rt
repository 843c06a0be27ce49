// A call with its line.
use listing::Line;
use station::{Offered, Shift, offer};

// The shift with the call counted. Each table has one element, without an argument.
pub fn turn(
    shift: Shift,
    book: &mut [u32; 10],
    station: u64,
    number: u32,
    arrived: usize,
    name: &[u8],
    capture: &[u8],
) -> Shift {
    let table = [0u8; 1];
    let outcome = offer(shift, capture, arrived, number, &table, &table, book);
    let answer = outcome.answer;
    print(station, number, arrived, name, answer);
    outcome.shift
}

fn print(station: u64, number: u32, arrived: usize, name: &[u8], answer: Offered) {
    let mut line = Line::new();
    line.put_text(b"station ");
    line.put_decimal(station);
    line.put_text(b", number ");
    line.put_decimal(u64::from(number));
    line.put_text(b", ");
    line.put_decimal(arrived as u64);
    line.put_text(b" bits of ");
    line.put_text(name);
    line.put_text(b": ");
    put_answer(&mut line, answer);
    line.write();
}

fn put_answer(line: &mut Line, answer: Offered) {
    match answer {
        Offered::Bound => line.put_text(b"bound"),
        Offered::Repeated { number } => {
            line.put_text(b"repeated ");
            line.put_decimal(u64::from(number));
        }
        Offered::Refused {
            number,
            reach,
            lacked: _,
        } => {
            line.put_text(b"no ");
            line.put_decimal(number);
            line.put_text(b" ");
            line.put_decimal(reach as u64);
        }
    }
}
