// A case's line: what the list is, and what is said of it.
use list_comparison::Checked;
use listing::Line;

pub fn print(list: &[u8], said: Checked) {
    let mut line = Line::new();
    line.put_text(list);
    line.put_text(b": ");
    put_said(&mut line, said);
    line.write();
}

fn put_said(line: &mut Line, said: Checked) {
    match said {
        Checked::Yes => line.put_text(b"yes"),
        Checked::Differs(place) => put_place(line, b"differs ", place as u64),
        Checked::Missing(place) => put_place(line, b"missing ", place as u64),
        Checked::TooMany(place) => put_place(line, b"too many ", place as u64),
        Checked::Incomplete(place) => put_place(line, b"incomplete ", place as u64),
        Checked::Refused(number) => put_place(line, b"refused ", number),
    }
}

fn put_place(line: &mut Line, text: &[u8], number: u64) {
    line.put_text(text);
    line.put_decimal(number);
}
