// An answer as the lines of tools/differential have it: `ok`, whole or cut, reach, mark sum, number of records and the records; or `no`, number, reach, and for 7 the need. How many bits were lacked is not printed: the Rust, from whose answers lists are made, does not say it.
use super::Line;
use answers::Answer;

pub fn put_answer(line: &mut Line, words: &[u64; 160], answer: Answer) {
    match answer {
        Answer::Accepted {
            cut,
            reach,
            marks,
            count,
        } => {
            line.put_text(if cut { b"ok cut " } else { b"ok whole " });
            line.put_decimal(reach as u64);
            line.put(b' ');
            line.put_decimal(marks);
            line.put(b' ');
            line.put_decimal(count as u64);
            put_records(line, words, count);
        }
        Answer::Refused {
            number,
            reach,
            need,
            lacked: _,
        } => {
            line.put_text(b"no ");
            line.put_decimal(number);
            line.put(b' ');
            line.put_decimal(reach as u64);
            if number == 7 {
                line.put(b' ');
                line.put_decimal(need as u64);
            }
        }
    }
}

// Each record as `;tag,element,value,second,place`, as many as the words hold.
pub fn put_records(line: &mut Line, words: &[u64; 160], count: usize) {
    for record in words.chunks_exact(5).take(count) {
        for (i, &number) in record.iter().enumerate() {
            line.put(if i == 0 { b';' } else { b',' });
            line.put_decimal(number);
        }
    }
}
