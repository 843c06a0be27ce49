// Texts whose length is a number of a range. What `ia5` does is done here: so the compiler keeps a text out of memory.
ghost use Rattle.std.specs.Prelude.{◌<◌, ◌^◌};
ghost use Rattle.atn.specs.Format.{text, first};
ghost use Rattle.cursor.specs.Place.{Takes};
ghost use Rattle.cursor.specs.Formats.{Maybe};
ghost use Rattle.field_ranges.specs.Ends.{lowest, highest};
ghost use Rattle.character_strings.specs.Texts.{SizeRow};
ghost use Rattle.told_fields.specs.Does.{Does};

use character_strings::{Text, characters, size};
use field_ranges::table::Range;
use runs::At;
use tell::tell_text;

pub fn letters(words: &mut [u64], at: At, s: &[u8], element: u64, tag: u64, range: Range) -> At
    requires { (at.n < 2 ^ 31) × SizeRow range }
    ensures { Does 64 element (Takes (text tag 128 (first 0) (lowest range.row) (highest range.row)) s.now) at result words.old words.new }
{
    let from = at.c.at;
    let length = size(s, at.c, range);
    let run = characters(s, length.c, length.v as usize);
    let c = run.c;
    let text = Text {
        from: from,
        at: run.v.at,
        len: run.v.len,
    };
    let n = tell_text(words, at.n, tag, element, s, text);
    At { n: n, c: c }
}

pub fn maybe_letters(
    words: &mut [u64],
    at: At,
    s: &[u8],
    has: u64,
    element: u64,
    tag: u64,
    range: Range,
) -> At
    requires { (at.n < 2 ^ 31) × SizeRow range }
    ensures { Does 64 element (Maybe has (text tag 128 (first 0) (lowest range.row) (highest range.row)) s.now) at result words.old words.new }
{
    if has == 0 {
        return at;
    }
    letters(words, at, s, element, tag, range)
}
