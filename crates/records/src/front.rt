// A record at the front of what is lent.
ghost use Rattle.std.specs.Prelude.{◌≡◌, ◌≤◌, [], ◌∷◌, ◌++◌, length, drop};
ghost use Rattle.atn.specs.Reading.{rec};
ghost use Rattle.atn.specs.Entries.{flat};
ghost use Rattle.records.specs.Space.{size};

// The words behind it stay.
pub fn put_record(front: &mut [u64], tag: u64, element: u64, value: u64, second: u64, place: u64)
    requires { size ≤ length front.old }
    ensures { front.new ≡ flat (rec tag element value second place ∷ []) ++ drop size front.old }
{
    front[0] = tag;
    front[1] = element;
    front[2] = value;
    front[3] = second;
    front[4] = place;
}
