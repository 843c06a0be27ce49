// Records copied from front to front. All words are taken before the first is put: so a machine may move
// two at a time, with no need to know that the slices lie apart.
ghost use Rattle.std.specs.Prelude.{◌++◌, ◌≡◌, ◌≤◌, length, take, drop};

pub fn copy_one(from: &[u64], to: &mut [u64])
    requires { (5 ≤ length from.now) × (5 ≤ length to.old) }
    ensures { to.new ≡ take 5 from.now ++ drop 5 to.old }
{
    let a = from[0];
    let b = from[1];
    let c = from[2];
    let d = from[3];
    let e = from[4];
    to[0] = a;
    to[1] = b;
    to[2] = c;
    to[3] = d;
    to[4] = e;
}

pub fn copy_two(from: &[u64], to: &mut [u64])
    requires { (10 ≤ length from.now) × (10 ≤ length to.old) }
    ensures { to.new ≡ take 10 from.now ++ drop 10 to.old }
{
    let a = from[0];
    let b = from[1];
    let c = from[2];
    let d = from[3];
    let e = from[4];
    let f = from[5];
    let g = from[6];
    let h = from[7];
    let i = from[8];
    let j = from[9];
    to[0] = a;
    to[1] = b;
    to[2] = c;
    to[3] = d;
    to[4] = e;
    to[5] = f;
    to[6] = g;
    to[7] = h;
    to[8] = i;
    to[9] = j;
}

// Two, and two more.
pub fn copy_four(from: &[u64], to: &mut [u64])
    requires { (20 ≤ length from.now) × (length from.now ≤ length to.old) }
    ensures { to.new ≡ take 20 from.now ++ drop 20 to.old }
{
    copy_two(from, to);
    copy_two(&from[10..], &mut to[10..]);
}
