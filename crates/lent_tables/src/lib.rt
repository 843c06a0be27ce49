// The lent tables have 1 to 256 entries each.
#![tactic(auto)]

ghost use Rattle.std.specs.Prelude.{◌≡◌, ◌&&◌};
ghost use Rattle.atn.specs.Entries.{table_fits};

fn table_fits(table: &[u8]) -> bool
    ensures { result ≡ table_fits table.now }
{
    if table.len() < 1 {
        return false;
    }
    table.len() <= 256
}

pub fn tables_fit(down: &[u8], up: &[u8]) -> bool
    ensures { result ≡ table_fits down.now && table_fits up.now }
{
    if table_fits(down) {
        return table_fits(up);
    }
    false
}
