ghost use Rattle.std.specs.Prelude.{◌≤◌, ◌⊎◌, IsTrue, ◌↔◌};
ghost use Rattle.graphs.specs.Rows.{Distinct, DistinctBefore};

/// Whether every entry is below the bound and none stands twice.
pub fn no_entry_twice(row: &[Option<u8>], bound: usize) -> bool
    ensures { IsTrue result ↔ Distinct bound row.now }
{
    no_entry_twice_before(row, bound, row.len())
}

/// Whether every entry is below the bound, none stands twice, and none stands at this end or past it.
// Inlined, here and below: left out of line, each entry takes a third longer.
#[inline(always)]
pub fn no_entry_twice_before(row: &[Option<u8>], bound: usize, end: usize) -> bool
    ensures { IsTrue result ↔ DistinctBefore bound end row.now }
{
    // Clearing the table is much of the work on a short row, so a low bound has a small one.
    if bound <= 64 {
        each_new_before::<64>(row, bound, end)
    } else {
        each_new_before::<256>(row, bound, end)
    }
}

// The same, with a table of N flags for the entries seen.
#[inline(always)]
fn each_new_before<const N: usize>(row: &[Option<u8>], bound: usize, end: usize) -> bool
    requires { (bound ≤ N) ⊎ (256 ≤ N) }
    ensures { IsTrue result ↔ DistinctBefore bound end row.now }
{
    let mut seen = [false; N];
    for (place, entry) in row.iter().enumerate() {
        if let Some(task) = entry {
            let task = usize::from(*task);
            if place >= end || task >= bound || seen[task] {
                return false;
            }
            seen[task] = true;
        }
    }
    true
}
