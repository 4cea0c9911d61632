ghost use Rattle.std.specs.Prelude.{◌≡◌, ◌≤◌, length};
ghost use Rattle.graphs.specs.Rows.{Distinct};
ghost use Rattle.pairings.specs.Flips.{Flipped};

/// The row read the other way: which place each entry stands at. An entry of M or more has no place there.
pub fn flipped<const N: usize, const M: usize>(row: &[Option<u8>; N]) -> [Option<u8>; M]
    ensures wide { length result ≡ M }
    ensures flipped { N ≤ 256 → Distinct M row.now → Flipped M row.now result }
{
    let mut back = [None; M];
    for (place, entry) in row.iter().enumerate() {
        // A byte names no place above 255.
        let Ok(place) = u8::try_from(place) else {
            break;
        };
        if let Some(entry) = *entry {
            let entry = usize::from(entry);
            if entry < M {
                back[entry] = Some(place);
            }
        }
    }
    back
}
