// The seven-bit numbers of a tree file.
#![tactic(auto)]

ghost use Rattle.std.specs.Prelude.{◌≡◌, ◌<◌};
ghost use Rattle.file_numbers.specs.Standing.{stands_at};

// The number that starts at a place, and the place after it; none where it is malformed. Three groups are the most that a
// number up to 65,535 has. Always put into its callers: left to itself, the compiler calls it for two numbers of a node,
// and a small tree takes 2 to 7 hundredths longer to load (docs/LOOK-BACK.md, d).
#[inline(always)]
pub fn number_at(file: &[u8], at: usize) -> Option<(u16, usize)>
    ensures { result ≡ stands_at file.now at }
{
    let low = u16::from(*file.get(at)?);
    if low < 128 {
        return Some((low, at + 1));
    }
    let middle = u16::from(*file.get(at + 1)?);
    if middle == 0 {
        return None;
    }
    if middle < 128 {
        return Some(((low - 128) + 128 * middle, at + 2));
    }
    let high = u16::from(*file.get(at + 2)?);
    if high == 0 || high > 3 {
        return None;
    }
    Some(((low - 128) + 128 * (middle - 128) + 16384 * high, at + 3))
}
