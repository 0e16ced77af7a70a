ghost use Rattle.std.specs.Prelude.{◌≡◌, ◌≤◌, true, false, is_some, IfSome, MatchOption};
ghost use Rattle.image.specs.Numbers.{natural, below, is_label};
ghost use Rattle.image.specs.Rules.{range_keeps, intervals_there};

// The number as an index, where it is 0 or above and below n.
pub(crate) fn index_below(x: i32, n: usize) -> Option<u16>
    requires { n ≤ 65536 }
    ensures { MatchOption result (below x n ≡ false) (λ k. (below x n ≡ true) × (k ≡ natural x)) }
{
    u16::try_from(x).ok().filter(|k| usize::from(*k) < n)
}

// Is it a symbol, or the end of the text?
pub(crate) fn is_label(x: i32) -> bool
    ensures { result ≡ is_label x }
{
    (-1..=1114111).contains(&x)
}

// Are both symbols or the end of the text, and low not above high?
pub(crate) fn range_keeps(low: i32, high: i32) -> bool
    ensures { result ≡ range_keeps low high }
{
    is_label(low) && low <= high && is_label(high)
}

// The first of q intervals from p on, and how many they are, where they are there.
pub(crate) fn intervals_from(p: i32, q: i32, intervals: usize) -> Option<(u16, u16)>
    requires { intervals ≤ 65535 }
    ensures keeps { is_some result ≡ intervals_there p q intervals }
    ensures means { IfSome result (λ r. (r.0 ≡ natural p) × (r.1 ≡ natural q)) }
{
    let first = u16::try_from(p).ok()?;
    let count = u16::try_from(q).ok().filter(|count| *count >= 1)?;
    if usize::from(first) + usize::from(count) <= intervals {
        Some((first, count))
    } else {
        None
    }
}
