ghost use Rattle.std.specs.Prelude.{◌≡◌, ◌*◌, pos, ◌*ℤ◌, Some};
ghost use Rattle.sums.specs.Sums.{unsigned64, signed64, checked, step};

// One addition, or none where the result leaves 64 bits: a test beforehand and no `checked_add`, by the limits of each type.
pub fn checked_add_u64(acc: u64, x: u64) -> Option<u64>
    ensures { result ≡ step unsigned64 (Some acc) x }
{
    if x > u64::MAX - acc {
        None
    } else {
        Some(acc + x)
    }
}

pub fn checked_add_i64(acc: i64, x: i64) -> Option<i64>
    ensures { result ≡ step signed64 (Some acc) x }
{
    let overflows = if x >= 0 {
        acc > i64::MAX - x
    } else {
        acc < i64::MIN - x
    };
    if overflows { None } else { Some(acc + x) }
}

// A number n times, or none where the product leaves 64 bits: again a test beforehand. The signed product is made in 128 bits,
// which hold it, and is tested before it is narrowed. Two texts: a division tests the unsigned one, and no division the other.
pub fn checked_mul_u64(x: u64, n: u64) -> Option<u64>
    ensures { result ≡ checked unsigned64 (x * n) }
{
    if n != 0 && x > u64::MAX / n {
        return None;
    }
    Some(x * n)
}

pub fn checked_mul_i64(x: i64, n: u64) -> Option<i64>
    ensures { result ≡ checked signed64 (x *ℤ pos n) }
{
    let product = i128::from(x) * i128::from(n);
    i64::try_from(product).ok()
}
