// Greatest common divisors and least common multiples.

ghost use Rattle.std.specs.Prelude.{◌≡◌};
ghost use Rattle.std.specs.Int.{IsGcd};
ghost use Rattle.plan.specs.Multiples.{gcd, lcm, within, LeastCommonMultiple};

/// The greatest number that divides both; 0 for two zeros.
pub fn greatest_common_divisor(a: u32, b: u32) -> u32
    ensures value { result ≡ gcd a b }
    ensures greatest { IsGcd a b result }
{
    let (mut x, mut y) = (a, b);
    while y != 0 {
        (x, y) = (y, x % y);
    }
    x
}

/// The least number from 1 on that both divide, and 0 where one of them is 0; `None` where that passes the limit.
pub fn least_common_multiple(a: u32, b: u32, limit: u32) -> Option<u32>
    ensures value { result ≡ within limit (lcm a b) }
    ensures least { LeastCommonMultiple a b (lcm a b) }
{
    if a == 0 || b == 0 {
        return Some(0);
    }
    let product = u64::from(a / greatest_common_divisor(a, b)) * u64::from(b);
    u32::try_from(product).ok().filter(|m| *m <= limit)
}

#[cfg(test)]
mod tests {
    use crate::multiples::least_common_multiple;

    // The bound itself is reached, and one past it is not.
    #[test]
    fn multiples_end_at_the_limit(rt: HostRuntime) {
        assert_eq!(rt;
            least_common_multiple(16_777_216, 2, 16_777_216),
            Some(16_777_216)
        );
        assert_eq!(rt; least_common_multiple(24_929, 673, 16_777_216), None);
    }
}
