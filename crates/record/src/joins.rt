// Joins of tests, and a pick by a test: bools go in, a choice comes out. Kept: what may not change, `and`, `or`, `not` and `all` promise the language's own joins by name.
ghost use Rattle.std.specs.Prelude.{◌≡◌, cond};
ghost use Rattle.record.specs.Tests.{both, either, flip, within};

pub fn and(a: bool, b: bool) -> bool
    ensures { result ≡ both a b }
{
    a && b
}

pub fn or(a: bool, b: bool) -> bool
    ensures { result ≡ either a b }
{
    a || b
}

pub fn not(a: bool) -> bool
    ensures { result ≡ flip a }
{
    !a
}

pub fn all(a: bool, b: bool, c: bool, d: bool) -> bool
    ensures { result ≡ both a (both b (both c d)) }
{
    a && b && c && d
}

pub fn pick<T: Copy>(first: bool, x: T, y: T) -> T
    ensures { result ≡ cond first x y }
{
    if first { x } else { y }
}

pub fn ranged(from: u8, to: u8, n: u8) -> bool
    ensures { result ≡ within from to n }
{
    from <= n && n <= to
}
