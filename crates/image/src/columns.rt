// The widths that a column of numbers has in an image: how one number is laid and read, and what that says of a column.
ghost use Rattle.std.specs.Prelude.{◌≡◌, ℕ, zero, suc, ◌+◌, ◌*◌, ◌≤◌, List, [], ◌∷◌, ◌++◌, length};
ghost use Rattle.laws.specs.Splice.{Put};
ghost use Rattle.image.specs.Numbers.{number_octets, numbers_octets, number_at, numbers_at};
ghost use Rattle.image.specs.Widths.{number-long, octets_none, octets_more, numbers_none, numbers_more};

// An unsigned number, in so many octets, the lowest first.
pub(crate) trait Number: Copy {
    const WIDTH: usize;

    const ZERO: Self;

    ghost WIDTH: { ℕ };

    ghost octets: { Self → List ℕ };

    ghost column: { List Self → List ℕ };

    ghost number: { List ℕ → ℕ → Self };

    ghost numbers: { ℕ → List ℕ → ℕ → List Self };

    // The place behind it is handed back.
    fn lay(self, buffer: &mut [u8], at: usize) -> usize
        requires { at + WIDTH ≤ length buffer.old }
        ensures laid { Put buffer.old at (octets self) buffer.new result }
        ensures next { result ≡ at + WIDTH };

    fn read(s: &[u8], at: usize) -> Self
        requires { at + WIDTH ≤ length s.now }
        ensures { result ≡ number s.now at };

    ghost long: { (x : Self) → length (octets x) ≡ WIDTH };

    ghost column_none: { column [] ≡ [] };

    ghost column_more: { (x : Self) (xs : List Self) → column (x ∷ xs) ≡ octets x ++ column xs };

    ghost numbers_none: { (s : List ℕ) (at : ℕ) → numbers zero s at ≡ [] };

    ghost numbers_more: { (n : ℕ) (s : List ℕ) (at : ℕ) → numbers (suc n) s at ≡ number s at ∷ numbers n s (at + WIDTH) };
}

// A number in so many octets, the lowest first; the place behind them is handed back.
fn lay(buffer: &mut [u8], at: usize, k: usize, x: u64) -> usize
    requires { at + k ≤ length buffer.old }
    ensures laid { Put buffer.old at (number_octets k x) buffer.new result }
    ensures next { result ≡ at + k }
{
    let mut rest = x;
    for i in 0..k {
        buffer[at + i] = (rest % 256) as u8;
        rest /= 256;
    }
    at + k
}

// Kept: an impl for each width by hand, since the gate refuses an impl that a macro of the repository writes.
impl Number for u8 {
    const WIDTH: usize = 1;

    const ZERO: u8 = 0;

    ghost WIDTH = { 1 };

    ghost octets = { number_octets 1 };

    ghost column = { numbers_octets 1 };

    ghost number = { number_at 1 };

    ghost numbers = { numbers_at 1 };

    fn lay(self, buffer: &mut [u8], at: usize) -> usize {
        lay(buffer, at, 1, u64::from(self))
    }

    fn read(s: &[u8], at: usize) -> u8 {
        s[at]
    }

    ghost long = { number-long 1 };

    ghost column_none = { octets_none 1 };

    ghost column_more = { octets_more 1 };

    ghost numbers_none = { numbers_none 1 };

    ghost numbers_more = { numbers_more 1 };
}

impl Number for u16 {
    const WIDTH: usize = 2;

    const ZERO: u16 = 0;

    ghost WIDTH = { 2 };

    ghost octets = { number_octets 2 };

    ghost column = { numbers_octets 2 };

    ghost number = { number_at 2 };

    ghost numbers = { numbers_at 2 };

    fn lay(self, buffer: &mut [u8], at: usize) -> usize {
        lay(buffer, at, 2, u64::from(self))
    }

    fn read(s: &[u8], at: usize) -> u16 {
        u16::from(s[at]) + 256 * u16::from(s[at + 1])
    }

    ghost long = { number-long 2 };

    ghost column_none = { octets_none 2 };

    ghost column_more = { octets_more 2 };

    ghost numbers_none = { numbers_none 2 };

    ghost numbers_more = { numbers_more 2 };
}

impl Number for u32 {
    const WIDTH: usize = 4;

    const ZERO: u32 = 0;

    ghost WIDTH = { 4 };

    ghost octets = { number_octets 4 };

    ghost column = { numbers_octets 4 };

    ghost number = { number_at 4 };

    ghost numbers = { numbers_at 4 };

    fn lay(self, buffer: &mut [u8], at: usize) -> usize {
        lay(buffer, at, 4, u64::from(self))
    }

    fn read(s: &[u8], at: usize) -> u32 {
        u32::from(u16::read(s, at)) + 65536 * u32::from(u16::read(s, at + 2))
    }

    ghost long = { number-long 4 };

    ghost column_none = { octets_none 4 };

    ghost column_more = { octets_more 4 };

    ghost numbers_none = { numbers_none 4 };

    ghost numbers_more = { numbers_more 4 };
}

impl Number for u64 {
    const WIDTH: usize = 8;

    const ZERO: u64 = 0;

    ghost WIDTH = { 8 };

    ghost octets = { number_octets 8 };

    ghost column = { numbers_octets 8 };

    ghost number = { number_at 8 };

    ghost numbers = { numbers_at 8 };

    fn lay(self, buffer: &mut [u8], at: usize) -> usize {
        lay(buffer, at, 8, self)
    }

    fn read(s: &[u8], at: usize) -> u64 {
        u64::from(u32::read(s, at)) + 4294967296 * u64::from(u32::read(s, at + 4))
    }

    ghost long = { number-long 8 };

    ghost column_none = { octets_none 8 };

    ghost column_more = { octets_more 8 };

    ghost numbers_none = { numbers_none 8 };

    ghost numbers_more = { numbers_more 8 };
}

// Numbers one behind the other; the place behind them is handed back.
pub(crate) fn lay_column<T: Number>(buffer: &mut [u8], at: usize, xs: &[T]) -> usize
    requires { at + length xs.now * T.WIDTH ≤ length buffer.old }
    ensures laid { Put buffer.old at (T.column xs.now) buffer.new result }
    ensures next { result ≡ at + length xs.now * T.WIDTH }
{
    let mut place = at;
    for &x in xs {
        place = x.lay(buffer, place);
    }
    place
}

// The numbers from a place on.
pub(crate) fn column<T: Number, const N: usize>(s: &[u8], at: usize) -> [T; N]
    requires { at + N * T.WIDTH ≤ length s.now }
    ensures { result ≡ T.numbers N s.now at }
{
    let mut xs = [T::ZERO; N];
    for i in 0..N {
        xs[i] = T::read(s, at + i * T::WIDTH);
    }
    xs
}
