// Sums and differences that wrap at a width, of unsigned and of signed numbers.
#![tactic(auto)]

ghost use Rattle.std.specs.Prelude.{◌≡◌, ◌+◌, ◌-◌, ◌%◌, ◌^◌, ◌<◌, pos, negsuc, ◌+ℤ◌, ◌-ℤ◌, nat_lt};
ghost use Rattle.std.specs.Int.Signed.{mag};
ghost use Rattle.leb128.specs.Number.{IsWidth};
ghost use Rattle.wrap.specs.Wrap.{residue, signed_in, wrapped, same};

// 2 to the k, in a word.
fn power(k: u32) -> u64
    requires { k < 64 }
    ensures { result ≡ 2 ^ k }
{
    1u64 << k
}

// The low bits of a word.
fn low(width: u32, x: u64) -> u64
    requires { IsWidth width }
    ensures { result ≡ x % 2 ^ width }
{
    if width < 64 {
        return x % power(width);
    }
    x
}

// The word of a signed number.
fn bits(x: i64) -> u64
    ensures { result ≡ residue 64 x }
{
    if leb128::is_negative(x) {
        return 18446744073709551615 - leb128::magnitude(x);
    }
    leb128::magnitude(x)
}

// The signed number that the low bits of a word are.
fn signed(width: u32, b: u64) -> i64
    requires { (IsWidth width) × (b < 2 ^ width) }
    ensures { result ≡ signed_in width b }
{
    let half = power(width - 1);
    if b < half {
        return leb128::positive(b);
    }
    leb128::negative(half - 1 - (b - half))
}

// a + d at a width.
pub fn add(width: u32, a: u64, d: u64) -> u64
    requires { IsWidth width }
    ensures { result ≡ (a + d) % 2 ^ width }
{
    low(width, std::num::wrapping_add_u64(a, d))
}

// a - b at a width.
pub fn sub(width: u32, a: u64, b: u64) -> u64
    requires { IsWidth width }
    ensures { result ≡ residue width (pos a -ℤ pos b) }
{
    low(width, std::num::wrapping_sub_u64(a, b))
}

// An unsigned number moved by a signed one.
pub fn moved(width: u32, a: u64, d: i64) -> u64
    requires { IsWidth width }
    ensures { result ≡ residue width (pos a +ℤ d) }
{
    add(width, a, bits(d))
}

// The signed number by which b is moved to a.
pub fn distance(width: u32, a: u64, b: u64) -> i64
    requires { IsWidth width }
    ensures { result ≡ wrapped width (pos a -ℤ pos b) }
{
    signed(width, sub(width, a, b))
}

// a + d of signed numbers.
pub fn add_signed(width: u32, a: i64, d: i64) -> i64
    requires { IsWidth width }
    ensures { result ≡ wrapped width (a +ℤ d) }
{
    signed(width, add(width, bits(a), bits(d)))
}

// a - b of signed numbers.
pub fn sub_signed(width: u32, a: i64, b: i64) -> i64
    requires { IsWidth width }
    ensures { result ≡ wrapped width (a -ℤ b) }
{
    signed(width, sub(width, bits(a), bits(b)))
}

// Whether a number has at most so many bits.
pub fn fits_unsigned(width: u32, x: u64) -> bool
    requires { IsWidth width }
    ensures { result ≡ nat_lt x (2 ^ width) }
{
    if width < 64 {
        return x < power(width);
    }
    true
}

// Whether a signed number has at most so many bits, the sign among them.
pub fn fits_signed(width: u32, x: i64) -> bool
    requires { IsWidth width }
    ensures { result ≡ nat_lt (mag x) (2 ^ (width - 1)) }
{
    leb128::magnitude(x) < power(width - 1)
}

// Whether two signed numbers are one, in the words of the definitions.
pub fn equal(a: i64, b: i64) -> bool
    ensures { result ≡ same a b }
{
    a == b
}
