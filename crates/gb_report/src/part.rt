//! What a line is made of: parts that append themselves to it, one behind the other.

ghost use Rattle.std.specs.Prelude.{◌≡◌, ◌<◌, ◌≤◌, [], ◌∷◌, ◌++◌, ℕ, List, OnOk};
ghost use Rattle.std.specs.Fmt.{decimal};
ghost use Rattle.std.specs.String.{string_bytes};

use gb_base::OutOfMemory;

/// A part of a line.
pub trait Part {
    /// What it adds to a line.
    ghost text: { Self → List ℕ };

    /// Appends the part to a line.
    fn append_to(&self, line: &mut String) -> Result<(), OutOfMemory>
        ensures { OnOk result (string_bytes line.new ≡ string_bytes line.old ++ text self.now) };
}

/// Parts in a row, as pairs of the first one and the others.
macro_rules! parts {
    ($part:expr) => { $part };
    ($part:expr, $($rest:expr),+) => { ($part, parts!($($rest),+)) };
}

pub(crate) use parts;

impl<A: Part, B: Part> Part for (A, B) {
    ghost use Rattle.std.specs.Prelude.{◌++◌};

    ghost text = { λ p. A.text p.0 ++ B.text p.1 };

    #[inline(always)]
    fn append_to(&self, line: &mut String) -> Result<(), OutOfMemory> {
        match self.0.append_to(line) {
            Ok(()) => self.1.append_to(line),
            Err(why) => refused(why),
        }
    }
}

impl<P: Part> Part for &P {
    ghost text = { λ p. P.text p.now };

    #[inline(always)]
    fn append_to(&self, line: &mut String) -> Result<(), OutOfMemory> {
        (**self).append_to(line)
    }
}

impl Part for &str {
    ghost text = { λ s. s.now };

    #[inline(always)]
    fn append_to(&self, line: &mut String) -> Result<(), OutOfMemory> {
        line.push_str(*self)?;
        Ok(())
    }
}

impl Part for u8 {
    ghost use Rattle.std.specs.Fmt.{decimal};

    ghost text = { decimal };

    #[inline(always)]
    fn append_to(&self, line: &mut String) -> Result<(), OutOfMemory> {
        append_decimal(*self as u64, line)
    }
}

impl Part for u16 {
    ghost use Rattle.std.specs.Fmt.{decimal};

    ghost text = { decimal };

    #[inline(always)]
    fn append_to(&self, line: &mut String) -> Result<(), OutOfMemory> {
        append_decimal(*self as u64, line)
    }
}

/// Numbers of lines, which mostly have many digits.
impl Part for u32 {
    ghost use Rattle.std.specs.Fmt.{decimal};

    ghost text = { decimal };

    #[inline(always)]
    fn append_to(&self, line: &mut String) -> Result<(), OutOfMemory> {
        append_digits(*self as u64, line)
    }
}

/// Numbers of requests, which mostly have many digits.
impl Part for u64 {
    ghost use Rattle.std.specs.Fmt.{decimal};

    ghost text = { decimal };

    #[inline(always)]
    fn append_to(&self, line: &mut String) -> Result<(), OutOfMemory> {
        append_digits(*self, line)
    }
}

/// A refusal, which is seldom.
#[cold]
#[inline(never)]
fn refused(why: OutOfMemory) -> Result<(), OutOfMemory>
    ensures { result ≡ Err why }
{
    Err(why)
}

/// Appends a number in decimal digits.
#[inline(always)]
fn append_decimal(number: u64, line: &mut String) -> Result<(), OutOfMemory>
    ensures { OnOk result (string_bytes line.new ≡ string_bytes line.old ++ decimal number) }
{
    if number < 10 {
        return append_ascii(b'0' + number as u8, line);
    }
    if number < 100 {
        return append_pair(number as u8, line);
    }
    append_digits(number, line)
}

/// Appends a number of two decimal digits.
#[inline(always)]
fn append_pair(number: u8, line: &mut String) -> Result<(), OutOfMemory>
    requires { (10 ≤ number) × (number < 100) }
    ensures { OnOk result (string_bytes line.new ≡ string_bytes line.old ++ decimal number) }
{
    match append_ascii(b'0' + number / 10, line) {
        Ok(()) => append_ascii(b'0' + number % 10, line),
        Err(why) => refused(why),
    }
}

/// Appends a number in decimal digits, however many they are.
#[inline(always)]
fn append_digits(number: u64, line: &mut String) -> Result<(), OutOfMemory>
    ensures { OnOk result (string_bytes line.new ≡ string_bytes line.old ++ decimal number) }
{
    let mut buffer = itoa::Buffer::new();
    line.push_str(buffer.format(number))?;
    Ok(())
}

/// Appends an ASCII byte.
#[inline(always)]
pub fn append_ascii(byte: u8, line: &mut String) -> Result<(), OutOfMemory>
    requires { byte < 128 }
    ensures { OnOk result (string_bytes line.new ≡ string_bytes line.old ++ byte ∷ []) }
{
    line.push(byte as char)?;
    Ok(())
}
