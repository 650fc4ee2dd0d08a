ghost use Rattle.std.specs.Prelude.{◌≡◌, ◌+◌, ◌*◌, ◌%◌, ◌^◌, ◌<◌, ◌≤◌, length, MatchOption};
ghost use Rattle.std.specs.Char.{digit_value};
ghost use Rattle.std.specs.Str.Parse.{AllDigits, digits_value_after};
ghost use Rattle.zl_value.specs.Significand.{IsLong, with_zeros, most};

/// The most digits of a number that is read, up to its last digit that isn't 0.
const MOST_DIGITS: usize = 38;

/// The least number with more digits than that.
pub const LIMIT: u128 = 100_000_000_000_000_000_000_000_000_000_000_000_000;

/// A number as its digits are read: `number`, whose last digit isn't 0 unless it is 0, and behind it `zeros` zeros.
#[derive(Clone, Copy)]
pub struct Significand {
    pub number: u128,
    pub zeros: usize,
    ghost short: { number < 10 ^ 38 },
    ghost last: { number % 10 ≡ 0 → number ≡ 0 },
    ghost bare: { number ≡ 0 → zeros ≡ 0 },
}

impl Significand {
    /// No digit yet.
    pub fn new() -> Significand
        ensures number { result.number ≡ 0 }
        ensures zeros { result.zeros ≡ 0 }
    {
        Significand {
            number: 0,
            zeros: 0,
        }
    }

    fn with_zero(self) -> Significand
        requires { self.zeros < most }
        ensures value { with_zeros result.number result.zeros ≡ with_zeros self.number self.zeros * 10 }
        ensures zeros { result.zeros ≤ self.zeros + 1 }
    {
        if self.number == 0 {
            return self;
        }
        Significand {
            number: self.number,
            zeros: self.zeros + 1,
        }
    }

    fn with_nonzero(self, digit: u8) -> Option<Significand>
        requires least { 0 < digit }
        requires greatest { digit < 10 }
        ensures { MatchOption result (IsLong (with_zeros self.number self.zeros * 10 + digit)) (λ s.
            (s.number ≡ with_zeros self.number self.zeros * 10 + digit) × (s.zeros ≡ 0)) }
    {
        if self.zeros >= MOST_DIGITS {
            return None;
        }
        let front = self
            .number
            .saturating_mul(10u128.pow(self.zeros as u32 + 1));
        if front >= LIMIT {
            return None;
        }
        Some(Significand {
            number: front + u128::from(digit),
            zeros: 0,
        })
    }

    fn with_digit(self, digit: u8) -> Option<Significand>
        requires digit { digit_value digit < 10 }
        requires room { self.zeros < most }
        ensures { let value = with_zeros self.number self.zeros * 10 + digit_value digit in
            MatchOption result (IsLong value) (λ s.
            (with_zeros s.number s.zeros ≡ value) × (s.zeros ≤ self.zeros + 1)) }
    {
        match digit - b'0' {
            0 => Some(self.with_zero()),
            digit => self.with_nonzero(digit),
        }
    }

    /// The number with these digits behind it. `None` where it then has more than 38 digits up to its last digit that
    /// isn't 0.
    pub fn with_digits(self, digits: &[u8]) -> Option<Significand>
        requires digits { AllDigits 10 digits.now }
        requires room { self.zeros < 2 ^ 63 }
        ensures { let value = digits_value_after 10 (with_zeros self.number self.zeros) digits.now in
            MatchOption result (IsLong value) (λ s.
            (with_zeros s.number s.zeros ≡ value) × (s.zeros ≤ self.zeros + length digits.now)) }
    {
        let mut significand = self;
        for digit in digits {
            significand = significand.with_digit(*digit)?;
        }
        Some(significand)
    }
}
