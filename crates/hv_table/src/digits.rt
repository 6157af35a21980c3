ghost use Rattle.std.specs.Prelude.{◌≡◌, ◌≤◌, ◌<◌, ◌^◌, IfSome};
ghost use Rattle.std.specs.Str.Parse.{AllDigits};
ghost use Rattle.std.specs.Option.{SomeIff};
ghost use Rattle.hv_table.specs.Decimal.{number_of, fixed_digits};

/// Numbers of exactly `W` decimal digits, for `W` up to 18.
pub struct Digits<const W: usize>;

impl<const W: usize> Digits<W> {
    /// The digits of a number, with zeros in front.
    #[tactic(auto, unfolding(crate::specs::Decimal::fixed_digits))]
    pub fn print(value: u64) -> [u8; W]
        requires width { W ≤ 18 }
        requires fits { value < 10 ^ W }
        ensures digits { result ≡ fixed_digits W value }

        // What is printed reads as the value again.
        ensures reads_back { AllDigits 10 result × (number_of result ≡ value) }
    {
        let mut digits = [b'0'; W];
        let mut rest = value;
        for place in (0..W).rev() {
            digits[place] = b'0' + (rest % 10) as u8;
            rest /= 10;
        }
        digits
    }

    /// The number that the digits spell, or `None` where a byte isn't a digit.
    #[tactic(auto, unfolding(crate::specs::Decimal::fixed_digits))]
    pub fn read(bytes: &[u8; W]) -> Option<u64>
        requires { W ≤ 18 }
        ensures exact { SomeIff result (AllDigits 10 bytes.now) (number_of bytes.now) }

        // What is read may be printed, and is then as it was.
        ensures prints_back { IfSome result
            (λ value. (value < 10 ^ W) × (fixed_digits W value ≡ bytes.now)) }
    {
        let mut value = 0;
        for byte in bytes {
            if !byte.is_ascii_digit() {
                return None;
            }
            value = value * 10 + u64::from(*byte - b'0');
        }
        Some(value)
    }
}
