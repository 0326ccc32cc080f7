//! Words that name a number.
ghost use Rattle.std.specs.Prelude.{◌≡◌};
ghost use Rattle.compile_stages.specs.Samples.Numbers.{number_of};

/// The number that a word of one to six digits writes.
pub fn number_of(word: &str) -> Option<u32>
    ensures { result ≡ number_of word.now }
{
    let digits = word.as_bytes();
    if digits.is_empty() || digits.len() > 6 {
        return None;
    }
    let mut number = 0u32;
    for digit in digits {
        if !digit.is_ascii_digit() {
            return None;
        }
        number = number * 10 + u32::from(*digit - b'0');
    }
    Some(number)
}
