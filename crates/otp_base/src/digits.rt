ghost use Rattle.std.specs.Prelude.{◌≡◌, ◌<◌, ◌^◌, IfSome};
ghost use Rattle.std.specs.Char.{is_ascii_digit};
ghost use Rattle.std.specs.List.{list_all};
ghost use Rattle.otp_base.specs.Number.{number_in, number_of};

/// The number that 1 to 18 decimal digits spell; leading zeros are allowed, signs are not.
pub fn number(text: &str) -> Option<u64>
    ensures value { result ≡ number_of text.now }
    ensures small { IfSome result (λ n. n < 10 ^ 18) }
{
    if text.len() == 0 || text.len() > 18 || !are_digits(text.as_bytes()) {
        return None;
    }
    match text.parse::<u64>() {
        Ok(number) => Some(number),
        Err(_) => None,
    }
}

/// The same of bytes that may be no text.
pub fn number_of_bytes(bytes: &[u8]) -> Option<u64>
    ensures { result ≡ number_of bytes.now }
{
    if !are_digits(bytes) {
        return None;
    }
    match str::from_utf8(bytes) {
        Ok(text) => number(text),
        Err(_) => None,
    }
}

/// The same where the number is in a range, its ends included.
pub fn number_in(low: u64, high: u64, text: &str) -> Option<u64>
    ensures { result ≡ number_in low high text.now }
{
    match number(text) {
        Some(number) if low <= number && number <= high => Some(number),
        _ => None,
    }
}

fn are_digits(bytes: &[u8]) -> bool
    ensures { result ≡ list_all is_ascii_digit bytes.now }
{
    bytes.iter().all(|byte| byte.is_ascii_digit())
}
