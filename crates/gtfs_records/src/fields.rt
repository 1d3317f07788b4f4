ghost use Rattle.std.specs.Prelude.{◌≡◌, ◌+◌, ◌*◌, ◌^◌, ◌<◌, ◌≤◌, length, IfSome, IsTrue, pos, neg_ℤ, ◌≤ℤ◌};
ghost use Rattle.std.specs.Char.{is_ascii_digit};
ghost use Rattle.std.specs.List.{list_all};
ghost use Rattle.otp_model.specs.Limits.{clock_end};
ghost use Rattle.gtfs_records.specs.Fields.{choice_of, clock_or_none_of, code_of, coordinate_of, count_of, count_or_none_of, degrees_of, digit_count_of, digits_from, fraction_of, headway_of, is_no_stop, limited_to, millionths_of, six_of, trim_start, trim_end, trim_spaces};

use otp_model::parse_clock;

/// The bytes without spaces at their start.
#[tactic(auto, unfolding(crate::specs::Fields::trim_start))]
fn start_trimmed(bytes: &[u8]) -> &[u8]
    ensures { result.now ≡ trim_start bytes.now }
{
    let mut left = bytes;
    while let [b' ', rest @ ..] = left {
        left = rest;
    }
    left
}

/// The bytes without spaces at their end.
#[tactic(auto, unfolding(crate::specs::Fields::trim_start))]
fn end_trimmed(bytes: &[u8]) -> &[u8]
    ensures { result.now ≡ trim_end bytes.now }
{
    let mut left = bytes;
    while let [rest @ .., b' '] = left {
        left = rest;
    }
    left
}

/// The bytes without spaces at either end.
pub fn trimmed(bytes: &[u8]) -> &[u8]
    ensures { result.now ≡ trim_spaces bytes.now }
{
    end_trimmed(start_trimmed(bytes))
}

/// The number that the digits spell behind `front`.
#[tactic(auto, using(crate::proofs::DigitFacts::room, crate::proofs::DigitFacts::fits), unfolding(crate::specs::Fields::digits_from))]
fn digits(front: u32, bytes: &[u8]) -> Option<u32>
    requires { (front + 1) * 10 ^ length bytes.now ≤ 10 ^ 9 }
    ensures value { result ≡ digits_from front bytes.now }
    ensures small { IfSome result (λ n. n < (front + 1) * 10 ^ length bytes.now) }
{
    match bytes {
        [] => Some(front),
        [digit, rest @ ..] => {
            if digit.is_ascii_digit() {
                digits(10 * front + (*digit - b'0') as u32, rest)
            } else {
                None
            }
        }
    }
}

/// A number of 1 to 9 digits.
#[tactic(auto, unfolding(crate::specs::Fields::count_of))]
pub fn count(bytes: &[u8]) -> Option<u32>
    ensures value { result ≡ count_of bytes.now }
    ensures small { IfSome result (λ n. n < 10 ^ 9) }
{
    if bytes.is_empty() || bytes.len() > 9 {
        None
    } else {
        digits(0, bytes)
    }
}

/// A number of 1 to 9 digits; empty is 0.
pub fn count_or_none(bytes: &[u8]) -> Option<u32>
    ensures value { result ≡ count_or_none_of bytes.now }
    ensures small { IfSome result (λ n. n < 10 ^ 9) }
{
    if bytes.is_empty() {
        Some(0)
    } else {
        count(bytes)
    }
}

/// A number of seconds of 1 to 6 digits, at least 1.
#[tactic(auto, unfolding(crate::specs::Fields::headway_of))]
pub fn headway(bytes: &[u8]) -> Option<u32>
    ensures value { result ≡ headway_of bytes.now }
    ensures range { IfSome result (λ n. (1 ≤ n) × (n < 10 ^ 6)) }
{
    if bytes.is_empty() || bytes.len() > 6 {
        return None;
    }
    let seconds = digits(0, bytes)?;
    if seconds == 0 {
        return None;
    }
    Some(seconds)
}

/// One digit from `lowest` to `highest`.
#[tactic(auto, unfolding(crate::specs::Fields::code_of))]
pub fn code(lowest: u8, highest: u8, bytes: &[u8]) -> Option<u32>
    requires { highest ≤ 9 }
    ensures value { result ≡ code_of lowest highest bytes.now }
    ensures small { IfSome result (λ n. (lowest ≤ n) × (n ≤ highest)) }
{
    match bytes {
        [digit] => {
            if digit.is_ascii_digit() && *digit - b'0' >= lowest && *digit - b'0' <= highest {
                Some((*digit - b'0') as u32)
            } else {
                None
            }
        }
        _ => None,
    }
}

/// One digit up to `highest`; empty is 0.
#[tactic(auto, unfolding(crate::specs::Fields::choice_of))]
pub fn choice(highest: u8, bytes: &[u8]) -> Option<u32>
    requires { highest ≤ 9 }
    ensures value { result ≡ choice_of highest bytes.now }
    ensures small { IfSome result (λ n. n ≤ highest) }
{
    match bytes {
        [] => Some(0),
        [digit] => {
            if *digit >= b'0' && *digit <= b'0' + highest {
                Some((*digit - b'0') as u32)
            } else {
                None
            }
        }
        [_, _, ..] => None,
    }
}

/// A time of day, or none where it is empty.
pub fn clock_or_none(bytes: &[u8]) -> Option<Option<u32>>
    ensures value { result ≡ clock_or_none_of bytes.now }
    ensures small { IfSome result (λ time. IfSome time (λ seconds. seconds < clock_end)) }
{
    if bytes.is_empty() {
        return Some(None);
    }
    Some(Some(parse_clock(bytes)?))
}

/// The first six digits, with zeros where there are fewer.
fn six(digits: &[u8]) -> [u8; 6]
    ensures { result ≡ six_of digits.now }
{
    let mut six = [b'0'; 6];
    let count = digits.len().min(6);
    six[..count].copy_from_slice(&digits[..count]);
    six
}

fn are_digits(bytes: &[u8]) -> bool
    ensures { result ≡ list_all is_ascii_digit bytes.now }
{
    bytes.iter().all(|byte| byte.is_ascii_digit())
}

/// A point and digits, or nothing, in millionths.
#[tactic(auto, unfolding(crate::specs::Fields::fraction_of))]
fn fraction(bytes: &[u8]) -> Option<u32>
    ensures value { result ≡ fraction_of bytes.now }
    ensures small { IfSome result (λ n. n < 1000000) }
{
    match bytes {
        [] => Some(0),
        [point, rest @ ..] => {
            if *point == b'.' && rest.len() <= 20 && are_digits(rest) {
                let six = six(rest);
                digits(0, &six)
            } else {
                None
            }
        }
    }
}

/// How many digits stand at the front.
#[tactic(auto, unfolding(crate::specs::Fields::digit_count_of))]
fn digit_count(bytes: &[u8]) -> usize
    ensures count { result ≡ digit_count_of bytes.now }
    ensures within { result ≤ length bytes.now }
{
    let mut count = 0;
    let mut left = bytes;
    while let [digit, rest @ ..] = left {
        if !digit.is_ascii_digit() {
            return count;
        }
        count += 1;
        left = rest;
    }
    count
}

/// 1 to 3 digits and a fraction, in millionths.
#[tactic(auto, unfolding(crate::specs::Fields::millionths_of))]
fn millionths(bytes: &[u8]) -> Option<u32>
    ensures value { result ≡ millionths_of bytes.now }
{
    let whole = digit_count(bytes);
    if whole == 0 || whole > 3 {
        return None;
    }
    let (front, rest) = bytes.split_at(whole);
    let degrees = digits(0, front)?;
    let fraction = fraction(rest)?;
    Some(1_000_000 * degrees + fraction)
}

/// A number of millionths up to `limit`, on the other side where it is negative.
fn limited(limit: u32, negative: bool, size: u32) -> Option<i64>
    ensures value { result ≡ limited_to limit negative size }
    ensures small { IfSome result (λ z. (neg_ℤ (pos limit) ≤ℤ z) × (z ≤ℤ pos limit)) }
{
    if size > limit {
        return None;
    }
    if negative {
        Some(0 - i64::from(size))
    } else {
        Some(i64::from(size))
    }
}

/// A signed number of degrees up to `limit` millionths either way.
#[tactic(auto, unfolding(crate::specs::Fields::degrees_of))]
pub fn degrees(limit: u32, bytes: &[u8]) -> Option<i64>
    ensures value { result ≡ degrees_of limit bytes.now }
    ensures small { IfSome result (λ z. (neg_ℤ (pos limit) ≤ℤ z) × (z ≤ℤ pos limit)) }
{
    match bytes {
        [] => None,
        [b'-', rest @ ..] => limited(limit, true, millionths(rest)?),
        [b'+', rest @ ..] => limited(limit, false, millionths(rest)?),
        _ => limited(limit, false, millionths(bytes)?),
    }
}

/// Whether a location type is 1 to 4.
fn is_no_stop(location: &[u8]) -> bool
    ensures { result ≡ is_no_stop (choice_of 4 location.now) }
{
    match choice(4, location) {
        Some(kind) => kind > 0,
        None => false,
    }
}

/// A coordinate up to `limit` millionths either way, which only a row of location type 1 to 4 may leave empty.
pub fn coordinate(limit: u32, location: &[u8], bytes: &[u8]) -> Option<i64>
    ensures value { result ≡ coordinate_of limit location.now bytes.now }
    ensures small { IfSome result (λ z. (neg_ℤ (pos limit) ≤ℤ z) × (z ≤ℤ pos limit)) }
{
    if !bytes.is_empty() {
        return degrees(limit, bytes);
    }
    if is_no_stop(location) { Some(0) } else { None }
}
