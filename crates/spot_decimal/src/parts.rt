//! The parts of a decimal text.

ghost use Rattle.std.specs.Prelude.{◌≡◌, ℕ, ◌+◌, ◌<◌, ◌≤◌, ◌++◌, None, Some, length, min, option_map, IfSome, IsTrue, MatchOption};
ghost use Rattle.std.specs.List.{position};
ghost use Rattle.std.specs.Option.{option_copied, ForSome};
ghost use Rattle.std.specs.Str.Parse.{digits_value};
ghost use Rattle.spot_terms.specs.Decimal.{head_part, tail_part, signed_part, are_digits, is_point, is_exponent, digits_part, exponent_part, fraction_of};
ghost use Rattle.spot_decimal.specs.Written.{head_to, tail_from, power_part, IsWritten, IsPowerWritten};

use crate::value::value_after;

// Exponents from here on are taken for one another: of at most 64 digits they leave nothing, or too much.
const MOST_EXPONENT: u64 = 1000;

/// What stands behind a sign.
#[derive(Clone, Copy)]
pub struct Signed<'a> {
    pub minus: bool,
    pub rest: &'a [u8],
}

// What stands before a mark, and what stands behind it if there is one.
#[derive(Clone, Copy)]
struct Cut<'a> {
    head: &'a [u8],
    tail: Option<&'a [u8]>,
}

/// The digits before and behind the point.
#[derive(Clone, Copy)]
pub struct Digits<'a> {
    pub whole: &'a [u8],
    pub part: &'a [u8],
}

/// An exponent, its size at most `MOST_EXPONENT`.
#[derive(Clone, Copy, Debug, PartialEq, Eq)]
pub struct Exponent {
    pub minus: bool,
    pub size: u64,
}

/// The parts of a decimal.
#[derive(Clone, Copy)]
pub struct Decimal<'a> {
    pub minus: bool,
    pub digits: Digits<'a>,
    pub exponent: Exponent,
}

/// Takes off a sign.
pub fn take_sign(text: &[u8]) -> Signed<'_>
    ensures minus { result.minus ≡ (signed_part text.now).0 }
    ensures rest { result.rest.now ≡ (signed_part text.now).1 }
{
    match text {
        [b'-', rest @ ..] => Signed { minus: true, rest },
        [b'+', rest @ ..] => Signed { minus: false, rest },
        _ => Signed {
            minus: false,
            rest: text,
        },
    }
}

// Cuts a text at the place of a mark, and takes the mark away.
fn cut_at(text: &[u8], place: Option<usize>) -> Cut<'_>
    requires { ForSome place (λ i. i < length text.now) }
    ensures head { result.head.now ≡ head_to place text.now }
    ensures tail { option_copied result.tail ≡ tail_from place text.now }
{
    match place {
        Some(i) => Cut {
            head: &text[..i],
            tail: Some(&text[i + 1..]),
        },
        None => Cut {
            head: text,
            tail: None,
        },
    }
}

// Where the first point is.
fn point_place(text: &[u8]) -> Option<usize>
    ensures value { result ≡ position is_point text.now }
    ensures within { ForSome result (λ i. i < length text.now) }
{
    text.iter().position(|b| *b == b'.')
}

// Where the first `e` or `E` is.
fn exponent_place(text: &[u8]) -> Option<usize>
    ensures value { result ≡ position is_exponent text.now }
    ensures within { ForSome result (λ i. i < length text.now) }
{
    text.iter().position(|b| *b == b'e' || *b == b'E')
}

// Cuts a text at its first point.
fn cut_at_point(text: &[u8]) -> Cut<'_>
    ensures head { result.head.now ≡ head_part is_point text.now }
    ensures tail { option_copied result.tail ≡ tail_part is_point text.now }
{
    cut_at(text, point_place(text))
}

// Cuts a text at its first `e` or `E`.
fn cut_at_exponent(text: &[u8]) -> Cut<'_>
    ensures head { result.head.now ≡ head_part is_exponent text.now }
    ensures tail { option_copied result.tail ≡ tail_part is_exponent text.now }
{
    cut_at(text, exponent_place(text))
}

// Whether each byte is a digit.
fn all_digits(text: &[u8]) -> bool
    ensures { result ≡ are_digits text.now }
{
    text.iter().all(|b| b.is_ascii_digit())
}

// The digits of a number without sign and exponent: at least one, and at most one point.
fn read_digits(text: &[u8]) -> Option<Digits<'_>>
    ensures value { digits_part text.now ≡ option_map (λ d. (length d.part.now, digits_value 10 (d.whole.now ++ d.part.now))) result }
    ensures digits { IfSome result (λ d. IsTrue (are_digits d.whole.now) × IsTrue (are_digits d.part.now)) }
    ensures short { IfSome result (λ d. length d.whole.now + length d.part.now ≤ length text.now) }
{
    let cut = cut_at_point(text);
    let part = cut.tail.unwrap_or(&[]);
    if all_digits(cut.head) && all_digits(part) && cut.head.len() + part.len() > 0 {
        Some(Digits {
            whole: cut.head,
            part,
        })
    } else {
        None
    }
}

// The number that the digits write, or `MOST_EXPONENT` where that is less.
fn capped_value(digits: &[u8]) -> u64
    requires { IsTrue (are_digits digits.now) }
    ensures { result ≡ min (digits_value 10 digits.now) 1000 }
{
    value_after(0, digits)
        .unwrap_or(MOST_EXPONENT)
        .min(MOST_EXPONENT)
}

// The exponent behind its `e`: an optional sign and at least one digit.
fn read_exponent(text: &[u8]) -> Option<Exponent>
    ensures { MatchOption result (exponent_part text.now ≡ None) (λ x. IsPowerWritten (Some text.now) x.minus x.size) }
{
    let signed = take_sign(text);
    if !all_digits(signed.rest) || signed.rest.is_empty() {
        return None;
    }
    Some(Exponent {
        minus: signed.minus,
        size: capped_value(signed.rest),
    })
}

// The exponent of a number: 0 where there is none.
fn read_power(tail: Option<&[u8]>) -> Option<Exponent>
    ensures { MatchOption result (power_part (option_copied tail.entry) ≡ None) (λ x. IsPowerWritten (option_copied tail.entry) x.minus x.size) }
{
    match tail {
        Some(tail) => read_exponent(tail),
        None => Some(Exponent {
            minus: false,
            size: 0,
        }),
    }
}

/// The parts of a decimal text, if it is one.
pub fn parse(text: &[u8]) -> Option<Decimal<'_>>
    ensures { MatchOption result (fraction_of text.now ≡ None) (λ d. IsWritten text.now d.minus d.digits.whole.now d.digits.part.now d.exponent.minus d.exponent.size) }
{
    let signed = take_sign(text);
    let cut = cut_at_exponent(signed.rest);
    let digits = read_digits(cut.head)?;
    let exponent = read_power(cut.tail)?;
    Some(Decimal {
        minus: signed.minus,
        digits,
        exponent,
    })
}
