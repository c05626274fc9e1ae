//! Text of an element.

ghost use Rattle.std.specs.Prelude.{◌≡◌, ℕ, [], ◌∷◌, ◌++◌, IfOk, OnOk, IfSome, IfNone, string_bytes, IsTrue, reverse};
ghost use Rattle.spot_claims.specs.Tree.{trimmed, is_blank, without_front};

use std::alloc::{AllocError, Global};

/// Puts another part behind a text. A first part is kept as it is.
pub(crate) fn append(text: &mut String, part: String) -> Result<(), AllocError>
    ensures { OnOk result (string_bytes text.new ≡ string_bytes text.old ++ string_bytes part) }
{
    if text.is_empty() {
        *text = part;
        return Ok(());
    }
    text.push_str(part.as_str())?;
    Ok(())
}

// The text behind the blank that it begins with.
fn behind_blank(text: &str) -> Option<&str>
    ensures some { IfSome result (λ rest. (b : ℕ) × IsTrue (is_blank b) × (text.now ≡ b ∷ rest.now)) }
    ensures none { IfNone result (without_front text.now ≡ text.now) }
{
    if let Some(rest) = text.strip_prefix(' ') {
        return Some(rest);
    }
    if let Some(rest) = text.strip_prefix('\t') {
        return Some(rest);
    }
    if let Some(rest) = text.strip_prefix('\n') {
        return Some(rest);
    }
    text.strip_prefix('\r')
}

// The text before the blank that it ends with.
fn before_blank(text: &str) -> Option<&str>
    ensures some { IfSome result (λ front. (b : ℕ) × IsTrue (is_blank b) × (text.now ≡ front.now ++ b ∷ [])) }
    ensures none { IfNone result (without_front (reverse text.now) ≡ reverse text.now) }
{
    if let Some(front) = text.strip_suffix(' ') {
        return Some(front);
    }
    if let Some(front) = text.strip_suffix('\t') {
        return Some(front);
    }
    if let Some(front) = text.strip_suffix('\n') {
        return Some(front);
    }
    text.strip_suffix('\r')
}

// Whether a byte is a space, a tab, a line feed or a carriage return.
pub(crate) fn is_space(b: u8) -> bool
    ensures { result ≡ is_blank b }
{
    b == b' ' || b == b'\t' || b == b'\n' || b == b'\r'
}

// Whether a text that isn't empty neither begins nor ends with a blank.
fn has_no_blank_end(text: &[u8]) -> bool
    ensures { IsTrue result → trimmed text.now ≡ text.now }
{
    let n = text.len();
    n > 0 && !is_space(text[0]) && !is_space(text[n - 1])
}

// The text without the spaces, tabs, line feeds and carriage returns at both ends.
pub(crate) fn trim(text: &str) -> &str
    ensures { result.now ≡ trimmed text.now }
{
    if has_no_blank_end(text.as_bytes()) {
        return text;
    }
    let mut rest = text;
    while let Some(more) = behind_blank(rest) {
        rest = more;
    }
    let mut front = rest;
    while let Some(less) = before_blank(front) {
        front = less;
    }
    front
}

/// The text without the spaces, tabs, line feeds and carriage returns at both ends. Where there are none it is kept.
pub(crate) fn without_blanks(alloc: Global, text: String) -> Result<String, AllocError>
    ensures { IfOk result (λ kept. string_bytes kept ≡ trimmed (string_bytes text)) }
{
    if trim(text.as_str()).len() == text.len() {
        return Ok(text);
    }
    String::from_str(alloc, trim(text.as_str()))
}
