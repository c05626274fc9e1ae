//! The tree of a plain text: one of strings without escapes, of arrays and of objects behind names alone.
ghost use Rattle.std.specs.Prelude.{◌≡◌, ◌+◌, ◌<◌, ◌≤◌, ◌∷◌, [], map, length, drop, IfOk, IfSome};
ghost use Rattle.json.specs.Token.{Token};
ghost use Rattle.json.specs.Lex.{lex, between, token, comma, colon};
ghost use Rattle.spot_claims.specs.Tree.{IsTreeOf};
ghost use Rattle.spot_tree.specs.Views.{pair};
ghost use Rattle.spot_tree.specs.Walk.{ReadsElement, ReadsItem, ReadsContent, ReadsAttributes};

use crate::attributes::put_text;
use crate::lexemes::{Lexeme, behind_open, behind_spaces, next_lexeme};
use crate::node::Attribute;
use crate::slots::Slots;
use spot_terms::MOST_BYTES;
use std::alloc::{AllocError, Global};

// How deep the arrays and objects in the root may nest.
const DEPTH: u32 = 126;

/// The tree of a plain text; none where the text isn't plain, whether it has a tree or not.
pub(crate) fn read_plain(alloc: Global, bytes: &[u8]) -> Result<Option<Slots>, AllocError>
    ensures { IfOk result (λ parts. IfSome parts (λ parts. IsTreeOf bytes.now parts)) }
{
    let Ok(text) = std::str::from_utf8(bytes) else {
        return Ok(None);
    };
    let Some((Lexeme::OpenArray, inside)) = next_lexeme(text) else {
        return Ok(None);
    };
    let mut parts = Slots::new(alloc);
    let mut pending = Vec::new(alloc);
    let Some(behind) = read_element(alloc, inside, DEPTH, &mut parts, &mut pending)? else {
        return Ok(None);
    };
    if !behind_spaces(behind).is_empty() {
        return Ok(None);
    }
    Ok(Some(parts))
}

// Reads the element behind a bracket, with those in it, and answers what is behind it. The elements that are pending, which
// wait for the element that they are in to be closed, are the same again.
#[cycle(read_element)]
fn read_element<'a>(
    alloc: Global,
    text: &'a str,
    depth: u32,
    parts: &mut Slots,
    pending: &mut Vec<u32>,
) -> Result<Option<&'a str>, AllocError>
    ensures reads { IfOk result (λ o. IfSome o (λ behind. ReadsElement depth (lex between text.now) (lex between behind.now) parts.old parts.new)) }
    ensures pending { IfOk result (λ o. IfSome o (λ behind. pending.new.items ≡ pending.old.items)) }
    ensures shorter { IfOk result (λ o. IfSome o (λ behind. length behind.now < length text.now)) }
{
    let Some((Lexeme::Text(name), rest)) = next_lexeme(text) else {
        return Ok(None);
    };
    if name.is_empty() {
        return Ok(None);
    }
    let at = parts.len();
    let first = pending.len();
    let mut attributes = Vec::new(alloc);
    let Some(rest) = read_attributes(alloc, rest, depth, &mut attributes)? else {
        return Ok(None);
    };
    if !parts.open(name, attributes)? {
        return Ok(None);
    }
    let Some((said, behind)) = read_content(alloc, rest, depth, parts, pending)? else {
        return Ok(None);
    };
    if !parts.close(at, said, last_from(pending, first))? {
        return Ok(None);
    }
    pending.truncate(first);
    Ok(Some(behind))
}

// The last of these numbers, from the place `first` on.
fn last_from(numbers: &Vec<u32>, first: usize) -> &[u32]
    requires { first ≤ length numbers.now.items }
    ensures { result.now ≡ drop first numbers.now.items }
{
    &numbers[first..]
}

// Reads the items of an element up to its bracket, and answers their text and what is behind the bracket.
#[cycle(read_element)]
fn read_content<'a>(
    alloc: Global,
    text: &'a str,
    depth: u32,
    parts: &mut Slots,
    pending: &mut Vec<u32>,
) -> Result<Option<(&'a str, &'a str)>, AllocError>
    ensures reads { IfOk result (λ o. IfSome o (λ p. ReadsContent depth (lex between text.now) (lex between p.1.now) parts.old parts.new pending.old.items pending.new.items p.0.now)) }
    ensures shorter { IfOk result (λ o. IfSome o (λ p. length p.1.now < length text.now)) }
{
    let mut rest = text;
    let mut said = "";
    while let Some((Lexeme::Comma, next)) = next_lexeme(rest) {
        let Some((more, behind)) = read_item(alloc, next, depth, said, parts, pending)? else {
            return Ok(None);
        };
        said = more;
        rest = behind;
    }
    match next_lexeme(rest) {
        Some((Lexeme::CloseArray, behind)) => Ok(Some((said, behind))),
        _ => Ok(None),
    }
}

// Reads an item, and answers the text with it, and what is behind it.
#[cycle(read_element)]
fn read_item<'a>(
    alloc: Global,
    text: &'a str,
    depth: u32,
    said: &'a str,
    parts: &mut Slots,
    pending: &mut Vec<u32>,
) -> Result<Option<(&'a str, &'a str)>, AllocError>
    ensures reads { IfOk result (λ o. IfSome o (λ p. ReadsItem depth (lex between text.now) (lex between p.1.now) parts.old parts.new pending.old.items pending.new.items said.now p.0.now)) }
    ensures shorter { IfOk result (λ o. IfSome o (λ p. length p.1.now < length text.now)) }
{
    match next_lexeme(text) {
        Some((Lexeme::Text(string), behind)) => {
            if said.is_empty() {
                Ok(Some((string, behind)))
            } else {
                Ok(None)
            }
        }
        Some((Lexeme::OpenArray, inside)) => {
            if depth == 0 || parts.len() >= MOST_BYTES {
                return Ok(None);
            }
            pending.push(parts.len() as u32)?;
            let Some(behind) = read_element(alloc, inside, depth - 1, parts, pending)? else {
                return Ok(None);
            };
            Ok(Some((said, behind)))
        }
        _ => Ok(None),
    }
}

// Reads the attributes of an element, if there are any, and answers what is behind them.
fn read_attributes<'a>(
    alloc: Global,
    text: &'a str,
    depth: u32,
    attributes: &mut Vec<Attribute>,
) -> Result<Option<&'a str>, AllocError>
    requires { attributes.old.items ≡ [] }
    ensures reads { IfOk result (λ o. IfSome o (λ behind. ReadsAttributes depth (lex between text.now) (lex between behind.now) (map pair attributes.new.items))) }
    ensures shorter { IfOk result (λ o. IfSome o (λ behind. length behind.now ≤ length text.now)) }
{
    let Some(inside) = behind_brace(text) else {
        return Ok(Some(text));
    };
    if depth == 0 {
        return Ok(None);
    }
    read_members(alloc, inside, depth - 1, attributes)
}

// The text behind a comma and a brace.
fn behind_brace(text: &str) -> Option<&str>
    ensures is { IfSome result (λ inside. lex between text.now ≡ comma ∷ token Token.begin_object ∷ lex between inside.now) }
    ensures shorter { IfSome result (λ inside. length inside.now < length text.now) }
{
    let Some((Lexeme::Comma, next)) = next_lexeme(text) else {
        return None;
    };
    behind_open(next)
}

// A key and its string, and what is behind them.
fn member(text: &str) -> Option<(&str, &str, &str)>
    ensures is { IfSome result (λ m. lex between text.now ≡ token (Token.string m.0.now) ∷ colon ∷ token (Token.string m.1.now) ∷ lex between m.2.now) }
    ensures shorter { IfSome result (λ m. length m.2.now < length text.now) }
{
    let Some((Lexeme::Text(key), rest)) = next_lexeme(text) else {
        return None;
    };
    let Some((Lexeme::Colon, rest)) = next_lexeme(rest) else {
        return None;
    };
    match next_lexeme(rest) {
        Some((Lexeme::Text(value), behind)) => Some((key, value, behind)),
        _ => None,
    }
}

// Reads the attributes behind a brace, which are some, and answers what is behind them.
fn read_members<'a>(
    alloc: Global,
    text: &'a str,
    depth: u32,
    attributes: &mut Vec<Attribute>,
) -> Result<Option<&'a str>, AllocError>
    requires { attributes.old.items ≡ [] }
    ensures reads { IfOk result (λ o. IfSome o (λ behind. ReadsAttributes (depth + 1) (comma ∷ token Token.begin_object ∷ lex between text.now) (lex between behind.now) (map pair attributes.new.items))) }
    ensures shorter { IfOk result (λ o. IfSome o (λ behind. length behind.now < length text.now)) }
{
    let Some((key, value, behind)) = member(text) else {
        return Ok(None);
    };
    if !put_text(alloc, attributes, key, value)? {
        return Ok(None);
    }
    let mut rest = behind;
    while let Some((Lexeme::Comma, next)) = next_lexeme(rest) {
        let Some((key, value, behind)) = member(next) else {
            return Ok(None);
        };
        if !put_text(alloc, attributes, key, value)? {
            return Ok(None);
        }
        rest = behind;
    }
    match next_lexeme(rest) {
        Some((Lexeme::CloseObject, behind)) => Ok(Some(behind)),
        _ => Ok(None),
    }
}
