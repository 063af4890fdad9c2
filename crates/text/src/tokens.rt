//! The tokens of a line, and the join that it writes.
ghost use Rattle.std.specs.Prelude.{◌≡◌, MatchOption, MatchResult};
ghost use Rattle.std.specs.Fmt.{signed_decimal};
ghost use Rattle.keys.specs.Keys.{NoKey};
ghost use Rattle.keys.specs.declared.kinds.KeyRefusal.TheVariants.{Malformed};
ghost use Rattle.faults.specs.declared.refusals.LineFault.TheVariants.{Misformed};
ghost use Rattle.faults.specs.declared.refusals.WordFault.TheVariants.{Key, Weight};
ghost use Rattle.text.specs.Joins.{Joins};
ghost use Rattle.text.specs.Lines.{Short, NoWeight, Words, NoWords};
ghost use Rattle.text.specs.Passing.{spot_of};
ghost use Rattle.text.specs.Tokens.{word_of, place_of, IsKey, IsWeight, Tokens, WrongLine};

use crate::lines::Line;
use crate::takers::Join;
use crate::words::{cut, weight};
use faults::{Fault, LineFault, Place, WordFault};
use keys::Spelled;

/// What a join line begins with.
const JOIN: &[u8] = b"join ";

/// A word of a join line: a part of the text, with its place there.
#[derive(Clone, Copy)]
pub(crate) enum Token<'t> {
    Key { word: &'t [u8], place: Place },
    Weight { word: &'t [u8], place: Place },
}

/// The tokens of a join line.
#[derive(Clone, Copy)]
pub(crate) struct Parts<'t> {
    first: Token<'t>,
    second: Token<'t>,
    weight: Token<'t>,
}

/// The three words of a join line.
fn split<'t>(line: &Line<'t>) -> Option<(&'t [u8], &'t [u8], &'t [u8])>
    ensures { MatchOption result (NoWords line.now.bytes.now) (λ p. Words line.now.bytes.now p.0.now p.1.now p.2.now) }
{
    let rest = line.bytes.strip_prefix(JOIN)?;
    let (first, rest) = cut(rest, b' ')?;
    let (second, weight) = cut(rest, b' ')?;
    if first.is_empty() || second.is_empty() || weight.is_empty() || weight.contains(&b' ') {
        return None;
    }
    Some((first, second, weight))
}

/// The tokens of a line, or that it has not the form of a join.
fn tokens<'t>(line: &Line<'t>) -> Result<Parts<'t>, LineFault>
    ensures { MatchResult result (Tokens line.now) (λ e. NoWords line.now.bytes.now × (e ≡ Misformed (spot_of line.now))) }
{
    let Some((first, second, weight)) = split(line) else {
        return Err(LineFault::Misformed(line.place()));
    };
    let number = line.number;
    let first_offset = line.offset + JOIN.len();
    let second_offset = first_offset + first.len() + 1;
    let weight_offset = second_offset + second.len() + 1;
    Ok(Parts {
        first: Token::Key {
            word: first,
            place: Place::of(number, first_offset, first),
        },
        second: Token::Key {
            word: second,
            place: Place::of(number, second_offset, second),
        },
        weight: Token::Weight {
            word: weight,
            place: Place::of(number, weight_offset, weight),
        },
    })
}

// `key_of` and `weight_of` stay two: the kinds of token are read by different calls and refused as different faults,
// and what they share is the one line that takes the token apart
/// The key that a key word spells.
fn key_of<K: Spelled>(token: Token<'_>) -> Result<K, WordFault>
    requires { IsKey token }
    ensures { MatchResult result (λ k. K.spelled k ≡ word_of token.entry) (λ e. NoKey K.spelled (word_of token.entry) × (e ≡ Key Malformed (place_of token.entry))) }
{
    match token {
        Token::Key { word, place } => {
            K::read(word).map_err(|refusal| WordFault::Key(refusal, place))
        }
        Token::Weight { .. } => unreachable(),
    }
}

/// The weight that a weight word writes.
fn weight_of(token: Token<'_>) -> Result<i32, WordFault>
    requires { IsWeight token }
    ensures { MatchResult result (λ z. Short z × (signed_decimal z ≡ word_of token.entry)) (λ e. NoWeight (word_of token.entry) × (e ≡ Weight (place_of token.entry))) }
{
    match token {
        Token::Weight { word, place } => weight(word).ok_or(WordFault::Weight(place)),
        Token::Key { .. } => unreachable(),
    }
}

/// The join that a line writes, or the first fault of the line: its form, then its words from left to right.
pub(crate) fn read_join<K: Spelled>(line: &Line<'_>) -> Result<Join<K>, Fault>
    ensures { MatchResult result (Joins K.spelled line.now.bytes.now) (WrongLine K.spelled line.now) }
{
    let parts = tokens(line)?;
    let first = key_of(parts.first)?;
    let second = key_of(parts.second)?;
    let weight = weight_of(parts.weight)?;
    Ok(Join {
        first,
        second,
        weight,
    })
}
