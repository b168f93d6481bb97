// The reader of ranges.

ghost use Rattle.std.specs.Prelude.{◌≡◌, ◌++◌, IfOk, OnOk, None, map};
ghost use Rattle.rnv_npm.specs.Ranges.{hyphen_of, listed, npm_range, read_set, set_of, sets_of, words_of};
ghost use Rattle.rnv_npm.specs.Comparators.{every};
ghost use Rattle.rnv_npm.specs.Reading.{Reads};
ghost use Rattle.rnv_npm.specs.Numbering.{signed_word};
ghost use Rattle.rnv_version.specs.Plain.{is_letter_v, past_one};

use crate::comparator::Comparator;
use crate::meaning::{Meaning, comparators_of, every};
use crate::partial::past_letter;
use crate::pieces::pieces;
use crate::sign::{Sign, signed};
use rnv_base::{List, Text};
use rnv_version::RangeError;
use std::alloc::{AllocError, Global};
use std::convert::AsSlice;

// What stands between spaces. Only memory can fail.
fn words_of(alloc: Global, text: &str) -> Result<Vec<&str>, AllocError>
    ensures { IfOk result (λ found. map (λ r. r.now) found.items ≡ words_of text.now) }
{
    text.split(' ')
        .filter(|word| !word.is_empty())
        .collect(alloc)
}

// Puts comparators at the end of others. Only memory can fail.
fn append(comparators: &mut List<Comparator>, meaning: Meaning) -> Result<(), AllocError>
    ensures { OnOk result (comparators.new ≡ comparators.old ++ meaning) }
{
    comparators.push(meaning.first)?;
    if let Some(second) = meaning.second {
        comparators.push(second)?;
    }
    Ok(())
}

// The comparators of words, where an operator may stand by itself before its version.
fn listed(alloc: Global, words: &[&str]) -> Result<List<Comparator>, RangeError>
    ensures { Reads (listed None (map (λ r. r.now) words.now)) result }
{
    let mut comparators = List::empty(alloc);
    let mut waiting = None;
    for word in words {
        if let Some(sign) = waiting {
            append(&mut comparators, comparators_of(alloc, sign, word)?)?;
            waiting = None;
            continue;
        }
        let (sign, text) = signed(word);
        if text.is_empty() {
            waiting = Some(sign);
            continue;
        }
        append(&mut comparators, comparators_of(alloc, sign, text)?)?;
    }
    match waiting {
        None => Ok(comparators),
        Some(_) => Err(RangeError::NotARange),
    }
}

// From the first version to the second one, both of them in it.
fn hyphen_of(alloc: Global, low: &str, high: &str) -> Result<List<Comparator>, RangeError>
    ensures { Reads (hyphen_of low.now high.now) result }
{
    let mut comparators = List::empty(alloc);
    append(
        &mut comparators,
        comparators_of(alloc, Sign::GreaterEqual, low)?,
    )?;
    append(
        &mut comparators,
        comparators_of(alloc, Sign::LessEqual, high)?,
    )?;
    Ok(comparators)
}

// The set of every version but pre-releases.
fn every_set(alloc: Global) -> Result<List<Comparator>, AllocError>
    ensures { IfOk result (λ set. set ≡ every) }
{
    let mut comparators = List::empty(alloc);
    append(&mut comparators, every())?;
    Ok(comparators)
}

// The set that words are: no words are `*`, and two versions with a `-` between them a hyphen range.
fn set_of(alloc: Global, words: &[&str]) -> Result<List<Comparator>, RangeError>
    ensures { Reads (set_of (map (λ r. r.now) words.now)) result }
{
    match words {
        [] => Ok(every_set(alloc)?),
        [low, dash, high] => {
            if *dash == "-" {
                hyphen_of(alloc, low, high)
            } else {
                listed(alloc, words)
            }
        }
        _ => listed(alloc, words),
    }
}

// The set that a text is.
fn read_set(alloc: Global, text: &str) -> Result<List<Comparator>, RangeError>
    ensures { Reads (read_set text.now) result }
{
    let words = words_of(alloc, text)?;
    set_of(alloc, words.as_slice())
}

// The sets of a text cut at bars, of which two stand between sets: so every second piece is empty.
fn sets_of(alloc: Global, pieces: &[&str]) -> Result<List<List<Comparator>>, RangeError>
    ensures { Reads (sets_of (map (λ r. r.now) pieces.now)) result }
{
    let mut sets = List::empty(alloc);
    let mut at = 0;
    while at < pieces.len() {
        sets.push(read_set(alloc, pieces[at])?)?;
        if at + 1 == pieces.len() {
            return Ok(sets);
        }
        if !pieces[at + 1].is_empty() {
            return Err(RangeError::NotARange);
        }
        at += 2;
    }
    Err(RangeError::NotARange)
}

// The sets of the range that a text is.
#[tactic(auto, unfolding(crate::specs::Ranges::npm_range))]
pub(crate) fn read_sets(alloc: Global, text: &str) -> Result<List<List<Comparator>>, RangeError>
    ensures { Reads (npm_range text.now) result }
{
    let pieces = pieces(alloc, text, '|')?;
    sets_of(alloc, pieces.as_slice())
}

// A version behind its operator, which may be a word by itself.
fn signed_word<'a>(words: &[&'a str]) -> &'a str
    ensures { result.now ≡ signed_word (map (λ r. r.now) words.now) }
{
    match words {
        [word] => signed(word).1,
        [_, word] => word,
        _ => "",
    }
}

// The version of an exact value, without spaces, operator and `v`. Only memory can fail.
pub(crate) fn exact_word(alloc: Global, value: &str) -> Result<Text, AllocError>
    ensures { IfOk result (λ t. t ≡ past_one is_letter_v (signed_word (words_of value.now))) }
{
    let words = words_of(alloc, value)?;
    Text::copied(alloc, past_letter(signed_word(words.as_slice())))
}
