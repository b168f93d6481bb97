ghost use Rattle.std.specs.Prelude.{◌≡◌, ◌↔◌, ◌==◌, ℕ, Bool, List as Items, [], IsTrue, IsOk, IfOk, OnOk, IsErrOf, All, map, length};
ghost use Rattle.std.specs.List.{list_all};
ghost use Rattle.rnv_pattern.specs.Meaning.{is_pattern, matches_list};
ghost use Rattle.rnv_pattern.specs.Patterns.{AreAllExpressions, ArePatterns, FirstIs, HasPositive, IsBadGlob, IsGlobPattern, MatchesList, RefusedIn, SomeHolds, TookFront, TookMore, rule_text};
ghost use Rattle.rnv_pattern.specs.Turns.{Agrees, Asks, TellsTest};
ghost use Rattle.rnv_pattern.specs.declared.error.PatternError.TheVariants.{BadGlob, BadExpression, Memory};

use crate::matcher::ListMatcher;
use crate::pattern::Pattern;
use crate::{Builder, PatternError};
use rnv_base::{List, Share};
use std::alloc::{AllocError, Global};
use std::convert::{AsSlice, AsStr};
use std::marker::Model;

/// Patterns, of which a negated one takes texts out again. Contracts see the list of patterns.
#[derive(Drop)]
pub struct PatternList {
    patterns: List<Pattern>,
}

impl Model for PatternList {
    ghost use Rattle.std.specs.Prelude.{List as Items};
    ghost use Rattle.rnv_pattern.specs.declared.pattern.Pattern.{Pattern as PatternValue};
    ghost use Rattle.std.specs.Coded.{coded_list};
    ghost use Rattle.rnv_pattern.specs.contracts.pattern.Pattern.{the_row as pattern_row};

    ghost Value = { Items PatternValue };

    ghost coded = { coded_list pattern_row.coded };

    ghost view = { λ list. list.patterns };
}

// The pattern of each text.
fn read_each<E: Builder, T: AsStr>(
    alloc: Global,
    engines: &mut E,
    texts: &[T],
) -> Result<List<Pattern>, PatternError>
    ensures read { IfOk result (λ list. ArePatterns (map T.text texts.now) list) }
    ensures took { OnOk result (TookMore (AreAllExpressions (map T.text texts.now)) (E.took engines.old) (E.took engines.new)) }
    ensures bad_glob { IsErrOf result BadGlob → FirstIs (λ text. IsBadGlob (rule_text text)) (map T.text texts.now) (E.took engines.old) (E.took engines.new) }
    ensures bad_expression { IsErrOf result BadExpression → FirstIs (λ text. RefusedIn (rule_text text) (E.refused engines.old) (E.refused engines.new)) (map T.text texts.now) (E.took engines.old) (E.took engines.new) }
    ensures memory { IsErrOf result Memory → TookFront (map T.text texts.now) (E.took engines.old) (E.took engines.new) }
    ensures unrefused { ¬ IsErrOf result BadExpression → E.refused engines.new ≡ E.refused engines.old }
    ensures others { E.others engines.new ≡ E.others engines.old }
{
    let mut patterns = List::empty(alloc);
    for text in texts {
        match Pattern::read(alloc, engines, text.as_str()) {
            Ok(pattern) => patterns.push(pattern)?,
            Err(error) => return Err(error),
        }
    }
    Ok(patterns)
}

// Whether some pattern that is negated, or that is not, matches.
fn some_holds(
    alloc: Global,
    patterns: &[Pattern],
    negated: bool,
    text: &str,
) -> Result<bool, AllocError>
    ensures holds { IfOk result (λ yes. IsTrue yes ↔ SomeHolds negated patterns.now text.now) }
    ensures globs { All IsGlobPattern patterns.now → IsOk result }
{
    for pattern in patterns {
        if pattern.negated == negated && pattern.matches(alloc, text)? {
            return Ok(true);
        }
    }
    Ok(false)
}

// Whether one is not negated.
pub(crate) fn has_positive(patterns: &[Pattern]) -> bool
    ensures { IsTrue result ↔ HasPositive patterns.now }
{
    for pattern in patterns {
        if !pattern.negated {
            return true;
        }
    }
    false
}

// Whether the patterns match as a list.
fn list_matches(alloc: Global, patterns: &[Pattern], text: &str) -> Result<bool, AllocError>
    ensures matches { IfOk result (λ yes. IsTrue yes ↔ MatchesList patterns.now text.now) }
    ensures globs { All IsGlobPattern patterns.now → IsOk result }
{
    if some_holds(alloc, patterns, true, text)? {
        return Ok(false);
    }
    if has_positive(patterns) {
        some_holds(alloc, patterns, false, text)
    } else {
        Ok(true)
    }
}

impl PatternList {
    /// A list without patterns. Takes no memory.
    pub fn empty(alloc: Global) -> PatternList
        ensures { result ≡ [] }
    {
        PatternList {
            patterns: List::empty(alloc),
        }
    }

    /// Reads each text as a pattern. It is refused for the first text that is none: `BadGlob` and
    /// `BadExpression` as for one pattern, and the engines took the expressions of the texts before it, no
    /// more; at `Memory` they took those of the first texts.
    pub fn read<E: Builder, T: AsStr>(
        alloc: Global,
        engines: &mut E,
        texts: &[T],
    ) -> Result<PatternList, PatternError>
        ensures read { IfOk result (λ list. ArePatterns (map T.text texts.now) list) }
        ensures asks { Asks (E.refused engines.old) (E.took engines.old) (E.others engines.old) (E.refused engines.new) (E.took engines.new) (E.others engines.new) }
        ensures tells { (wrong : Items ℕ → Bool) → Agrees wrong (E.refused engines.old) (E.took engines.old) (E.refused engines.new) (E.took engines.new) → TellsTest result (list_all (is_pattern wrong) (map T.text texts.now)) }
        ensures took { OnOk result (TookMore (AreAllExpressions (map T.text texts.now)) (E.took engines.old) (E.took engines.new)) }
        ensures bad_glob { IsErrOf result BadGlob → FirstIs (λ text. IsBadGlob (rule_text text)) (map T.text texts.now) (E.took engines.old) (E.took engines.new) }
        ensures bad_expression { IsErrOf result BadExpression → FirstIs (λ text. RefusedIn (rule_text text) (E.refused engines.old) (E.refused engines.new)) (map T.text texts.now) (E.took engines.old) (E.took engines.new) }
        ensures memory { IsErrOf result Memory → TookFront (map T.text texts.now) (E.took engines.old) (E.took engines.new) }
        ensures unrefused { ¬ IsErrOf result BadExpression → E.refused engines.new ≡ E.refused engines.old }
        ensures others { E.others engines.new ≡ E.others engines.old }
    {
        match read_each(alloc, engines, texts) {
            Ok(patterns) => Ok(PatternList { patterns }),
            Err(error) => Err(error),
        }
    }

    /// Whether there is no pattern.
    pub fn is_empty(&self) -> bool
        ensures { result ≡ (length self.now == 0) }
    {
        self.patterns.len() == 0
    }

    /// What tries the list on many texts. Only memory can fail.
    pub fn matcher(&self, alloc: Global) -> Result<ListMatcher<'_>, AllocError>
        ensures { IfOk result (λ matcher. matcher ≡ self.now) }
    {
        ListMatcher::of(alloc, self.patterns.as_slice())
    }

    /// Whether some pattern that is not negated matches the text, or there is none, and no negated one
    /// matches. Takes no memory where all are globs.
    pub fn matches(&self, alloc: Global, text: &str) -> Result<bool, AllocError>
        ensures matches { IfOk result (λ yes. IsTrue yes ↔ MatchesList self.now text.now) }
        ensures test { IfOk result (λ yes. yes ≡ matches_list self.now text.now) }
        ensures globs { All IsGlobPattern self.now → IsOk result }
    {
        list_matches(alloc, self.patterns.as_slice(), text)
    }
}

impl Share for PatternList {
    fn share(&self, alloc: Global) -> Result<PatternList, AllocError> {
        Ok(PatternList {
            patterns: self.patterns.share(alloc)?,
        })
    }
}
