ghost use Rattle.std.specs.Prelude.{◌≡◌, ◌&&◌, IfOk, IsOk};
ghost use Rattle.rnv_pattern.specs.Patterns.{IsGlobPattern, IsGlobRule};
ghost use Rattle.rnv_pattern.specs.Meaning.{is_as, matches_list, pattern_holds, some_match};

use crate::glob::Glob;
use crate::pattern::Pattern;
use crate::pattern_list::has_positive;
use crate::rule::Rule;
use regex::Matcher;
use std::alloc::{AllocError, Global};
use std::marker::Model;

// What looks for one rule in a text.
#[derive(Drop)]
enum Search<'p> {
    Glob(&'p Glob),
    Expression(Matcher<'p>),
}

impl<'p> Search<'p> {
    ghost use Rattle.rnv_pattern.specs.Kept.{IsFor, is_seen};

    // What looks for this rule.
    fn of(alloc: Global, rule: &'p Rule) -> Result<Search<'p>, AllocError>
        ensures search { IfOk result (λ search. IsFor rule.now search) }
        ensures glob { IsGlobRule rule.now → IsOk result }
    {
        match rule {
            Rule::Glob(glob) => Ok(Search::Glob(glob)),
            Rule::Expression(expression) => {
                let matcher = expression.regex().matcher(alloc)?;
                Ok(Search::Expression(matcher))
            }
        }
    }

    // Whether it is in the text.
    fn is_in(&mut self, text: &str) -> bool
        ensures found { result ≡ is_seen self.old text.now }
        ensures same { (rule : _) → IsFor rule self.old → IsFor rule self.new }
    {
        match self {
            Search::Glob(glob) => glob.matches(text),
            Search::Expression(matcher) => matcher.is_match(text),
        }
    }
}

/// What tries one pattern on many texts. It keeps what it learns of an expression, so a text costs no
/// preparation, and no call fails. Contracts see the pattern.
#[derive(Drop)]
pub struct PatternMatcher<'p> {
    pattern: &'p Pattern,
    search: Search<'p>,
}

impl<'p> Model for PatternMatcher<'p> {
    ghost use Rattle.rnv_pattern.specs.declared.pattern.Pattern.{Pattern as PatternValue};
    ghost use Rattle.rnv_pattern.specs.contracts.pattern.Pattern.{the_row as pattern_row};
    ghost use Rattle.rnv_pattern.specs.Kept.{IsFor};

    ghost Value = { PatternValue };

    ghost coded = { pattern_row.coded };

    ghost view = { λ m. m.pattern.now };

    ghost invariant = { λ m. IsFor m.pattern.now.rule m.search };
}

impl<'p> PatternMatcher<'p> {
    // What tries the pattern.
    pub(crate) fn of(alloc: Global, pattern: &'p Pattern) -> Result<PatternMatcher<'p>, AllocError>
        ensures matcher { IfOk result (λ matcher. matcher ≡ pattern.now) }
        ensures glob { IsGlobPattern pattern.now → IsOk result }
    {
        let search = Search::of(alloc, &pattern.rule)?;
        Ok(PatternMatcher { pattern, search })
    }

    /// Whether the text matches, before negation, as for `Pattern::matches`.
    pub fn matches(&mut self, text: &str) -> bool
        ensures holds { result ≡ pattern_holds self.old text.now }
        ensures same { self.new ≡ self.old }
    {
        self.search.is_in(text)
    }

    // The same, of a pattern that is negated, or of one that is not.
    fn matches_as(&mut self, negated: bool, text: &str) -> bool
        ensures holds { result ≡ (is_as negated self.old.negated && pattern_holds self.old text.now) }
        ensures same { self.new ≡ self.old }
    {
        if self.pattern.negated == negated {
            self.search.is_in(text)
        } else {
            false
        }
    }
}

// What tries each pattern.
fn matchers_of<'p>(
    alloc: Global,
    patterns: &'p [Pattern],
) -> Result<Vec<PatternMatcher<'p>>, AllocError>
    ensures { IfOk result (λ matchers. matchers.items ≡ patterns.now) }
{
    let mut matchers = Vec::with_capacity(alloc, patterns.len())?;
    for pattern in patterns {
        matchers.push(PatternMatcher::of(alloc, pattern)?)?;
    }
    Ok(matchers)
}

// Whether some pattern that is negated, or that is not, matches.
fn some_matches(matchers: &mut [PatternMatcher<'_>], negated: bool, text: &str) -> bool
    ensures holds { result ≡ some_match negated matchers.old text.now }
    ensures same { matchers.new ≡ matchers.old }
{
    for index in 0..matchers.len() {
        if matchers[index].matches_as(negated, text) {
            return true;
        }
    }
    false
}

/// What tries a list of patterns on many texts, as `PatternMatcher` does one. Contracts see the list.
#[derive(Drop)]
pub struct ListMatcher<'p> {
    matchers: Vec<PatternMatcher<'p>>,
    positive: bool,
}

impl<'p> Model for ListMatcher<'p> {
    ghost use Rattle.std.specs.Prelude.{List as Items, ◌≡◌, not};
    ghost use Rattle.std.specs.List.{list_any};
    ghost use Rattle.std.specs.Coded.{coded_list};
    ghost use Rattle.rnv_pattern.specs.declared.pattern.Pattern.{Pattern as PatternValue};
    ghost use Rattle.rnv_pattern.specs.contracts.pattern.Pattern.{the_row as pattern_row};

    ghost Value = { Items PatternValue };

    ghost coded = { coded_list pattern_row.coded };

    ghost view = { λ m. m.matchers.items };

    ghost invariant = { λ m. m.positive ≡ list_any (λ p. not p.negated) m.matchers.items };
}

impl<'p> ListMatcher<'p> {
    // What tries the patterns.
    pub(crate) fn of(alloc: Global, patterns: &'p [Pattern]) -> Result<ListMatcher<'p>, AllocError>
        ensures { IfOk result (λ matcher. matcher ≡ patterns.now) }
    {
        let matchers = matchers_of(alloc, patterns)?;
        Ok(ListMatcher {
            matchers,
            positive: has_positive(patterns),
        })
    }

    /// Whether the list matches the text, as for `PatternList::matches`.
    pub fn matches(&mut self, text: &str) -> bool
        ensures matches { result ≡ matches_list self.old text.now }
        ensures same { self.new ≡ self.old }
    {
        if some_matches(self.matchers.as_mut_slice(), true, text) {
            return false;
        }
        if self.positive {
            some_matches(self.matchers.as_mut_slice(), false, text)
        } else {
            true
        }
    }
}
