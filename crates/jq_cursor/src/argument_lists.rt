//! The number and the ends of a call's arguments, counted word by word.
ghost use Rattle.std.specs.Prelude.{◌≡◌, ◌<◌, List, false, IfOk, IfErr};
ghost use Rattle.jq_words.specs.Brackets as brackets;
ghost use Rattle.jq_words.specs.declared.brackets.Bracket.{Bracket};
ghost use Rattle.jq_words.specs.declared.faults.ScriptFault.TheVariants.{Memory};
ghost use Rattle.jq_cursor.specs.Lists as spec;
ghost use Rattle.jq_cursor.specs.Spans as spans;
ghost use Rattle.jq_cursor.specs.ListViews.{extent_of};

use jq_words::{OpenBrackets, ScriptFault, Word, Words, closed_by};
use std::alloc::Global;

/// How many arguments there are, whether all brackets that they open are closed in them, and the words behind them.
#[derive(Drop)]
pub struct Arguments<P> {
    pub count: usize,
    pub whole: bool,
    pub behind: P,
}

/// Arguments, with the words behind them.
pub(crate) type ArgumentList<'a> = Arguments<Words<'a>>;

// Whether arguments end before a word.
#[tactic(auto, unfolding(jq_words::specs::Brackets::ends_argument))]
fn ends_list(open_brackets: &OpenBrackets, word: &Word<'_>) -> bool
    ensures { brackets.ends_argument false open_brackets.now word.now ≡ result }
{
    open_brackets.closes_outer(word) || (open_brackets.is_empty() && word.is_mark(b";"))
}

// One comma more, where a word is one outside brackets.
fn and_comma(open_brackets: &OpenBrackets, word: &Word<'_>, commas: usize) -> usize
    requires { commas < usize.MAX }
    ensures { result ≡ spans.and_comma open_brackets.now word.now commas }
{
    if open_brackets.is_empty() && word.is_mark(b",") {
        return commas + 1;
    }
    commas
}

// Whether no argument begins with these words.
#[tactic(auto, unfolding(jq_words::specs::Brackets::ends_argument, jq_words::specs::Brackets::closes_outer))]
fn is_bare(words: &Words<'_>) -> bool
    ensures { spans.is_bare words.now.words ≡ result }
{
    match words.first() {
        None => true,
        Some(word) => closed_by(&word).is_some() || word.is_mark(b";"),
    }
}

/// Arguments with so many commas, which begin with some words and end before others.
pub(crate) fn ended<'a>(
    inside: &Words<'_>,
    commas: usize,
    whole: bool,
    behind: &Words<'a>,
) -> ArgumentList<'a>
    requires { commas < usize.MAX }
    ensures { (left : List Bracket) → brackets.is_empty left ≡ whole → extent_of result ≡ spans.extent_from inside.now.words (spans.span_at commas left behind.now.words) }
{
    let count = if is_bare(inside) { 0 } else { commas + 1 };
    Arguments {
        count,
        whole,
        behind: behind.again(),
    }
}

/// The arguments that begin with these words. Linear in them.
#[tactic(auto, using(crate::proofs::SpanSteps::over, crate::proofs::SpanSteps::ends, crate::proofs::SpanSteps::goes_on, crate::proofs::SpanSteps::from_span))]
pub(crate) fn read_list<'a>(
    alloc: Global,
    words: &Words<'a>,
) -> Result<ArgumentList<'a>, ScriptFault>
    requires { spans.CanCount 0 words.now.words }
    ensures gives { IfOk result (λ l. extent_of l ≡ spec.extent words.now.words) }
    ensures only_memory { IfErr result (λ e. e ≡ Memory) }
{
    let mut open_brackets = OpenBrackets::none(alloc);
    let mut rest = words.again();
    let mut commas: usize = 0;
    'words: while let Some(word) = rest.first() {
        if ends_list(&open_brackets, &word) {
            return Ok(ended(words, commas, open_brackets.is_empty(), &rest));
        }
        commas = and_comma(&open_brackets, &word, commas);
        open_brackets.pass(&word)?;
        rest.pass();
    }
    Ok(ended(words, commas, open_brackets.is_empty(), &rest))
}
