//! What classes come to.
ghost use Rattle.std.specs.Prelude.{◌≡◌, ◌++◌, map, flat_map, option_map, OnOk, IfOk};
ghost use Rattle.gifts.specs.Classes as spec;
ghost use Rattle.gifts.specs.Given.{gives as gives_one};

use crate::given::{Gift, Given, What};
use sheet_asks::Asked;
use tp_base::{Items, NoMemory};

/// Adds a gift. Constant.
pub(crate) fn push_gift(givens: &mut Vec<Given>, at: usize, gift: Gift) -> Result<(), NoMemory>
    ensures { OnOk result (givens.new.items ≡ givens.old.items ++ gives_one at gift) }
{
    givens.push(Given {
        at,
        what: What::Gives(gift),
    })?;
    Ok(())
}

/// Adds any class. Constant.
pub fn give_any_class(givens: &mut Vec<Given>, at: usize) -> Result<(), NoMemory>
    ensures { OnOk result (givens.new.items ≡ givens.old.items ++ spec.any_class at) }
{
    push_gift(givens, at, Gift::AnyClass)
}

fn push_words(text: &mut Vec<u8>, words: &[&[u8]]) -> Result<(), NoMemory>
    ensures { OnOk result (text.new.items ≡ text.old.items ++ flat_map spec.behind_blank (map (λ w. w.now) words.now)) }
{
    let mut left = words;
    'words: while let [first, others @ ..] = left {
        text.push(b' ')?;
        text.extend_from_slice(first)?;
        left = others;
    }
    Ok(())
}

fn give_words(givens: &mut Vec<Given>, at: usize, words: &[&[u8]]) -> Result<(), NoMemory>
    ensures { OnOk result (givens.new.items ≡ givens.old.items ++ spec.words_given at (map (λ w. w.now) words.now)) }
{
    let Some((first, others)) = words.split_first() else {
        return Ok(());
    };
    let mut text = Vec::from_slice(*givens.allocator(), first)?;
    push_words(&mut text, others)?;
    givens.push(Given {
        at,
        what: What::Gives(Gift::Classes(Items::new(text))),
    })?;
    Ok(())
}

#[tactic(auto, unfolding(crate::specs::Classes::text_classes))]
fn text_classes(
    givens: &mut Vec<Given>,
    asked: &Asked,
    at: usize,
    text: &[u8],
) -> Result<(), NoMemory>
    ensures { OnOk result (givens.new.items ≡ givens.old.items ++ spec.text_classes asked.now at text.now) }
{
    let words = asked.classes_in(*givens.allocator(), text)?;
    give_words(givens, at, words.names())
}

/// Adds what a value comes to whose words are classes: a text, or one that isn't known. Linear in the text, on average.
pub fn give_classes(
    givens: &mut Vec<Given>,
    asked: &Asked,
    at: usize,
    value: Option<&[u8]>,
) -> Result<(), NoMemory>
    ensures { OnOk result (givens.new.items ≡ givens.old.items ++ spec.classes asked.now at (option_map (λ t. t.now) value.entry)) }
{
    match value {
        Some(text) => text_classes(givens, asked, at, text),
        None => give_any_class(givens, at),
    }
}
