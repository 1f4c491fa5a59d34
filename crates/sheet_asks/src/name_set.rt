//! Names, each once.
ghost use Rattle.std.specs.Prelude.{◌≡◌, [], map, OnOk, OnErr};
ghost use Rattle.html_tokens.specs.Words.{words};
ghost use Rattle.sheet_asks.specs.Names.{is_among, with_name, with_all};

use html_tokens::word_len;
use indexmap::IndexSet;
use std::alloc::Global;
use std::marker::Model;
use text_bytes::is_blank;
use tp_base::NoMemory;

/// Names, each once, in the order of their first coming. A contract sees the list of them.
#[derive(Drop)]
pub struct NameSet<'t> {
    names: IndexSet<&'t [u8]>,
}

impl<'t> Model for NameSet<'t> {
    ghost use Rattle.std.specs.Prelude.{ℕ, List, map};

    ghost Value = { List (List ℕ) };

    ghost view = { λ s. map (λ k. k.now) s.names.keys };
}

impl<'t> NameSet<'t> {
    /// No names.
    pub fn new(alloc: Global) -> Self
        ensures { result ≡ [] }
    {
        NameSet {
            names: IndexSet::new(alloc),
        }
    }

    /// Whether a name is there. Linear in it, on average.
    #[tactic(auto, using(crate::proofs::SetSteps::held))]
    pub fn has(&self, name: &[u8]) -> bool
        ensures { result ≡ is_among self.now name.now }
    {
        self.names.contains(name)
    }

    /// The names, lent. Constant.
    pub fn names(&self) -> &[&'t [u8]]
        ensures { map (λ n. n.now) result.now ≡ self.now }
    {
        self.names.as_slice()
    }

    /// Adds a name that is new. Linear in it, on average.
    #[tactic(auto, using(crate::proofs::SetSteps::entered))]
    pub fn put(&mut self, name: &'t [u8]) -> Result<(), NoMemory>
        ensures ok { OnOk result (self.new ≡ with_name self.old name.now) }
        ensures err { OnErr result (self.new ≡ self.old) }
    {
        self.names.insert(name)?;
        Ok(())
    }

    /// Adds the words of a text that are new. Linear in it, on average.
    #[tactic(auto, using(crate::proofs::WordSteps::blank_first, crate::proofs::WordSteps::word_first, crate::proofs::WordSteps::no_words))]
    pub(crate) fn put_words(&mut self, text: &'t [u8]) -> Result<(), NoMemory>
        ensures { OnOk result (self.new ≡ with_all self.old (words text.now)) }
    {
        let mut rest = text;
        'words: while let Some((first, behind)) = rest.split_first() {
            if is_blank(*first) {
                rest = behind;
            } else {
                let (word, others) = rest.split_at(word_len(rest));
                self.put(word)?;
                rest = others;
            }
        }
        Ok(())
    }
}
