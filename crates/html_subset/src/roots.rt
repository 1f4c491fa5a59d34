//! html, head and body of a page, whose tags may stand several times in it.
ghost use Rattle.std.specs.Prelude.{◌≡◌, [], IfOk, OnOk};
ghost use Rattle.html_subset.specs.Labels as spec;
ghost use Rattle.html_subset.specs.Building.{unless_given, with_given};
ghost use Rattle.html_subset.specs.Builders.{root_of};
ghost use Rattle.html_subset.specs.Counting.{names_besides, given_besides};
ghost use Rattle.html_subset.specs.Pages as pages;
ghost use Rattle.html_subset.specs.Results.{Does, IsFront};
ghost use Rattle.html_tokens.specs.Views.{bytes_of, start_tag_of};

use crate::faults::PageFault;
use crate::labels::{LabelBuilder, NamesGiven};
use gathered::Gathered;
use html_tokens::StartTag;
use std::alloc::Global;
use tp_base::{ClassSet, NoMemory};

/// html, head or body: the atoms of its label, and whether a tag gave it an id, classes, and other attributes of which names.
/// The label is sorted and put into the tree once, at the end of the page, so that a tag doesn't pay for those before it.
#[derive(Drop)]
pub(crate) struct Root {
    label: Gathered,
    id: bool,
    class: bool,
    others: NamesGiven,
}

// An attribute of a tag, where no tag gave it before.
fn unless_given<'a>(given: bool, value: Option<&'a [u8]>) -> Option<&'a [u8]>
    ensures { bytes_of result ≡ unless_given given (bytes_of value.entry) }
{
    if given { None } else { value }
}

impl Root {
    /// A root element with this label, to which no tag gave anything.
    pub(crate) fn new(alloc: Global, label: Gathered) -> Self
        ensures { root_of result ≡ pages.root label }
    {
        Root {
            label,
            id: false,
            class: false,
            others: NamesGiven::new(alloc),
        }
    }

    // The atoms of what a tag gives that no tag gave before.
    #[tactic(auto, using(crate::proofs::AttributeLemmas::given_in_turn, crate::proofs::AttributeLemmas::others_then, crate::proofs::Fronts::front_of_front))]
    fn take_names(
        &mut self,
        labels: &mut LabelBuilder,
        tag: StartTag<'_>,
    ) -> Result<Gathered, PageFault>
        ensures does { Does (λ l. (l, labels.new.atoms)) result labels.new.atoms (spec.labelled tag.entry.at (names_besides (root_of self.old) (start_tag_of tag.entry)) [] labels.old.atoms) }
        ensures given { OnOk result (root_of self.new ≡ given_besides (root_of self.old) (start_tag_of tag.entry)) }
        ensures front { IsFront labels.old.atoms labels.new.atoms }
    {
        let id = unless_given(self.id, tag.id);
        let class = unless_given(self.class, tag.class);
        labels.begin(tag.at);
        labels.add_id_and_classes(id, class)?;
        labels.add_attributes(&mut self.others, tag.attributes)?;
        self.id = self.id || tag.id.is_some();
        self.class = self.class || tag.class.is_some();
        Ok(labels.end())
    }

    /// Goes on by a tag of its name, which gives what no tag gave before. Linear in the tag, on average, whatever came before
    /// it. After a fault the root is of no use.
    pub(crate) fn take(
        &mut self,
        labels: &mut LabelBuilder,
        tag: StartTag<'_>,
    ) -> Result<(), PageFault>
        ensures does { Does (λ _. (root_of self.new, labels.new.atoms)) result labels.new.atoms (with_given (start_tag_of tag.entry) (root_of self.old) labels.old.atoms) }
        ensures front { IsFront labels.old.atoms labels.new.atoms }
    {
        let names = self.take_names(labels, tag)?;
        self.label.append(&names)?;
        Ok(())
    }

    /// The label, by one sort.
    pub(crate) fn into_label(self) -> Result<ClassSet, NoMemory>
        ensures { IfOk result (λ s. s ≡ (root_of self).label) }
    {
        self.label.into_set()
    }
}
