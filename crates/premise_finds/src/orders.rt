//! Findings of one file in the order of their places.
ghost use Rattle.std.specs.Prelude.{◌≡◌, OnOk};
ghost use Rattle.premise_finds.specs.Orders as spec;

use crate::findings::Finding;
use crate::names::Name;
use std::alloc::AllocError;

// Names in their order.
fn rank(name: Name) -> u8
    ensures { result ≡ spec.rank name }
{
    match name {
        Name::Quirks => 0,
        Name::Xhtml => 1,
        Name::CodeInAnAttribute => 2,
        Name::CodeInAnAddress => 3,
        Name::ScriptHere => 4,
        Name::SheetHere => 5,
        Name::OtherDocument => 6,
        Name::NoScript => 7,
        Name::Template => 8,
        Name::OwnElement => 9,
        Name::TypedInto => 10,
        Name::Reference => 11,
        Name::RawInSvg => 12,
        Name::HtmlInSvg => 13,
        Name::TagAcrossAnother => 14,
        Name::LeftOpen => 15,
        Name::InItself => 16,
        Name::InATable => 17,
        Name::InASelect => 18,
        Name::ItemInABlock => 19,
        Name::SelectedContent => 20,
        Name::ScriptInAScript => 21,
        Name::FormLeftOpen => 22,
        Name::CommentMark => 23,
        Name::Escape => 24,
        Name::Address => 25,
        Name::NestedRule => 26,
        Name::Import => 27,
        Name::Layer => 28,
        Name::UnknownToSome => 29,
        Name::ValueAsked => 30,
    }
}

/// Puts findings in the order of their places, and at one place in that of their names. n log n for n findings, and linear where
/// they are a few lists that are in order.
pub fn sort_findings(found: &mut Vec<Finding>) -> Result<(), AllocError>
    ensures { OnOk result (spec.AreInOrder found.old.items found.new.items) }
{
    found.sort_by_key(|finding| (finding.from, rank(finding.name)))?;
    Ok(())
}
