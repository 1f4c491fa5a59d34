//! What code can give elements: the kinds of it, and what classes and attributes come to, by what a sheet asks for.
#![tactic(auto)]

mod attributes;
mod classes;
mod given;
mod ids;
mod tags;

pub use attributes::{Setting, give_any_attribute, give_attribute};
pub use classes::{give_any_class, give_classes};
pub use given::{Called, Gift, Given, Kind, Setter, What};
pub use ids::{give_any_id, give_id};
pub use tags::{Held, Tag, TagAttribute};
