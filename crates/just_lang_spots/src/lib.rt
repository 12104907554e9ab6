//! The room of the language: places in files and the first that breaks a rule, tables of names, graphs, and imports.
#![tactic(auto)]

mod entries;
mod graph;
mod importers;
mod index;
mod level;
mod naming;
mod origin;
mod peel;
mod places;
mod reach;
mod repeated;
mod rule;
mod spot;
mod steps;
mod winners;

pub use entries::{Entry, is_here, is_set, item_name, recipe_items, variable_items};
pub use graph::{first_on_cycle, order};
pub use importers::winners_of;
pub use index::{Index, index_of};
pub use naming::{Naming, first_repeated_among, first_repeated_in};
pub use origin::origins;
pub use places::{argument_spot, literal_spot, name_spot};
pub use repeated::{Named, first_repeated};
pub use rule::{ModuleRule, Rule, first_among};
pub use spot::{Spot, earlier, first_of, spot_where};
pub use steps::push_some;
pub use winners::{standing, standing_recipes, standing_variables, unbeaten};
