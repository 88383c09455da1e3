//! A program whose names are resolved, the scene that it is run in, and the table of its guards'
//! accords.
//!
//! Cells, guards, operations, parameters and queries are numbers here; `Names` keeps what they are
//! called. `specs/` has the program once more as plain data (`Rules`), and says which programs are
//! well formed and which scenes are valid.
//!
//! Layer: names. All that stands above names and numbers stands on it.
#![tactic(auto)]

mod accords;
mod chains;
mod copies;
mod limits;
mod lookups;
mod names;
mod places;
mod program;
mod rows;
mod scenes;
mod steps;
mod variables;

pub use accords::{AccordTable, Entry, EntryList};
pub use limits::{MOST_GUARDS, MOST_QUERIES, MOST_REPLICAS, MOST_SESSIONS};
pub use lookups::{Arguments, OneStore, TwoStores};
pub use names::{Name, NameList, Names, OpNameList, OpNames};
pub use places::Place;
pub use program::{FormulaList, Guard, GuardList, Op, OpList, Program};
pub use rows::{at_most, with_kinds, with_more};
pub use scenes::{ArgList, Command, CommandList, PlanList, Scene, SessionPlan};
pub use steps::{Part, PartList, Step};
pub use variables::{
    FIRST_PARAMETER, FIRST_QUERIED, FIRST_THERE, RESULT_VARIABLE, STORE_VARIABLES, query_variable,
};
