//! The engine of the program `jj-core`: parses an input, runs its command and formats the output,
//! or reports the first fault.
#![tactic(auto)]

mod edges;
mod fault;
mod file_set;
mod forms;
mod graph_command;
mod hash_command;
pub mod laws;
mod lines;
mod listed_graph;
mod merge_command;
mod merge_counts;
mod merge_outcome;
mod merge_pairs;
mod merge_simplify;
mod message;
mod numbering;
pub mod program;
mod term_classes;
mod text_sort;
mod walk_command;
