//! What is made aside on a way between two configurations, and put in force by one Set: a chain, a mapper or a table.
//!
//! Each way is a file, whose head says when it works and why it is hitless. Each helps where nothing of what is left to do may be next.
#![tactic(auto)]

mod aside;
mod chain_aside;
mod mapper_aside;
mod table_aside;

pub use chain_aside::make_chain_aside;
pub use mapper_aside::make_mapper_aside;
pub use table_aside::make_table_aside;
