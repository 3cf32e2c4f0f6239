//! The texts of nodes in one buffer, and a function that writes nodes to any output without recursion.

mod line_comment_scan;
pub mod text_buffer;
pub mod write_nodes;
mod write_tasks;
