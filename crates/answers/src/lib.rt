// For callers in Rust and C: tree files, the rows of a tree, the tokens of plain trees, and their readings; open sheets; operators not chosen yet; how operators bind.
#![tactic(auto)]

pub mod files; // files.rt: tree files
pub mod archive; // archive.rt: one file for one tree, and the order on files
pub mod rows; // rows.rt: the rows of all nodes
pub mod drafts; // drafts.rt: operators not chosen yet
pub mod plain; // plain.rt: the tokens of plain trees, and their readings
pub mod sheets; // sheets.rt: open sheets
pub mod previews; // previews.rt: a look before an edit
pub mod carries; // carries.rt: open sheets carried to our callee order
pub mod operators; // operators.rt: how operators bind
