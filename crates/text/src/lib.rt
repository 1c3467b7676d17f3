// Texts as lists of bytes: what lines, fields, paths and numbers are made of. No function here allocates or fails; each is pinned by a
// definition on lists of bytes in specs/, which the crates above share.
#![tactic(auto)]

pub mod kind;
pub mod line;
pub mod mark;
pub mod name;
pub mod numeral;
pub mod output;
pub mod span;
pub mod squeezed;
#[cfg(test)]
mod tests;
pub mod value;
