// The calls of a running server that move a point: give, image, take, receipt, release; point: what image and receipt
// test first.
#![tactic(auto)]

pub mod give;
pub mod image;
pub mod point;
pub mod receipt;
pub mod release;
pub mod take;
