// POLYVAL (RFC 8452, section 3).
#![tactic(auto)]

pub mod block;
pub mod key;
pub mod rf;
pub mod route;
pub mod soft;
