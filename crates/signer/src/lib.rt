// Key making and signing of RFC 8554: LMS type 6 (SHA-256, height 10) over LM-OTS type 4 (w = 8, 34 chains), with the private strings of its Appendix A.
#![tactic(auto)]

mod making;
mod nodes;
mod signing;
mod state;
mod strings;

pub use making::{made, make};
pub use signing::{sign, signed};
pub use state::{Node, Refusal, Signature, Signer};
pub use strings::leaf_public;
