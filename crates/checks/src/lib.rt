// A command's checks, one after the other: the first no decides. Only the product's own parts call it.
#![tactic(auto)]

mod judging;
mod secrets;
mod signatures;

pub use judging::ensure;
pub use secrets::secret_checked;
pub use signatures::Signed;
