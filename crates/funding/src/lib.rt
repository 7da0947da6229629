// 02 to 05 on one channel: it is agreed on and funded, or the customer takes back what he paid in. Only the product's own parts call it.
#![tactic(auto)]

mod deposits;
mod establishing;

pub use deposits::{fund_customer, fund_merchant, reclaim};
pub use establishing::establish_from;
