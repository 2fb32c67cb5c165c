// A kiosk's state, inputs and replies, and their flat twins. The conversions are no `From`: neither type of one is of this crate, and `flat`, which
// has the twins, lies below the definitions.
#![tactic(auto)]

pub mod sent;
pub mod state;
