// The mathematics under the curves, as the crates above it see it. Their proofs know these functions
// by the definitions' names and by the laws that specs/ passes on, and cannot look inside.
#![tactic(auto)]

pub use numbers::select::{clamp, max, min};
pub use numbers::whole::{ceil, ceil_i32, floor, floor_i32, from_u32, span, to_i32, to_u32};
pub use numbers::words::{abs, copysign, float_of, half, is_nan, is_negative, turned, word_of};
pub use roots::{cbrt, hypot, sqrt, two_thirds};
pub use trig::{acos, asin, atan2, cos, sin};
