//! What becomes of a row of cells or faces in a stage.
//!
//! Each rule goes over rows along x1 and writes one: [`FacePass`] moves what passes the faces of an axis, and
//! [`SlopePay`] writes what cells pay by the second order.
#![tactic(auto)]

mod face_pass;
mod slope_pay;

pub use face_pass::FacePass;
pub use slope_pay::SlopePay;
