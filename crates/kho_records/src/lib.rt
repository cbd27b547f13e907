//! What frames carry from one kernel to the next, read from any bytes.
#![tactic(auto)]

mod carrying;
mod chain;
mod owners;
mod pages;
mod reading;
mod surveying;
mod users;

pub use chain::{ChunkSheet, ElementRead};
pub use owners::{UsedRun, first_ill_frame};
pub use pages::hold_pages;
pub use record_frames::{Carried, CarriedBound, CarriedFile, CarriedSession, ImagePlace, need};
pub use surveying::{SurveyError, survey};
