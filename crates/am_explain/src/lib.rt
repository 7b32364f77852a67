//! What is told below the fault of a script or of a scene: its line, its column and what was expected
//! there.
#![tactic(auto)]

mod excerpt;
pub mod explain;
mod note;
pub mod scene_expected;
mod scene_misfit;
mod scene_slip;
pub mod scenes;

pub use explain::help;
pub use scene_expected::{SceneExpected, SceneSlip};
pub use scenes::scene_help;
