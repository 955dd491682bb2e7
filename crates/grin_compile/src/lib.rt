//! From a program to its image, and the law that the layers between them compose.
#![tactic(auto)]

mod compilation;
mod image;
mod later;
pub mod laws;
mod layers;
mod stages;
pub mod words;

pub use compilation::{Compiled, Options, compile};
pub use image::{Built, build};
pub use layers::{Layers, layers_below};
pub use stages::Stages;
