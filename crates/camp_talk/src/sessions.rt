//! Repositories and views that take texts and return texts, for programs that embed them.
mod repositories;
mod views;

pub use repositories::Session;
pub use views::View;
