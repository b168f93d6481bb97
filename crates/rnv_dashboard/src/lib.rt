//! The dependency dashboard: a page that lists what stands open and what waits, with a box for each
//! item, and the names that someone ticked on such a page.
#![tactic(auto)]

mod boxes;
mod found;
mod item;
mod item_lines;
mod lines;
mod page;
mod section;
#[cfg(test)]
mod tests;
mod ticking;

pub use boxes::boxes_tick;
pub use item::{PageFile, PageItem, PageLine};
pub use page::page_text;
pub use section::Section;
pub use ticking::ticks;
