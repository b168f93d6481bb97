//! When an update may be proposed: schedules over the hour and the date of a place's clock, the ages
//! of releases, and zones that are given as POSIX rules.
#![tactic(auto)]

mod age;
mod clock;
mod cron;
mod days;
mod error;
mod field;
mod hours;
mod items;
mod mem_zones;
mod number;
mod read_zone;
mod schedule;
mod shown;
mod span;
#[cfg(test)]
mod tests;
mod words;
mod zone;
mod zones;

pub use age::age_read;
pub use clock::local;
pub use error::ScheduleError;
pub use mem_zones::MemZones;
pub use schedule::Schedule;
pub use shown::Local;
pub use zone::Zone;
pub use zones::{ZoneError, Zones};
