/// What a clock shows: the month from 1, the day of the month from 1, the hour from 0 to 23, and the
/// weekday from 0 for Sunday.
#[derive(Clone, Copy, Debug, PartialEq, Eq)]
pub struct Local {
    pub month: u8,
    pub day: u8,
    pub hour: u8,
    pub weekday: u8,
}
