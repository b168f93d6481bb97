use crate::{Local, MemZones, Schedule, ScheduleError, Zone, ZoneError, age_read, local};
use rnv_base::{List, Share, moment_read};
use std::alloc::Global;
use std::test::Fail;

#[test]
fn reads_ages(rt: HostRuntime) {
    let rows = [
        ("3 days", Some(259_200)),
        ("1 minute", Some(60)),
        ("2hours", Some(7_200)),
        ("99999 weeks", Some(60_479_395_200)),
        ("00001 day", Some(86_400)),
        ("0 hours", Some(0)),
        ("3", None),
        ("days", None),
        ("", None),
        ("123456 days", None),
        ("3  days", None),
        ("3 dayss", None),
        ("3 days ", None),
        ("3 months", None),
        ("3 Days", None),
        ("-3 days", None),
    ];
    for (text, want) in rows {
        assert!(rt; age_read(text) == want, "{text}");
    }
}

// Whether the schedule of a text holds, None where there is none.
fn held(alloc: Global, text: &str, at: Local) -> Result<Option<bool>, Fail> {
    match Schedule::read(alloc, text) {
        Ok(schedule) => Ok(Some(schedule.holds(&at))),
        Err(ScheduleError::BadSchedule) => Ok(None),
        Err(ScheduleError::Memory) => Err(Fail::from("out of memory")),
    }
}

#[test]
fn holds_by_words(rt: HostRuntime) -> Result<(), Fail> {
    // text, month, day, hour, weekday, whether it holds
    let rows = [
        ("", 1, 1, 0, 0, true),
        ("at any time", 12, 31, 23, 6, true),
        ("after 10pm and before 5am", 1, 1, 23, 0, true),
        ("after 10pm and before 5am", 1, 1, 5, 0, false),
        ("After 9:00AM and BEFORE 5pm", 1, 1, 9, 0, true),
        ("after 9am and before 5pm", 1, 1, 17, 0, false),
        ("before 12am", 1, 1, 0, 0, false),
        ("before 12pm", 1, 1, 11, 0, true),
        ("before 5am", 1, 1, 5, 0, false),
        ("after 11pm", 1, 1, 23, 0, true),
        ("every weekday", 1, 1, 0, 5, true),
        ("every weekday", 1, 1, 0, 0, false),
        ("every WEEKEND", 1, 1, 0, 6, true),
        ("every saturday", 1, 1, 0, 0, false),
        ("on friday and saturday", 1, 1, 0, 6, true),
        ("on friday and saturday", 1, 1, 0, 4, false),
        ("on the first day of the month", 5, 1, 0, 4, true),
        ("before 5am on monday", 5, 2, 4, 1, true),
        ("before 5am on monday", 5, 2, 4, 2, false),
    ];
    for (text, month, day, hour, weekday, want) in rows {
        let at = Local {
            month,
            day,
            hour,
            weekday,
        };
        assert!(rt; held(rt.alloc(), text, at)? == Some(want), "{text}");
    }
    Ok(())
}

#[test]
fn holds_by_fields(rt: HostRuntime) -> Result<(), Fail> {
    // text, month, day, hour, weekday, whether it holds
    let rows = [
        ("* */5 * * *", 1, 1, 20, 0, true),
        ("* */5 * * *", 1, 1, 21, 0, false),
        ("* * 1-31/2 * *", 1, 31, 0, 0, true),
        ("* * 1-31/2 * *", 1, 2, 0, 0, false),
        ("* * */2 * *", 1, 1, 0, 0, true),
        ("* * */5 * *", 1, 26, 0, 0, true),
        ("* * * * */5", 1, 1, 0, 5, true),
        ("* 0 1 1 0", 1, 1, 0, 0, true),
        ("* 23 31 12 7", 12, 31, 23, 0, true),
        ("* * * */5 *", 11, 1, 0, 0, true),
        ("* * * * 1-7/2", 1, 1, 0, 0, true),
        ("* 00,08 * JAN-feb,dec *", 2, 1, 8, 0, true),
        ("* 0,8 * jan-feb,dec *", 3, 1, 8, 0, false),
        ("* * * * sun", 1, 1, 0, 0, true),
        ("* * * * 5-7", 1, 1, 0, 0, true),
        ("* * 1 * 1", 1, 1, 0, 3, true),
        ("* * 1 * *", 1, 2, 0, 1, false),
        ("* */99999999999999999999 * * *", 1, 1, 0, 0, true),
    ];
    for (text, month, day, hour, weekday, want) in rows {
        let at = Local {
            month,
            day,
            hour,
            weekday,
        };
        assert!(rt; held(rt.alloc(), text, at)? == Some(want), "{text}");
    }
    Ok(())
}

#[test]
fn refuses_what_is_no_schedule(rt: HostRuntime) -> Result<(), Fail> {
    let at = Local {
        month: 1,
        day: 1,
        hour: 0,
        weekday: 0,
    };
    for text in [
        "1 * * * *",
        "* 24 * * *",
        "* * 0 * *",
        "* * 32 * *",
        "* * * 0 *",
        "* * * 13 *",
        "* * * * 8",
        "* 1-31/2 * * *",
        "* * * 1-31/2 *",
        "* * * * 1-31/2",
        "* */0 * * *",
        "* 5/2 * * *",
        "* 3-1 * * *",
        "* 1, * * *",
        "* * * sunday *",
        "* * * *",
        "* * * * * *",
        "*  * * * *",
        "At any time",
        "before 0am",
        "before 13pm",
        "before 05am",
        "before 5",
        "before 5:30am",
        "before 5am and after 10pm",
        "every",
        "every monday and friday",
        "on monday and",
        "every weekday before 5am",
    ] {
        assert!(rt; held(rt.alloc(), text, at)?.is_none(), "{text}");
    }
    Ok(())
}

// What a clock shows at a moment, in the zone of a rule, or in UTC where there is no rule.
fn shown(alloc: Global, rule: &str, moment: &str) -> Result<Local, Fail> {
    let zone = if rule.is_empty() {
        Zone::utc()
    } else {
        Zone::read(alloc, &mut MemZones::new(alloc, List::empty(alloc)), rule)?
    };
    let Some(moment) = moment_read(moment) else {
        return Err(Fail::from("no moment"));
    };
    Ok(local(moment, &zone.share(alloc)?)?)
}

#[test]
fn shows_local_dates(rt: HostRuntime) -> Result<(), Fail> {
    let york = "EST5EDT,M3.2.0,M11.1.0";
    let sydney = "AEST-10AEDT,M10.1.0,M4.1.0/3";
    // rule, moment, month, day, hour, weekday
    let rows = [
        ("", "1970-01-01T00:00:00Z", 1, 1, 0, 4),
        ("AAA12", "1970-01-01T00:00:00Z", 12, 31, 12, 3),
        ("", "9998-12-31T23:59:59Z", 12, 31, 23, 4),
        ("BBB-14", "9998-12-31T23:59:59Z", 1, 1, 13, 5),
        ("BBB-14", "2024-02-28T10:00:00Z", 2, 29, 0, 4),
        ("CCC24", "2024-03-01T00:00:00Z", 2, 29, 0, 4),
        (york, "2024-03-10T06:59:59Z", 3, 10, 1, 0),
        (york, "2024-03-10T07:00:00Z", 3, 10, 3, 0),
        (york, "2024-11-03T05:59:59Z", 11, 3, 1, 0),
        (york, "2024-11-03T06:00:00Z", 11, 3, 1, 0),
        (york, "2024-11-03T07:00:00Z", 11, 3, 2, 0),
        (sydney, "2023-12-31T13:00:00Z", 1, 1, 0, 1),
        (sydney, "2024-07-01T14:00:00Z", 7, 2, 0, 2),
    ];
    for (rule, moment, month, day, hour, weekday) in rows {
        let want = Local {
            month,
            day,
            hour,
            weekday,
        };
        assert!(rt; shown(rt.alloc(), rule, moment)? == want, "{rule} {moment}");
    }
    Ok(())
}

#[test]
fn holds_in_a_zone(rt: HostRuntime) -> Result<(), Fail> {
    let rows = [
        ("2024-06-01T01:59:59Z", true),
        ("2024-06-03T01:59:59Z", true),
        ("2024-01-01T02:59:59Z", true),
        ("2024-06-01T02:00:00Z", false),
        ("2024-01-01T03:00:00Z", false),
        ("2024-06-04T01:59:59Z", false),
    ];
    for (moment, want) in rows {
        let at = shown(rt.alloc(), "CET-1CEST,M3.5.0,M10.5.0/3", moment)?;
        assert!(rt;
            held(rt.alloc(), "* 0-3 1 * 1", at)? == Some(want),
            "{moment}"
        );
    }
    Ok(())
}

#[test]
fn refuses_zones(rt: HostRuntime) -> Result<(), Fail> {
    let alloc = rt.alloc();
    let mut failing = List::empty(alloc);
    failing.push(3)?;
    let mut engines = MemZones::new(alloc, failing);
    for (text, taken) in [
        ("", false),
        ("CET-1CEST", false),
        ("CET-1", true),
        ("CET-1", false),
        ("CET-1", true),
    ] {
        match Zone::read(alloc, &mut engines, text) {
            Ok(_) => assert!(rt; taken, "{text}"),
            Err(error) => assert!(rt; error == ZoneError::BadZone && !taken, "{text}"),
        }
    }
    Ok(())
}
