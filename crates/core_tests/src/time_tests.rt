//! What a time by the calendar is: rows that were worked out by hand.
use kom_types::limits::LAST_MOMENT;
use kom_types::{Moment, Time};

#[test]
fn times_of_moments(rt: HostRuntime) {
    assert_eq!(rt;
        Time::of(Moment::at_most(0)),
        time([0, 0, 0, 1, 0], 70, 4, 0)
    );
    assert_eq!(rt;
        Time::of(Moment::at_most(951_782_400)),
        time([0, 0, 0, 29, 1], 100, 2, 59)
    );
    assert_eq!(rt;
        Time::of(Moment::at_most(1_795_000_000)),
        time([40, 6, 11, 18, 10], 126, 3, 321)
    );
    assert_eq!(rt;
        Time::of(Moment::at_most(4_107_542_399)),
        time([59, 59, 23, 28, 1], 200, 0, 58)
    );
    assert_eq!(rt;
        Time::of(Moment::at_most(4_107_542_400)),
        time([0, 0, 0, 1, 2], 200, 1, 59)
    );
    let last = time([59, 59, 23, 31, 11], 8099, 5, 364);
    assert_eq!(rt; Time::of(Moment::at_most(LAST_MOMENT)), last);
}

// The seconds, minutes, hours, day and month; the year; the day of the week and of the year.
fn time(parts: [u8; 5], year: u32, weekday: u8, yearday: u16) -> Time {
    let [seconds, minutes, hours, day, month] = parts;
    Time {
        seconds,
        minutes,
        hours,
        day,
        month,
        year,
        weekday,
        yearday,
        dst: false,
    }
}
