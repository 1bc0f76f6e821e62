// The calendar, exported for bench/ alone: a shop's own calls take day numbers. C takes a number where there is no date, one that no day has.
ghost use Rattle.std.specs.Prelude.{◌≡◌};
ghost use Rattle.ground.specs.Dates.{day_of};
ghost use Rattle.probe.specs.Days.{date_of, number_told};

use ground::Date;

#[unsafe(no_mangle)]
pub extern "C" fn gust_probe_day_number(year: u32, month: u32, day: u32) -> u32
    ensures { result ≡ number_told (day_of (date_of year month day)) }
{
    Date { year, month, day }
        .day_number()
        .map_or(65536, u32::from)
}
