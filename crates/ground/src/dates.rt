// The calendar: the day number of a date, day 0 being 1880-01-01.
ghost use Rattle.std.specs.Prelude.{◌≡◌};
ghost use Rattle.ground.specs.Dates.{leap, length_of_month, is_date, days_before_year, days_before_month, day_of};

#[derive(Clone, Copy, Debug, PartialEq, Eq)]
pub struct Date {
    pub year: u32,
    pub month: u32,
    pub day: u32,
}

impl Date {
    pub const FIRST_YEAR: u32 = 1880;

    pub const LAST_YEAR: u32 = 2039;
    // February stands for a year that has no leap day.
    const MONTH_LENGTHS: [u32; 12] = [31, 28, 31, 30, 31, 30, 31, 31, 30, 31, 30, 31];

    // The day number, unless the calendar lacks the date.
    pub fn day_number(self) -> Option<u16>
        ensures { result ≡ day_of self }
    {
        if !self.exists() {
            return None;
        }
        let before = days_before_year(self.year) + days_before_month(self.year, self.month);
        Some((before + (self.day - 1) as u64) as u16)
    }

    pub fn exists(self) -> bool
        ensures { result ≡ is_date self }
    {
        (Date::FIRST_YEAR <= self.year)
            & (self.year <= Date::LAST_YEAR)
            & (1 <= self.day)
            & (self.day <= length_of_month(self.year, self.month))
    }
}

fn leap_year(year: u32) -> bool
    ensures { result ≡ leap year }
{
    ((year % 4 == 0) & (year % 100 != 0)) | (year % 400 == 0)
}

// How many days a month of a year has: none if no year has such a month.
fn length_of_month(year: u32, month: u32) -> u32
    ensures { result ≡ length_of_month year month }
{
    if month < 1 {
        return 0;
    }
    if 12 < month {
        return 0;
    }
    if (month == 2) & leap_year(year) {
        return 29;
    }
    let place = (month - 1) as usize;
    Date::MONTH_LENGTHS[place]
}

// The years before, each with 365 days; a leap day for each fourth of them, 1880 the first; none for each hundredth after
// all, 1900 the first; and again one for each four-hundredth, 2000 the first.
fn days_before_year(year: u32) -> u64
    ensures { result ≡ days_before_year year }
{
    if year < Date::FIRST_YEAR {
        return 0;
    }
    let years = (year - Date::FIRST_YEAR) as u64;
    let leap_days = (years + 3) / 4 - (years + 79) / 100 + (years + 279) / 400;
    years * 365 + leap_days
}

fn days_before_month(year: u32, month: u32) -> u64
    ensures { result ≡ days_before_month year month }
{
    let mut days = 0;
    for m in 1..month {
        days += length_of_month(year, m) as u64;
    }
    days
}
