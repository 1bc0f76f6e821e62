// The calls on a strip, exported for C and Rust.
ghost use Rattle.std.specs.Prelude.{◌≡◌};
ghost use Rattle.strip.specs.StripCalls.{cleared, recorded, asked};
ghost use Rattle.gustbook.specs.StripBoundary.{days_of, strip_told};

// Refusal 4.
#[unsafe(no_mangle)]
pub extern "C" fn gust_strip_clear(segments: &mut [u32], count: &mut u32) -> u32
    ensures { record { refusal = result; strip = record { words = segments.new; count = count.new } } ≡ cleared (record { words = segments.old; count = count.old }) }
{
    gustbook::gust_strip_clear(segments, count)
}

// Refusals 2, 3, 4 and 10.
#[unsafe(no_mangle)]
pub extern "C" fn gust_strip_record(
    segments: &mut [u32],
    count: &mut u32,
    days: &[u32; 2],
    gust: u32,
) -> u32
    ensures { record { refusal = result; strip = record { words = segments.new; count = count.new } } ≡ recorded (record { words = segments.old; count = count.old }) (days_of days.now) gust }
{
    gustbook::gust_strip_record(segments, count, days, gust)
}

// Refusals 2 and 4. The answer: 1 and the gust, or 0 and 0 for nothing.
#[unsafe(no_mangle)]
pub extern "C" fn gust_strip_ask(
    segments: &[u32],
    count: u32,
    days: &[u32; 2],
    answer: &mut [u32; 2],
) -> u32
    ensures { record { refusal = result; answer = answer.new } ≡ strip_told (asked (record { words = segments.now; count = count }) (days_of days.now)) answer.old }
{
    gustbook::gust_strip_ask(segments, count, days, answer)
}
