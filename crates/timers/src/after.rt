// The timers after some clocks, whatever comes in them but a reset.
ghost use Rattle.std.specs.Prelude.{◌≡◌, ◌&&◌, leb, ◌+◌, ◌/◌, ◌≤◌, ◌<◌};
ghost use Rattle.timers.specs.Clock.{counter_values, watchdog_counts};
ghost use Rattle.timers.specs.Closed.{irqb_after, count_after, total_of, state_of};

use super::{COUNTER_VALUES, PHASES, Timers, WATCHDOG_COUNTS};

fn irqb_after(irqb: u8, c: u64) -> u8
    ensures { result ≡ irqb_after irqb c }
{
    if c < COUNTER_VALUES { irqb } else { 1 }
}

fn count_after(watched: bool, count: u8, c: u64) -> u8
    ensures { result ≡ count_after watched count c }
{
    if watched {
        return ((u64::from(count) + c / COUNTER_VALUES) % WATCHDOG_COUNTS) as u8;
    }
    count
}

// The watchdog's count overflows.
pub(crate) fn bitten(watched: bool, count: u8, c: u64) -> bool
    ensures { result ≡ watched && leb watchdog_counts (count + c / counter_values) }
{
    if watched {
        return WATCHDOG_COUNTS <= u64::from(count) + c / COUNTER_VALUES;
    }
    false
}

// n clocks, with BCNT coming to c if it went on past 255.
pub(crate) fn after(t: Timers, n: u64, c: u64) -> Timers
    requires n_bound { n ≤ 274877906944 }
    requires c_value { c ≡ total_of n t }
    ensures { result ≡ state_of n t }
{
    Timers {
        bmod: t.bmod,
        bcnt: (c % COUNTER_VALUES) as u8,
        watched: t.watched,
        irqb: irqb_after(t.irqb, c),
        phase: ((u64::from(t.phase) + n) % PHASES) as u16,
        count: count_after(t.watched, t.count, c),
    }
}
