// The divider's taps.
ghost use Rattle.std.specs.Prelude.{◌≡◌, ◌≤◌, ◌<◌};
ghost use Rattle.timers.specs.Taps.{tap_of};
ghost use Rattle.timers.specs.Closed.{ticks, reach};

// Table 11-2. All eight values are listed: the compiler makes a table of them, which it reads with no test.
#[tactic(auto, unfolding(crate::specs::Taps::tap_of))]
pub(crate) fn tap(bmod: u8) -> u64
    ensures { (result ≡ tap_of bmod) × (result ≤ 12) }
{
    match bmod % 8 {
        0 => 12,
        1 => 12,
        2 => 12,
        3 => 9,
        4 => 12,
        5 => 7,
        6 => 12,
        _ => 5,
    }
}

// How often the tap k counts in n clocks.
pub(crate) fn ticks_in(k: u64, phase: u16, n: u64) -> u64
    requires k_bound { k ≤ 12 }
    requires n_bound { n ≤ 274877906944 }
    ensures { (result ≡ ticks k phase n) × (result ≤ 274877972479) }
{
    let p = u64::from(phase);
    ((p + n) >> k) - (p >> k)
}

// The clock with which the tap k counts for the y-th time.
pub(crate) fn reach_at(k: u64, phase: u16, y: u64) -> u64
    requires k_bound { k ≤ 12 }
    requires y_nonzero { (0 < y) × (y ≤ 2048) }
    ensures { (result ≡ reach k phase y) × (result ≤ 16777216) × (0 < result) }
{
    let p = u64::from(phase);
    (((p >> k) + y) << k) - p
}
