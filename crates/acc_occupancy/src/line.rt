//! How far the motions of a start reach along one normal.

ghost use Rattle.std.specs.Prelude.{◌≡◌, ◌+◌, ◌*◌, ◌<◌, ◌≤◌, pos};
ghost use Rattle.spot_terms.specs.Ranges.{IsStart, IsBoxWithin};
ghost use Rattle.spot_terms.specs.Whole.{SizeAtMost};
ghost use Rattle.spot_terms.specs.Reach.{normal_at, along, box_number, rounding};
ghost use Rattle.acc_occupancy.specs.Lines as lines;
ghost use Rattle.acc_occupancy.specs.Lines.{IsLine, IsLineInRange, IsRising, line_place, line_number, risen_place, bend_way, capped_way};

use round_out::disc_number;
use spot_terms::{AccStart, LAST_TICK, MOST_STEPS, MOST_TICKS, Pt, VBox};

/// What is kept of a start along a normal: the place at tick 0 in µm; the greatest speed at tick 0, by how much it
/// can rise with each tick, and its cap from tick 1 on, in µm per tick; the rounding of a tick, doubled; and how far the
/// body reaches from its centre, in µm.
#[derive(Clone, Copy, Debug, PartialEq, Eq)]
pub struct Line {
    place: i64,
    speed: i64,
    rise: i64,
    cap: i64,
    rounding: i64,
    body: i64,
}

impl Line {
    /// The line of a start along a normal.
    pub fn of(s: &AccStart, normal: u32) -> Line
        requires start { IsStart s.now }
        requires normal { normal < 8 }
        ensures of_start { IsLine s.now (normal_at normal) result }
        ensures range { IsLineInRange result }
    {
        Line {
            place: along_normal(normal, s.p),
            speed: fastest(normal, &s.b),
            rise: disc_number(normal, s.a as u64),
            cap: disc_number(normal, s.v as u64),
            rounding: rounding_of(normal),
            body: disc_number(normal, s.r),
        }
    }

    /// The octagon number of interval `i` of `k` ticks.
    ///
    /// Once the way of a tick is at least 0, it stays so: the place first falls and then rises, and is greatest at one of
    /// the interval's ends.
    pub fn number(&self, k: u32, i: u32) -> i64
        requires range { IsLineInRange self.now }
        requires ticks { k ≤ MOST_TICKS }
        requires interval { i < MOST_STEPS }
        ensures { result ≡ line_number k i self.now }
    {
        let first = i * k;
        self.place_at(first).max(self.place_at(first + k)) + self.body
    }

    /// The greatest place at a tick.
    ///
    /// The greatest speed rises by the same with each tick until it meets its cap: so the way is the sum of an
    /// arithmetic row, one tick in which the speed meets the cap, and ticks at the cap.
    pub fn place_at(&self, tick: u32) -> i64
        requires range { IsLineInRange self.now }
        requires tick { tick ≤ LAST_TICK }
        ensures value { result ≡ line_place self.now tick }
        ensures size { SizeAtMost 41_000_000_000_000 result }
    {
        let rising = self.rising();
        if tick <= rising {
            self.risen(tick)
        } else {
            self.risen(rising) + self.bend(rising) + (tick - rising - 1) as i64 * self.capped()
        }
    }

    // For how many ticks the speed rises freely.
    fn rising(&self) -> u32
        requires { IsLineInRange self.now }
        ensures { IsRising self.now result }
    {
        (self.cap - self.speed).div_euclid(self.rise).max(0) as u32
    }

    // The place after some ticks in which the speed rises freely.
    fn risen(&self, ticks: u32) -> i64
        requires range { IsLineInRange self.now }
        requires ticks { ticks ≤ LAST_TICK }
        ensures value { result ≡ risen_place self.now ticks }
        ensures size { SizeAtMost 40_400_000_000_000 result }
    {
        let steady = self.speed + half(self.rise + self.rounding);
        self.place + ticks as i64 * steady + pairs(ticks) * self.rise
    }

    // The way of the tick in which the speed meets its cap.
    fn bend(&self, rising: u32) -> i64
        requires range { IsLineInRange self.now }
        requires rising { rising ≤ LAST_TICK }
        ensures value { result ≡ bend_way self.now rising }
        ensures size { SizeAtMost 10_000_000 result }
    {
        half(self.speed + rising as i64 * self.rise + self.cap + self.rounding)
    }

    // The way of a tick at the cap.
    fn capped(&self) -> i64
        requires { IsLineInRange self.now }
        ensures value { result ≡ capped_way self.now }
        ensures size { SizeAtMost 2_000_000 result }
    {
        self.cap + half(self.rounding)
    }
}

// Half, rounded down.
fn half(whole: i64) -> i64
    requires { SizeAtMost 10_000_000 whole }
    ensures value { result ≡ lines.half whole }
    ensures size { SizeAtMost 10_000_000 result }
{
    whole.div_euclid(2)
}

// 0 + 1 + .. + (ticks - 1)
fn pairs(ticks: u32) -> i64
    requires { ticks ≤ LAST_TICK }
    ensures value { result ≡ pos (lines.pairs ticks) }
    ensures size { SizeAtMost 5_000_000_000 result }
{
    let wide = ticks as u64;
    (wide * wide.saturating_sub(1) / 2) as i64
}

// normal · p
fn along_normal(normal: u32, p: Pt) -> i64
    requires normal { normal < 8 }
    requires x { SizeAtMost 20_000_000_000_000 p.x }
    requires y { SizeAtMost 20_000_000_000_000 p.y }
    ensures { result ≡ along (normal_at normal) p }
{
    match normal {
        0 => p.x,
        1 => p.x + p.y,
        2 => p.y,
        3 => p.y - p.x,
        4 => -p.x,
        5 => -(p.x + p.y),
        6 => -p.y,
        _ => p.x - p.y,
    }
}

// The greatest value of normal · v over the velocities v of a box: that of the corner farthest along the normal.
fn fastest(normal: u32, b: &VBox) -> i64
    requires normal { normal < 8 }
    requires range { IsBoxWithin 900_000 b.now }
    ensures { result ≡ box_number (normal_at normal) b.now }
{
    let x = if normal >= 3 && normal <= 5 {
        b.xlo
    } else {
        b.xhi
    };
    let y = if normal >= 5 { b.ylo } else { b.yhi };
    along_normal(normal, Pt { x, y })
}

// 1 on the axes, 2 on the diagonals: what the two coordinates of a normal can gain in a tick by rounding, doubled.
fn rounding_of(normal: u32) -> i64
    requires { normal < 8 }
    ensures { result ≡ pos (rounding (normal_at normal)) }
{
    if normal % 2 == 0 { 1 } else { 2 }
}
